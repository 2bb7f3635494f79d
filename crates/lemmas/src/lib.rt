#![tactic(auto)]

//! Lemmas over plain data that the toolchain's libraries don't have and that several crates cite.
