#![tactic(auto)]

//! Tests of the system's files and of writes in parts: behaviour that no clause describes, and that no run of the
//! program shows.

#[cfg(test)]
mod host;
#[cfg(test)]
mod writes;
