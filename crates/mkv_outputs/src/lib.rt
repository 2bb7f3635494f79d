#![tactic(auto)]

//! Outputs that are written side by side, each through a buffer, and definitions of the content of their files.

mod outputs;
mod sink;

pub use outputs::Outputs;
