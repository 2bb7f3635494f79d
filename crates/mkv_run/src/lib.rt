#![tactic(auto)]

//! The run of a command line. It is parsed, its command is executed over any files, any disk and any report, and the
//! status is returned.

mod help;
mod running;

pub use running::run_command_line;
