#![tactic(auto)]

//! Parts of the parser of the command line: arguments by their index, values of options by their form, and reasons to
//! refuse an argument.

mod lists;
mod numbers;
mod place;
mod usage;
mod values;

pub use numbers::cut_text;
pub use place::{due_at, end_at, file_at, is_option, refused, word_at};
pub use usage::{ArgsEnd, Usage, ValueEnd, Why};
pub use values::{Value, ValueForm, flag_of, name, track_and_rest, value_of};
