//! Reasons to refuse a command line.

ghost use Rattle.std.specs.Prelude.{◌≡◌};
ghost use Rattle.word_values.specs.declared.usage.ArgsEnd.TheVariants as args_end;
ghost use Rattle.word_values.specs.declared.usage.ValueEnd.TheVariants as value_end;

use std::alloc::AllocError;
use thiserror::Error;

/// Reason to refuse an argument; a message prints its name.
#[derive(Clone, Copy, Debug, PartialEq, Eq)]
pub enum Why {
    /// There are no arguments.
    NoCommand,
    /// The first argument isn't a command, or the mode of `extract` is unknown.
    UnknownCommand,
    /// An argument looks like an option and isn't one of this command.
    UnknownOption,
    /// A value, a file, a section or an edit is missing at the end.
    MissingValue,
    /// A value doesn't have its form or is out of range.
    BadValue,
    /// An option is given twice that may be given once, or a type of tracks has both a selection and an exclusion.
    RepeatedOption,
    /// An argument follows a complete command, or isn't allowed at its place.
    ExtraWord,
    /// A merge has no output.
    NoOutput,
    /// A merge has no file.
    NoInput,
    /// An option for a file isn't followed by a file.
    DanglingOption,
    /// The first file can't be appended to another one.
    AppendFirst,
    /// Two outputs have the same name.
    RepeatedOutput,
    /// There are more files than a merge may have.
    TooManyInputs,
    /// Parts can't be linked without identifiers.
    NeedsUuids,
    /// The order of tracks names a file that isn't there, or one that is appended to another.
    NoSuchFile,
}

impl Why {
    ghost use Rattle.word_values.specs.Why.{why_name};

    /// Returns the name of the reason, as the message of a refused command line prints it.
    #[tactic(auto, unfolding(crate::specs::Why::why_name))]
    pub fn name(self) -> &'static str
        ensures { result.now ≡ why_name self }
    {
        match self {
            Why::NoCommand => "NoCommand",
            Why::UnknownCommand => "UnknownCommand",
            Why::UnknownOption => "UnknownOption",
            Why::MissingValue => "MissingValue",
            Why::BadValue => "BadValue",
            Why::RepeatedOption => "RepeatedOption",
            Why::ExtraWord => "ExtraWord",
            Why::NoOutput => "NoOutput",
            Why::NoInput => "NoInput",
            Why::DanglingOption => "DanglingOption",
            Why::AppendFirst => "AppendFirst",
            Why::RepeatedOutput => "RepeatedOutput",
            Why::TooManyInputs => "TooManyInputs",
            Why::NeedsUuids => "NeedsUuids",
            Why::NoSuchFile => "NoSuchFile",
        }
    }
}

/// First wrong argument of a command line, by its index from 0, and what is wrong. If an argument is missing, the index
/// is the number of arguments.
#[derive(Clone, Copy, Debug, PartialEq, Eq)]
pub struct Usage {
    pub word: usize,
    pub why: Why,
}

/// Reason why a command line isn't parsed.
#[derive(Debug, Drop, Error)]
pub enum ArgsEnd {
    /// The arguments aren't a command.
    #[error("Usage")]
    Usage(Usage),
    /// Out of memory.
    #[error("Memory")]
    Memory,
}

impl From<Usage> for ArgsEnd {
    ghost from_gives = { λ usage end. end ≡ args_end.Usage usage };

    /// Converts `usage`, the first wrong argument, for `?` in the parser of a command.
    fn from(usage: Usage) -> ArgsEnd {
        ArgsEnd::Usage(usage)
    }
}

impl From<AllocError> for ArgsEnd {
    ghost from_gives = { λ _ end. end ≡ args_end.Memory };

    /// Converts a failed allocation, for `?` in the parser of a command.
    fn from(_error: AllocError) -> ArgsEnd {
        ArgsEnd::Memory
    }
}

/// Reason why the value of an option isn't read.
#[derive(Clone, Copy)]
pub enum ValueEnd {
    /// The value doesn't have its form or is out of range.
    Bad,
    /// Out of memory.
    Memory,
}

impl From<AllocError> for ValueEnd {
    ghost from_gives = { λ _ end. end ≡ value_end.Memory };

    /// Converts a failed allocation, for `?` in the readers of an option's value.
    fn from(_error: AllocError) -> ValueEnd {
        ValueEnd::Memory
    }
}
