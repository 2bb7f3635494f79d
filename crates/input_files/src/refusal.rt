//! Failures to read text files

ghost use Rattle.std.specs.Prelude.{◌≡◌};
ghost use Rattle.input_files.specs.declared.refusal.TextFileEnd.TheVariants as file_end;

use std::alloc::AllocError;
use text_formats::TextEnd;

/// Reason to refuse a text file
#[derive(Clone, Copy, Debug, PartialEq, Eq)]
pub enum TextRefusal {
    /// The file is longer than its kind may be
    TooLarge,
    /// Number of the first line that breaks the file's grammar, counted from 1
    Bad { line: u64 },
}

/// Failure to read a text file
#[derive(Clone, Copy, Debug, PartialEq, Eq)]
pub enum TextFileEnd {
    /// The file is refused
    Refused(TextRefusal),
    /// Failed read
    ReadFault,
    /// Out of memory
    Memory,
}

impl From<TextEnd> for TextFileEnd {
    ghost use Rattle.input_files.specs.TextFile.{end_of};

    ghost from_gives = { λ why end. end ≡ end_of why };

    // Converts the error `why` of a parser to a failure to read a text file of `merge`, for `?` in the readers. A bad
    // line is a refusal.
    fn from(why: TextEnd) -> TextFileEnd {
        match why {
            TextEnd::Bad { line } => TextFileEnd::Refused(TextRefusal::Bad { line }),
            TextEnd::Memory => TextFileEnd::Memory,
        }
    }
}

impl From<AllocError> for TextFileEnd {
    ghost from_gives = { λ _ end. end ≡ file_end.Memory };

    // Converts a lack of memory to a failure to read a text file of `merge`, for `?` in the readers.
    fn from(_error: AllocError) -> TextFileEnd {
        TextFileEnd::Memory
    }
}
