//! Failures to open input files

ghost use Rattle.std.specs.Prelude.{◌≡◌};
ghost use Rattle.input_files.specs.declared.inputs_end.InputsEnd.TheVariants as inputs_end;

use std::alloc::AllocError;

/// Failure to open the input files of a merge, or the files that it attaches
#[derive(Clone, Copy, Debug, PartialEq, Eq)]
pub enum InputsEnd {
    /// Index of the first name without a file, counted from 0
    Missing { input: usize },
    /// Failed system call
    Failed,
    /// Out of memory
    Memory,
}

impl From<AllocError> for InputsEnd {
    ghost from_gives = { λ _ end. end ≡ inputs_end.Memory };

    // Converts a lack of memory to a failure to open the inputs of `merge`, for `?` in `open_all`.
    fn from(_error: AllocError) -> InputsEnd {
        InputsEnd::Memory
    }
}
