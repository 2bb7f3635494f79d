//! Reasons why an outline isn't read.

ghost use Rattle.std.specs.Prelude.{◌≡◌};
ghost use Rattle.element_reader.specs.declared.outline_end.OutlineEnd.TheVariants as outline_end;

use mkv_io::{Damage, Failed, ReadEnd};
use std::alloc::AllocError;
use thiserror::Error;

/// Reason why an outline, or a record of the file, isn't read.
#[derive(Debug, Drop, Error)]
pub enum OutlineEnd {
    /// The file is refused: it isn't Matroska, or passes a limit.
    #[error("Refused")]
    Refused(Damage),
    /// A read failed.
    #[error("ReadFault")]
    ReadFault,
    /// Memory ran out.
    #[error("Memory")]
    Memory,
}

impl From<Damage> for OutlineEnd {
    ghost from_gives = { λ damage end. end ≡ outline_end.Refused damage };

    /// Returns the end of reading an outline of a refused file, whose damage is `damage`.
    fn from(damage: Damage) -> OutlineEnd {
        OutlineEnd::Refused(damage)
    }
}

impl From<Failed> for OutlineEnd {
    ghost from_gives = { λ _ end. end ≡ outline_end.ReadFault };

    /// Returns the end of reading an outline after a failed read.
    fn from(_failed: Failed) -> OutlineEnd {
        OutlineEnd::ReadFault
    }
}

impl From<AllocError> for OutlineEnd {
    ghost from_gives = { λ _ end. end ≡ outline_end.Memory };

    /// Returns the end of reading an outline when memory ran out.
    fn from(_error: AllocError) -> OutlineEnd {
        OutlineEnd::Memory
    }
}

impl From<ReadEnd> for OutlineEnd {
    ghost use Rattle.element_reader.specs.End.{end_of};

    ghost from_gives = { λ why end. end ≡ end_of why };

    /// Returns the end of reading an outline, by the end `why` of a read: a failed read or out of memory.
    fn from(why: ReadEnd) -> OutlineEnd {
        match why {
            ReadEnd::ReadFault => OutlineEnd::ReadFault,
            ReadEnd::Memory => OutlineEnd::Memory,
        }
    }
}
