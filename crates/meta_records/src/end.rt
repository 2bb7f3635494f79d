//! Causes of a failure to read attached files

ghost use Rattle.std.specs.Prelude.{◌≡◌};
ghost use Rattle.meta_records.specs.declared.end.MetaEnd.TheVariants as attachments_end;

use mkv_io::{Damage, Failed, ReadEnd};
use std::alloc::AllocError;

/// End of reading attached files without a result
#[derive(Debug, Drop)]
pub enum MetaEnd {
    /// Invalid Elements, an exceeded limit, or an attached file without data
    Refused(Damage),
    /// Failed read of the file
    ReadFault,
    /// Out of memory
    Memory,
}

impl From<Damage> for MetaEnd {
    ghost from_gives = { λ damage end. end ≡ attachments_end.Refused damage };

    // Converts damage to the end of reading attached files, for `?` in their readers.
    fn from(damage: Damage) -> MetaEnd {
        MetaEnd::Refused(damage)
    }
}

impl From<Failed> for MetaEnd {
    ghost from_gives = { λ _ end. end ≡ attachments_end.ReadFault };

    // Converts a failed read to the end of reading attached files, for `?` in their readers.
    fn from(_failed: Failed) -> MetaEnd {
        MetaEnd::ReadFault
    }
}

impl From<AllocError> for MetaEnd {
    ghost from_gives = { λ _ end. end ≡ attachments_end.Memory };

    // Converts a lack of memory to the end of reading attached files, for `?` in their readers.
    fn from(_error: AllocError) -> MetaEnd {
        MetaEnd::Memory
    }
}

impl From<ReadEnd> for MetaEnd {
    ghost use Rattle.meta_records.specs.End.{end_of};

    ghost from_gives = { λ why end. end ≡ end_of why };

    // Converts the failure `why` of a read to the end of reading attached files, for `?` in their readers.
    fn from(why: ReadEnd) -> MetaEnd {
        match why {
            ReadEnd::ReadFault => MetaEnd::ReadFault,
            ReadEnd::Memory => MetaEnd::Memory,
        }
    }
}
