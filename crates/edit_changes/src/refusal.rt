//! Reasons to refuse edits; the command prints them.

use mkv_io::Damage;

/// Greatest total length of an edit's writes, in bytes: 16 MiB.
pub const MAX_WRITTEN: u64 = 16 << 20;

/// Reason to refuse one edit, in the order of the checks.
#[derive(Clone, Copy, Debug, PartialEq, Eq)]
pub enum EditRefusal {
    /// The file has no Info.
    NoInfo,
    /// No TrackEntry matches the selector.
    NoSuchTrack,
    /// The section has no property of this name.
    NoSuchProperty,
    /// The value isn't one of this property.
    BadPropertyValue,
    /// The property exists, and was to be added.
    AlreadyThere,
    /// The property must exist, and was to be deleted.
    Mandatory,
}

/// Kind of room that is missing if an Info or a Tracks moves to the end of the file, in the order of the checks.
/// `Refusal::NoRoom` has the numbers `need` and `have`.
#[derive(Clone, Copy, Debug, PartialEq, Eq)]
pub enum Room {
    /// Nothing may be appended to the file, since an Element or the Segment ends at offset `need`, and the file at
    /// `have`.
    Tail,
    /// An Element that moves must be the only one with its ID: `need` is 1, and `have` exist.
    Twin,
    /// The new SeekHead needs more bytes than the old one and the Voids after it have.
    SeekHead,
    /// The Segment's new size needs a size field of `need` bytes, and the old one has `have`.
    SegmentSize,
}

/// Reason to refuse all edits of a command line, in the order of the checks.
#[derive(Clone, Copy, Debug, PartialEq, Eq)]
pub enum Refusal {
    /// The file can't be read up to the Elements that describe it.
    Damaged(Damage),
    /// The first refused edit, counted from 1, with the reason.
    Edit { edit: u64, why: EditRefusal },
    /// More than 16 MiB to write, or too many Elements in a new Info or Tracks: `length` bytes in all, `nodes` Elements
    /// in the largest.
    EditTooLarge { length: u64, nodes: u64 },
    /// An Element that moves has no room: `need` bytes, Elements or an end offset, by `why`, against `have`.
    NoRoom { why: Room, need: u64, have: u64 },
}
