//! The rule for writing a SeekHead with rewritten Elements.

/// Rule for the SeekHead of an edit: RFC 9559, section 5.1.1 (SeekHead Element).
#[derive(Clone, Copy)]
pub struct Rewriting<'a> {
    /// IDs that get new Seeks if the SeekHead is written; their old Seeks are dropped.
    pub ids: &'a [u32],
    /// The SeekHead is written even if no Element moves.
    pub always: bool,
}
