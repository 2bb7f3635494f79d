//! Identifiers of an input in the output, and the choice of its Tags
use indexmap::IndexMap;

/// Numbers that an input's identifiers have in the output; an identifier whose item isn't there is missing
#[derive(Drop)]
pub struct UidMap {
    pub tracks: IndexMap<u64, u64>,
    pub editions: IndexMap<u64, u64>,
    pub chapters: IndexMap<u64, u64>,
    pub attachments: IndexMap<u64, u64>,
}

/// Choice of the Tags of an input that a merge keeps
#[derive(Clone, Copy)]
pub struct TagKeep {
    /// Tags with a track as target
    pub tracks: bool,
    /// Other Tags
    pub global: bool,
}
