//! Changes of the properties of a file.

use mkv_io::Text;

/// One change of one property, as `propedit` makes it.
#[derive(Debug, Drop)]
pub struct Edit {
    pub place: Selector,
    pub change: Change,
    /// The property's name.
    pub name: Text,
    /// The property's new value, empty if it is deleted.
    pub value: Text,
}

/// Place of a property that is changed: in Info, or in one TrackEntry.
#[derive(Clone, Copy, Debug, PartialEq, Eq)]
pub enum Selector {
    /// Info.
    Info,
    /// TrackEntry with the index `n` in Tracks, counted from 1.
    Nth { n: u64 },
    /// TrackEntry with the index `n`, counted from 1, among the ones with this TrackType: 1 is video, 2 audio, 17
    /// subtitle.
    Typed { kind: u64, n: u64 },
    /// First TrackEntry with this TrackUID.
    Uid { uid: u64 },
    /// First TrackEntry with this TrackNumber.
    Number { number: u64 },
}

/// Kind of change of a property.
#[derive(Clone, Copy, Debug, PartialEq, Eq)]
pub enum Change {
    /// The property gets the value, which replaces all values that it had.
    Set,
    /// The property is added, and the edit is refused if it exists.
    Add,
    /// All values of the property are deleted.
    Delete,
}
