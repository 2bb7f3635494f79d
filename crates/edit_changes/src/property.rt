//! The properties that `propedit` can edit.

/// Kind of the values of a property, with the spelling on the command line.
#[derive(Clone, Copy, Debug, PartialEq, Eq)]
pub enum ValueKind {
    /// Text in UTF-8 without a zero byte.
    Words,
    /// Three lower-case letters.
    Language,
    /// 1 to 63 letters, digits and hyphens.
    LanguageTag,
    /// 1 to 63 bytes of printable ASCII.
    Codec,
    /// A number of nanoseconds, from 1 to 2^48 - 1.
    Duration,
    /// 0 or 1.
    Flag,
}

/// Property that can be edited: ID of its Element, kind of its values, and whether it may be deleted.
#[derive(Clone, Copy, Debug, PartialEq, Eq)]
pub struct Property {
    pub id: u32,
    pub kind: ValueKind,
    /// False for a mandatory property.
    pub deletable: bool,
}
