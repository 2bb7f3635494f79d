//! Rows of the table: RFC 8794, section 7 (EBML Element Types).

/// Type of an Element's body (RFC 8794, section 7, EBML Element Types).
#[derive(Clone, Copy, Debug, PartialEq, Eq)]
pub enum ElementKind {
    /// Other Elements (section 7.7, Master Element).
    Master,
    /// Unsigned integer (section 7.2, Unsigned Integer Element).
    Uint,
    /// Signed integer (section 7.1, Signed Integer Element).
    Int,
    /// Floating-point number (section 7.3, Float Element).
    Float,
    /// Printable ASCII text (section 7.4, String Element).
    Ascii,
    /// UTF-8 text (section 7.5, UTF-8 Element).
    Utf8,
    /// Date (section 7.6, Date Element).
    Date,
    /// Bytes without a format of their own (section 7.8, Binary Element).
    Binary,
}

/// Definition of an Element in the standards.
#[derive(Clone, Copy, Debug, PartialEq, Eq)]
pub struct Row {
    /// The ID with its marker bit, as the standards print it.
    pub id: u32,
    pub name: &'static str,
    pub kind: ElementKind,
}
