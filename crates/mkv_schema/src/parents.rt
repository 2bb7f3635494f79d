//! Parents of Elements: the paths of RFC 8794 and RFC 9559.

/// Parents that an Element may have.
#[derive(Clone, Copy, Debug, PartialEq, Eq)]
pub enum Parents {
    /// No parent: the Element is at level 0.
    Root,
    /// Each master of the table, for a Global Element.
    AnyMaster,
    /// The Element with this ID.
    ChildOf(u32),
    /// The Element with this ID, or the Element itself: it may be nested.
    ChildOfOrItself(u32),
}
