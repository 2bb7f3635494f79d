//! The Segment of a file, as readers of level 1 need it.

ghost use Rattle.std.specs.Prelude.{◌≡◌, ◌≤◌, ℕ};
ghost use Rattle.mkv_schema.specs.declared.element.Header.{Header as HeaderRecord};

use mkv_schema::Header;

/// Type that has the Segment of a file, such as an outline. A reader of level 1 needs no more of it.
pub trait HasSegment {
    /// Header of the Segment.
    ghost segment: { Self → HeaderRecord };

    /// Length of the file, in bytes.
    ghost total: { Self → ℕ };

    /// Returns the header of the Segment, which begins in the file. The reader of the blocks of a file begins with it.
    fn segment(&self) -> Header
        ensures exact { result ≡ segment self.now }
        ensures inside { result.body ≤ total self.now };

    /// Returns the length of the file, in bytes. The reader of the blocks of a file calls it for the end of the
    /// Segment. Used by `move_to`, `element` and others.
    fn total(&self) -> u64
        ensures { result ≡ total self.now };
}
