//! Laws on the identifiers that an output gets: RFC 9559, sections 5.1.4.1.2 (TrackUID) and 5.1.6.1.5 (FileUID), and
//! similar ones. These calls do nothing; their contracts state the laws.

ghost use Rattle.record_changes.specs.Laws.{SmallestIsFree, NumbersSettle, NumbersFit};

/// States that the smallest positive number that isn't in a list is at most one more than its length. No code calls it.
pub fn smallest_is_free()
    ensures { SmallestIsFree }
{}

/// States that output identifiers are positive and distinct, and that identifiers that already are stay unchanged. No
/// code calls it.
pub fn numbers_settle()
    ensures { NumbersSettle }
{}

/// States that output identifiers are below a bound if the inputs' identifiers are, and if there are few enough. No
/// code calls it.
pub fn numbers_fit()
    ensures { NumbersFit }
{}
