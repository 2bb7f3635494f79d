//! Laws that hold for every plan.

ghost use Rattle.edit_plan.specs.Laws.{PartsAreInOrder, PlansAreInOrder};

/// States that the writes of edits are in order: no Element other than a Void is in the room of another (RFC 9559,
/// section 5.1, Segment Element). The Segment's size is before its body, and moved Elements are after the old end. No
/// code calls it.
pub fn plans_are_in_order()
    ensures { PlansAreInOrder }
{}

/// States that the writes of any parts of a file are in order, if there are at most five, with different IDs. No code
/// calls it.
pub fn parts_are_in_order()
    ensures { PartsAreInOrder }
{}
