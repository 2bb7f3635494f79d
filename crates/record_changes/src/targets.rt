//! Summary of the targets of a Tag

ghost use Rattle.std.specs.Prelude.{◌≡◌};
ghost use Rattle.record_changes.specs.Tags.{both_aims};

/// Summary that decides whether a Tag is kept: whether it has any target, one with a track, and one that is in the
/// output
#[derive(Clone, Copy)]
pub struct TagTargets {
    pub any: bool,
    pub track: bool,
    pub written: bool,
}

impl TagTargets {
    /// Summary of a Tag without targets
    pub const NONE: TagTargets = TagTargets {
        any: false,
        track: false,
        written: false,
    };

    /// Returns the summary of the targets of `self` and `other` together. The targets of a Tag are summed up so. Used
    /// by `tag_targets_in_part`, `aims_in` and others.
    pub fn or(self, other: TagTargets) -> TagTargets
        ensures { result ≡ both_aims self other }
    {
        TagTargets {
            any: self.any || other.any,
            track: self.track || other.track,
            written: self.written || other.written,
        }
    }
}
