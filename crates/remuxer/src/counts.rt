//! Counts of an output

ghost use Rattle.std.specs.Prelude.{◌≡◌};
ghost use Rattle.remuxer.specs.Stands.{counted_with};

use output_model::MAX_CUES;

/// Number of Clusters of an output, the one in the buffer included, and number of its cue points
#[derive(Clone, Copy, Debug, PartialEq, Eq)]
pub struct Counts {
    pub clusters: u64,
    pub cues: u64,
}

impl Counts {
    /// Counts one more block of an output, after `merge` has put it into its Cluster. `begins` is true if it begins a
    /// Cluster, and `cued` if it gets a cue point; cue points above the limit aren't kept.
    pub(crate) fn add(&mut self, begins: bool, cued: bool)
        ensures { self.new ≡ counted_with begins cued self.old }
    {
        if begins {
            self.clusters = self.clusters.saturating_add(1);
        }
        if cued && self.cues < MAX_CUES as u64 {
            self.cues += 1;
        }
    }
}
