//! Counts for the limits of an Attachments

ghost use Rattle.std.specs.Prelude.{◌≡◌, ◌+◌, ◌≤◌, IfErr, OnErr, OnOk};
ghost use Rattle.tree_format.specs.declared.limits.TheConstants.{MAX_NODES};
ghost use Rattle.meta_records.specs.declared.limits.TheConstants.{MAX_ATTACHMENTS_LEN};
ghost use Rattle.meta_records.specs.Attachments.{limit_passed};

use crate::limits::MAX_ATTACHMENTS_LEN;
use ebml_tree::MAX_NODES;
use elements::damage_at;
use mkv_io::{Damage, Kind};
use mkv_schema::Header;

/// Number of bytes and Elements of an Attachments, up to a place in it, that count towards the limits
#[derive(Clone, Copy)]
pub(crate) struct Counts {
    pub octets: u64,
    pub nodes: u32,
    ghost few_octets: { octets ≤ MAX_ATTACHMENTS_LEN },
    ghost few_nodes: { nodes ≤ MAX_NODES },
}

impl Counts {
    /// Returns the counts before the first child of an Attachments: one Element, itself. `read_children` begins with
    /// them.
    pub fn new() -> Counts
        ensures octets { result.octets ≡ 0 }
        ensures nodes { result.nodes ≡ 1 }
    {
        Counts {
            octets: 0,
            nodes: 1,
        }
    }

    /// Adds the Element with the header `header` and `octets` of its bytes to the counts, or returns damage if that
    /// exceeds a limit. Called for each child of an Attachments and of its AttachedFiles.
    #[tactic(auto, using(crate::proofs::CountsLemmas::limits))]
    pub fn add(&mut self, header: &Header, octets: u64) -> Result<(), Damage>
        ensures ok { OnOk result (limit_passed (self.old.octets + octets) self.old.nodes header.now ≡ None) }
        ensures err { IfErr result (λ d. limit_passed (self.old.octets + octets) self.old.nodes header.now ≡ Some d) }
        ensures octets { OnOk result (self.new.octets ≡ self.old.octets + octets) }
        ensures nodes { OnOk result (self.new.nodes ≡ self.old.nodes + 1) }
        ensures refused { OnErr result (self.new ≡ self.old) }
    {
        if octets > MAX_ATTACHMENTS_LEN - self.octets {
            return Err(damage_at(Kind::HeaderTooLarge, header));
        }
        if self.nodes >= MAX_NODES {
            return Err(damage_at(Kind::TooMany, header));
        }
        *self = Counts {
            octets: self.octets + octets,
            nodes: self.nodes + 1,
        };
        Ok(())
    }
}
