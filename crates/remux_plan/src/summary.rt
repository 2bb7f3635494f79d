//! Summary of a merge whose outputs are complete

use mkv_io::{Damage, List, Text};

/// Outputs of a merge, and damaged places of its inputs, for its messages
#[derive(Drop)]
pub struct Summary {
    /// Outputs, in the order of writing
    pub outputs: List<Written>,
    /// First hundred damaged places of each input that an output track reads, in the order of the inputs
    pub damages: List<InputDamage>,
    /// Number of damaged places after the first hundred, for each input that has more
    pub more: List<MoreDamage>,
}

/// Output that is complete
#[derive(Drop)]
pub struct Written {
    pub name: Text,
    /// Number of blocks
    pub blocks: u64,
    /// Number of Clusters
    pub clusters: u64,
    /// Number of cue points
    pub cues: u64,
}

/// Damaged place of an input, with a message of its own
#[derive(Clone, Copy, Debug, PartialEq, Eq)]
pub struct InputDamage {
    /// Number of the input, counted from 0
    pub input: usize,
    pub damage: Damage,
}

/// Number of an input's damaged places that have no message of their own
#[derive(Clone, Copy, Debug, PartialEq, Eq)]
pub struct MoreDamage {
    /// Number of the input, counted from 0
    pub input: usize,
    pub count: u64,
}
