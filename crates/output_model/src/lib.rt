#![tactic(auto)]

//! An output: its blocks, its Clusters, its cue points, its attached files, and the bytes of the whole file.
//!
//! The standards are RFC 8794, section 6 (Element Data Size), and RFC 9559, sections 4.5 (Data Layout), 5.1 (Segment
//! Element) and 10 (Cluster Blocks). The definitions, which higher crates use, are in `specs/`.

mod attachment;
mod durations;
mod element_laws;
mod front;
mod heads;
mod places;
mod rule;

pub use attachment::Attachment;
pub use durations::Durations;
pub use element_laws::{children_are_written, elements_are_read};
pub use front::Front;
pub use heads::{ClusterLimits, OutHead};
pub use lacing::Lace;
pub use places::{CuePoint, Seek};
pub use rule::CueRule;

/// Maximum length in bytes of the body of a Cluster with more than one block.
pub const MAX_CLUSTER_LEN: u64 = 1 << 20;

/// Length in bytes of the reserved area: a SeekHead and the Void after it.
pub const AREA: u64 = 256;

/// Length in bytes of a Duration with its ID, size and float of eight bytes, and of the Void in its place
pub const DURATION_LEN: u64 = 11;

/// Maximum number of cue points of an output.
pub const MAX_CUES: usize = 1 << 20;

/// Maximum number of bytes that are put back before each frame of an output track.
pub const MAX_PREFIX_LEN: usize = 4096;

/// Maximum number of tracks of an output.
pub const MAX_LANES: usize = 64;
