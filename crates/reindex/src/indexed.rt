//! The planned index of a file.

use sidecar_edit::Plan;

/// Planned index of a file, before any byte is written: RFC 9559, section 5.1.5 (Cues Element).
#[derive(Drop)]
pub struct Indexed {
    pub plan: Plan,
    /// Number of cue points in the new Cues.
    pub cues: u64,
}
