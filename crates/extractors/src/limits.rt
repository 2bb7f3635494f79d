//! Limits that this project sets.

/// Greatest number of Elements in a Cues that is read, the Cues itself included.
pub const MAX_CUE_NODES: u32 = 8_388_608;
