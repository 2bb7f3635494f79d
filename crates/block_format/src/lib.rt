#![tactic(auto)]

//! The blocks of a file: the contents of a SimpleBlock and a BlockGroup, their damage, and the blocks and damaged
//! places of a file in its order. The standard is RFC 9559, sections 5.1.3 (Cluster Element) and 10 (Cluster Blocks).
//! The definitions, which higher crates use, are in `specs/`.

mod limits;

pub use limits::{MAX_BLOCK_LEN, MAX_REFERENCES, MAX_TIMESTAMP_LEN, SLICES, TOO_LARGE_TIME};
