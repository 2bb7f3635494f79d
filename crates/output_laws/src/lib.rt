#![tactic(auto)]

//! Laws: outputs are read back by the format's definitions, and blocks that were read can be written again. They
//! treat blocks and Clusters, whole outputs, and merges (RFC 9559, sections 5.1, Segment Element, and 10, Cluster
//! Blocks). No code that reads or writes depends on this crate.

mod blocks;
mod layouts;
mod merges;
mod outputs;

pub use blocks::{
    a_stop_is_the_last_event, blocks_are_small, limits_change_nothing,
    the_first_damage_of_a_cluster_is_told,
};
pub use layouts::{layouts_are_read, opened_is_overwritten};
pub use merges::{
    blocks_are_read_in_order, clusters_are_cut, clusters_are_cut_again, clusters_hold_all,
    file_blocks_are_read, found_blocks_are_of_their_kind, lanes_are_kept, lanes_are_read_again,
    merged_clusters_are_sound, merged_is_in_order, placed_blocks_are_sound, ticks_are_kept,
};
pub use outputs::{
    blocks_are_read, clusters_are_read, frames_can_be_written, kept_can_be_written,
    points_are_read, segments_are_read,
};
