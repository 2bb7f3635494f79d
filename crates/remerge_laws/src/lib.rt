#![tactic(auto)]

//! Laws on the output of a merge that is merged again by itself: it is written as it was, byte for byte. See RFC 9559,
//! section 5.1 (Segment Element). The functions do nothing; their contracts are the laws. `run` cites
//! `outputs_are_written_again`, and most of the others lead to it.

mod merges;
mod outputs;
mod records;
mod tracks;
mod trees;

pub use merges::{
    attached_files_stay, chapters_are_alike_again, entries_are_written_again,
    info_is_written_again, joined_tags_name_the_output, lanes_are_merged_again, merge_is_done,
    merged_files_are_outputs, outputs_are_repeated, outputs_are_sources, outputs_are_written_again,
    sources_are_plain, tags_are_alike_again, tracks_are_taken_again,
    whole_merges_have_one_document, whole_merges_have_small_records,
};
pub use outputs::{
    alike_documents_are_one, documents_are_written_as_read, files_are_read, limits_leave_blocks,
    octets_keep_limits, outlines_are_read, output_blocks_are_read, outputs_are_read_with_limits,
    trees_are_read,
};
pub use records::{
    chapters_stand, children_decide, joined_tags_stay, own_chapters_stay, own_files_stay,
    tags_stand,
};
pub use tracks::{own_tracks_stay, tracks_are_read};
pub use trees::{alike_records_count_alike, records_say_the_same, small_trees_are_read};
