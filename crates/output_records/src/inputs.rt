//! Records of an input of a merge

use ebml_tree::Tree;
use mkv_io::List;
use output_model::Attachment;
use record_changes::TagKeep;

/// Records that an input adds to the output of a merge, besides its tracks and blocks
#[derive(Drop)]
pub struct InputRecords {
    /// TrackUIDs of the selected tracks in the input
    pub track_uids: List<u64>,
    /// TrackUIDs of the selected tracks in the output; an appended input has the ones of the output tracks that it
    /// continues
    pub output_uids: List<u64>,
    /// Attached files, if they are kept
    pub attachments: List<Attachment>,
    /// Chapters, if they are kept
    pub chapters: Option<Tree>,
    /// Append offset in nanoseconds, which is added to the times of its chapters, if the input is appended
    pub shift: Option<u64>,
    /// Tags, if some are kept
    pub tags: Option<Tree>,
    /// Choice of the kept Tags
    pub keep: TagKeep,
}
