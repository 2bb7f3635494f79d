//! The file that an extraction reads.

use ebml_tree::Tree;
use element_reader::Outline;
use mkv_io::{FileId, List};
use output_model::Attachment;
use track_records::Track;

/// Open file to extract from, with the records that were read before its blocks.
#[derive(Drop)]
pub struct Source {
    pub file: FileId,
    pub outline: Outline,
    /// First Info, if there is one.
    pub info: Option<Tree>,
    /// Tracks of the first Tracks.
    pub tracks: List<Track>,
    /// Attached files of the first Attachments, without their data.
    pub attachments: List<Attachment>,
    /// First Chapters, if there is one.
    pub chapters: Option<Tree>,
    /// First Cues, if there is one and the job asks for it.
    pub cues: Option<Tree>,
}
