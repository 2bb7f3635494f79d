//! The part of an output before its Clusters.

use crate::attachment::Attachment;
use ebml_tree::Tree;
use mkv_io::List;

/// Part of an output before its Clusters.
#[derive(Drop)]
pub struct Front {
    /// True if the DocType is `webm`, and false if it is `matroska`.
    pub webm: bool,
    /// True if Info gets a Duration.
    pub duration: bool,
    pub info: Tree,
    pub tracks: Tree,
    pub attachments: List<Attachment>,
}
