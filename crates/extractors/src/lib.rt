#![tactic(auto)]

//! Extraction from a Matroska file: the frames of tracks, or their timestamps, each track to its own file in one pass
//! over the blocks. Chapters and cue points are extracted as text, attached files as they are.

mod attached;
mod bad_frames;
mod blocks;
mod chapters;
mod coding;
mod cues;
mod extracted;
mod extraction;
mod frame_form;
mod frames;
mod job;
mod laws;
mod limits;
mod lines;
mod reading;
mod source;
mod takes;
mod times;
mod track_output;
mod whole;

pub use attached::write_attachments;
pub use chapters::write_chapters;
pub use cues::write_cues;
pub use extracted::Extracted;
pub use extraction::extract;
pub use frame_form::{CodecForm, Coding, FrameForm, Refusal, UnsupportedTrack};
pub use job::{job_outputs, targets_of};
pub use laws::outputs_hold_the_good_frames;
pub use limits::MAX_CUE_NODES;
pub use reading::first_cues;
pub use source::Source;
pub use track_output::TrackOutput;
