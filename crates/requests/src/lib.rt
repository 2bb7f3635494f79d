#![tactic(auto)]

//! Requests to a run, as plain values: extractions, changes of a file and merges, with the limits that they keep, and
//! decimal numbers and language tags. The command line is read as such a value, and the engine starts from it.

mod decimal;
mod edit;
mod job;
mod language;
mod merge;
mod split;
mod track;

pub use decimal::{number, whole};
pub use edit::{Change, Edit, Selector};
pub use job::{Form, Job, Target};
pub use language::is_language_tag;
pub use merge::{AttachedWords, FileWords, FlagWords, MergeWords};
pub use split::{SpanWords, SplitWords};
pub use track::{CueWord, Select};
