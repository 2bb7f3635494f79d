//! Commands that a command line asks for.

use crate::commands::Verb;
use mkv_io::{List, Text};
use requests::{Edit, Job, MergeWords};

/// Command that a command line asks for, with the values of all its arguments.
#[derive(Debug, Drop)]
pub enum Command {
    /// Print the page of `--help` of the command `about`, or the overview of all commands.
    Help { about: Option<Verb> },
    /// Print the name and the version of the program.
    Version,
    /// List the Elements and tracks of `file`.
    Info { file: Text },
    /// Print the identification of `file`.
    Identify { file: Text },
    /// Finish an interrupted edit of `file`.
    Recover { file: Text },
    /// Rebuild the Cues and SeekHead of `file`.
    Reindex { file: Text },
    /// Write two test files, with `n` video frames and 2`n` audio blocks, merge them, and cut the result into parts.
    Generate { n: u32, prefix: Text },
    /// Explain the word `name` of a message, or list all words that have a page.
    Explain { name: Option<Text> },
    /// Extract from `file` the content that `job` names.
    Extract { file: Text, job: Job },
    /// Change properties of `file` in place.
    Propedit { file: Text, edits: List<Edit> },
    /// Write one output, or its parts, from one or more files.
    Merge { words: MergeWords },
}
