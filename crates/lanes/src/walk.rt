//! Walk of an output track over its links

ghost use Rattle.std.specs.Prelude.{◌≡◌, ◌<◌, IfOk};
ghost use Rattle.lanes.specs.Begun.{Begins};
ghost use Rattle.lanes.specs.Walks.{behind_link};

use crate::place::Placed;
use cluster_reader::{Cursor, Damages};
use std::alloc::{AllocError, Global};

/// State of an output track: its current link, the place in it, and the parts of its last block
#[derive(Drop)]
pub struct Walk {
    /// Number of the current link, counted from 0; the number of links at the end
    pub at: usize,
    /// Cursor in the file of the current link, once the file was opened
    pub cursor: Option<Cursor>,
    /// Index of the next subtitle, counted from 0, if the current link is a text
    pub next: usize,
    /// Number of frames of the track that were met, if the current link is a track
    pub frames: u64,
    /// Damage ended the reading of the current file, so that the links after it aren't read
    pub stopped: bool,
    /// Damaged places that were met, one item for each link
    pub told: Vec<Damages>,
    /// Greatest tick of the blocks up to now
    pub greatest: u64,
    /// Last block that was placed
    pub placed: Placed,
}

impl Walk {
    /// Returns the walk over `count` links at its start. `Lane::start` calls it. Allocates memory for the damaged
    /// places.
    pub fn start(alloc: Global, count: usize) -> Result<Walk, AllocError>
        ensures { IfOk result (Begins count) }
    {
        let mut told = Vec::with_capacity(alloc, count)?;
        for _link in 0..count {
            told.push(Damages::new(alloc)?)?;
        }
        Ok(Walk {
            at: 0,
            cursor: None,
            next: 0,
            frames: 0,
            stopped: false,
            told,
            greatest: 0,
            placed: Placed::nothing(),
        })
    }

    /// Leaves the current link: goes to the next one, or past all `count` links if damage ended the reading. A turn
    /// that reaches the end of a link calls it.
    pub fn leave(&mut self, count: usize)
        requires { self.old.at < count }
        ensures { self.new ≡ behind_link count self.old }
    {
        self.at = if self.stopped { count } else { self.at + 1 };
        self.cursor = None;
        self.next = 0;
        self.frames = 0;
        self.stopped = false;
    }
}
