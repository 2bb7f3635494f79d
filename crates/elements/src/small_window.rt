//! A window that takes no memory.

ghost use Rattle.std.specs.Prelude.{◌≡◌};
ghost use Rattle.elements.specs.Window.{nothing_at};

use crate::LITTLE;
use crate::buffered::BufferedRange;
use crate::lookahead::Lookahead;
use crate::parent::Parent;
use mkv_io::{Damage, Failed, FileId, Reads};
use mkv_schema::Header;
use std::marker::Model;

/// Window of 1,024 bytes of one file, enough for a few headers.
#[derive(Drop)]
pub struct SmallWindow {
    buffer: [u8; LITTLE],
    held: BufferedRange,
}

impl Model for SmallWindow {
    ghost use Rattle.std.specs.Prelude.{◌≤◌};
    ghost use Rattle.elements.specs.Window.{ReadAhead};
    ghost use Rattle.elements.specs.Held.{held_in};
    ghost use Rattle.elements.specs.declared.TheConstants.{LITTLE};

    ghost Value = { ReadAhead };

    ghost view = { λ w. held_in w.held w.buffer };

    ghost invariant = { λ w. w.held.len ≤ LITTLE };
}

impl SmallWindow {
    /// Returns an empty window. The walk over level 1 of `reindex` has one.
    pub fn new() -> SmallWindow
        ensures { result ≡ nothing_at 0 }
    {
        SmallWindow {
            buffer: [0; LITTLE],
            held: BufferedRange { at: 0, len: 0 },
        }
    }

    /// Empties the window, so that the next look-up reads the file. The walk over level 1 calls it after a failed read.
    pub fn forget(&mut self)
        ensures { self.new ≡ nothing_at 0 }
    {
        self.held = BufferedRange { at: 0, len: 0 };
    }
}

impl Lookahead for SmallWindow {
    ghost use Rattle.elements.specs.declared.TheConstants.{LITTLE};

    ghost ahead = { λ w. w };

    ghost room = { LITTLE };

    // Returns the header of the Element at the offset `at` of `file`, in a parent that ends at the offset `end`, read
    // through the window. The inner error is its damage. Walks over Elements look up each header so.
    fn element<R: Reads>(
        &mut self,
        src: &mut R,
        file: FileId,
        parent: Parent,
        at: u64,
        end: u64,
    ) -> Result<Result<Header, Damage>, Failed> {
        let buffer = &mut self.buffer;
        self.held.element(buffer, src, file, parent, at, end)
    }
}
