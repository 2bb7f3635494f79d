//! Read-ahead of a file for walks over its Elements.

ghost use Rattle.std.specs.Prelude.{◌≡◌, ℕ, ◌*◌, ◌≤◌, IfOk};
ghost use Rattle.mkv_io.specs.Faults.{HasCause, is_failure};
ghost use Rattle.mkv_io.specs.Sources.{IfTold, IsLive, OnlyReads, file_size};
ghost use Rattle.mkv_schema.specs.Element.{element_at};
ghost use Rattle.elements.specs.Parent.{setting_of};
ghost use Rattle.elements.specs.Looks.{FindsAt, Goes, IsFound, Looks, LooksThrough};
ghost use Rattle.elements.specs.Window.{ReadAhead, Holds, header_room};

use crate::parent::Parent;
use mkv_io::{Damage, Failed, FileId, Reads};
use mkv_schema::Header;

/// Read-ahead of one file: a buffer of bytes that are read at once, so that its Elements are looked up there.
pub trait Lookahead {
    /// Bytes of the file that are held.
    ghost ahead: { Self → ReadAhead };

    /// Number of bytes that can be held.
    ghost room: { ℕ };

    /// Returns the header of the Element at the offset `at` of `file`, in a parent that ends at the offset `end`. The
    /// inner error is its damage. Bytes that are held aren't read again. After a failed read nothing is held. Walks
    /// over Elements look up each header so.
    fn element<R: Reads>(
        &mut self,
        src: &mut R,
        file: FileId,
        parent: Parent,
        at: u64,
        end: u64,
    ) -> Result<Result<Header, Damage>, Failed>
        requires live { IsLive R.Reads src.old file }
        requires place { at ≤ end }
        requires inside { end ≤ file_size R.Reads src.old file }
        requires holds { IfTold R.Reads src.old file (λ bytes. Holds bytes (ahead self.old)) }
        ensures ok { FindsAt R.Reads src.old file (setting_of parent) at end result }
        ensures placed { IfOk result (λ found. IfOk found (IsFound (setting_of parent) at end)) }
        ensures looks { LooksThrough R.Reads ahead file room at (header_room at end) self.old self.new src.old src.new result }
        ensures holds { IfTold R.Reads src.old file (λ bytes. Holds bytes (ahead self.new)) }
        ensures same { OnlyReads R.Reads src.old src.new }
        ensures cause { HasCause is_failure (R.reading_faults src.old) (R.reading_faults src.new) result }
        ensures goes { Goes R.Reads file at (λ _. at) (ahead self.old) (ahead self.new) src.old src.new result };
}
