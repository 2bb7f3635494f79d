//! Two files that are changed in place, and their possible contents after a crash.

ghost use Rattle.std.specs.Prelude.{◌≡◌, ◌↔◌, ℕ, ◌+◌, ◌<◌, ◌≤◌, Bool, true, false, List, length, Option, Some, None, OnOk, OnErr, IsErrOf, IsTrue};
ghost use Rattle.mkv_io.specs.Faults.{HasCause, is_failure, is_open_failure};
ghost use Rattle.mkv_disk.specs.Image.{written_at, cut_to, all_synced};
ghost use Rattle.mkv_disk.specs.Pair.{IsPairImage, OpensPair, Pair, ReachesTo, file_of, on};
ghost use Rattle.mkv_disk.specs.Moments.{ChangesOne, LeavesChanged, LeavesOnly};
ghost use Rattle.mkv_io.specs.Seen.{KeepsOtherCounts, ReadsNothing};
ghost use Rattle.mkv_io.specs.Sources.{file_size, live_files};

use mkv_io::{Failed, FileId, OpenFault, Reads};

/// File that is edited in place.
pub const MEDIA: FileId = FileId { n: 0 };

/// Journal beside it (FILE.mkvedit), which an edit is written to before it is made.
pub const SIDECAR: FileId = FileId { n: 1 };

/// A file that is edited in place, and its journal.
///
/// A write is safe only after a sync. Until then a crash may leave the file at any length that it had since its last
/// good sync. The ranges that were written may have any bytes. A call that fails has done any part of its work, so the
/// pair must be opened again before use.
///
/// The contents of a disk in memory are visible to the proof. The contents of a real disk aren't: its clauses only
/// promise counts, open files and lengths.
pub trait Disk: Reads {
    /// True if contents of this type of disk are visible to the proof.
    ghost told: { Bool };

    /// Contents of the file and its journal as reads return them, and as a crash may leave them now.
    ghost pair: { Self → Pair };

    /// Name of the file that was opened last, if one was.
    ghost opened: { Self → Option (List ℕ) };

    /// True for a name that has a file.
    ghost is_there: { Self → List ℕ → Bool };

    /// Current moment, as a number that doesn't fall.
    ghost moment: { Self → ℕ };

    /// Contents of the two files that a crash at any moment since the given one might have left, during a call or
    /// between calls.
    ghost left_since: { Self → ℕ → List ℕ → List ℕ → Type 0 };

    /// Number of calls that failed to write, truncate or sync.
    ghost writing_faults: { Self → ℕ };

    /// Opens the file `name` and its journal, `name` with `.mkvedit` appended. `propedit`, `reindex` and `recover`
    /// begin with it. Creates an empty journal if there is none.
    fn open_pair(&mut self, name: &str) -> Result<(), OpenFault>
        ensures missing { IsTrue told → IsErrOf result OpenFault.Missing ↔ (is_there self.old name.now ≡ false) }
        ensures opened { OnOk result (OpensPair Self.Reads opened self.new name.now) }
        ensures err { OnErr result (Self.standing self.new ≡ Self.standing self.old) }

        // Neither the contents change, nor the possible contents after a crash.
        ensures pair { IsTrue told → pair self.new ≡ pair self.old }
        ensures any_moment { IsTrue told → LeavesOnly moment left_since self.old self.new (IsPairImage (pair self.old)) }

        ensures cause { HasCause is_open_failure (Self.reading_faults self.old) (Self.reading_faults self.new) result }
        ensures counts { KeepsOtherCounts Self.Reads writing_faults self.old self.new };

    /// Writes `bytes` to `file`, the edited file or its journal, from the offset `at` on, over its bytes and past its
    /// end. An edit writes its journal and then the file so.
    fn write_at(&mut self, file: FileId, at: u64, bytes: &[u8]) -> Result<(), Failed>
        requires live { IsTrue ((Self.files (Self.standing self.old)).live file.n) }
        requires inside { IsTrue told → at ≤ length (file_of file.n (pair self.old)).reads }
        ensures ok { IsTrue told → OnOk result (pair self.new ≡ on file.n (written_at at bytes.now) (pair self.old)) }
        ensures any_moment { LeavesChanged told moment left_since pair self.old self.new file (written_at at bytes.now) }
        ensures size { OnOk result (ReachesTo Self.Reads self.old self.new file (at + length bytes.now)) }
        ensures others { ChangesOne (live_files Self.Reads self.old) (live_files Self.Reads self.new) file.n }

        ensures opened { opened self.new ≡ opened self.old }
        ensures cause { HasCause is_failure (writing_faults self.old) (writing_faults self.new) result }
        ensures unread { ReadsNothing Self.Reads self.old self.new };

    /// Truncates `file`, the edited file or its journal, to its first `len` bytes. An edit truncates its journal to one
    /// byte with it.
    fn cut(&mut self, file: FileId, len: u64) -> Result<(), Failed>
        requires live { IsTrue ((Self.files (Self.standing self.old)).live file.n) }
        requires inside { IsTrue told → len ≤ length (file_of file.n (pair self.old)).reads }
        ensures ok { IsTrue told → OnOk result (pair self.new ≡ on file.n (cut_to len) (pair self.old)) }
        ensures any_moment { LeavesChanged told moment left_since pair self.old self.new file (cut_to len) }
        ensures size { OnOk result (file_size Self.Reads self.new file ≡ len) }
        ensures others { ChangesOne (live_files Self.Reads self.old) (live_files Self.Reads self.new) file.n }

        ensures opened { opened self.new ≡ opened self.old }
        ensures cause { HasCause is_failure (writing_faults self.old) (writing_faults self.new) result }
        ensures unread { ReadsNothing Self.Reads self.old self.new };

    /// Syncs `file`: after Ok a crash leaves exactly the bytes that reads return. An edit does this between its steps.
    fn sync(&mut self, file: FileId) -> Result<(), Failed>
        requires { IsTrue ((Self.files (Self.standing self.old)).live file.n) }
        ensures ok { IsTrue told → OnOk result (pair self.new ≡ on file.n all_synced (pair self.old)) }
        ensures any_moment { IsTrue told → LeavesOnly moment left_since self.old self.new (IsPairImage (pair self.old)) }
        ensures size { OnOk result (file_size Self.Reads self.new file ≡ file_size Self.Reads self.old file) }
        ensures others { ChangesOne (live_files Self.Reads self.old) (live_files Self.Reads self.new) file.n }

        ensures opened { opened self.new ≡ opened self.old }
        ensures cause { HasCause is_failure (writing_faults self.old) (writing_faults self.new) result }
        ensures unread { ReadsNothing Self.Reads self.old self.new };

    /// A content that is visible to the proof is the content that reads return.
    ghost contents: { (x : Self) → IsTrue told → ((Self.Reads.files (Self.Reads.standing x)).content 0 ≡ Some (pair x).media.reads) × ((Self.Reads.files (Self.Reads.standing x)).content 1 ≡ Some (pair x).sidecar.reads) };

    /// The possible contents of the current moment are possible since any earlier one.
    ghost counts_now: { (x : Self) (t : ℕ) (m s : List ℕ) → IsTrue told → t ≤ moment x → IsPairImage (pair x) m s → left_since x t m s };

    /// Since the current moment no other contents are possible.
    ghost only_now: { (x : Self) (m s : List ℕ) → IsTrue told → left_since x (moment x) m s → IsPairImage (pair x) m s };

    // The pair, the moment, the possible contents after a crash, the name and the writing faults depend only on
    // `standing`, which reading doesn't change.
    ghost pair_stands: { (a b : Self) → Self.Reads.standing a ≡ Self.Reads.standing b → pair a ≡ pair b };

    ghost moment_stands: { (a b : Self) → Self.Reads.standing a ≡ Self.Reads.standing b → moment a ≡ moment b };

    ghost left_stands: { (a b : Self) (t : ℕ) (m s : List ℕ) → Self.Reads.standing a ≡ Self.Reads.standing b → left_since a t m s → left_since b t m s };

    ghost opened_stands: { (a b : Self) → Self.Reads.standing a ≡ Self.Reads.standing b → opened a ≡ opened b };

    ghost writing_stands: { (a b : Self) → Self.Reads.standing a ≡ Self.Reads.standing b → writing_faults a ≡ writing_faults b };
}
