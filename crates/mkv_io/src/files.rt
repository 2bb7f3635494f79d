//! Files that are opened by name, made, and written.

ghost use Rattle.std.specs.Prelude.{◌≡◌, ◌⊎◌, ◌↔◌, ℕ, ◌+◌, ◌<◌, ◌≤◌, Bool, true, false, List, length, Option, Some, None, is_some, OnOk, OnErr, IfOk, IsErrOf, IsTrue};
ghost use Rattle.mkv_io.specs.Asked.{AsksFor};
ghost use Rattle.mkv_io.specs.declared.asked.Asked.{Asked};
ghost use Rattle.mkv_io.specs.declared.asked.Asked.TheVariants.{Opened, Made};
ghost use Rattle.mkv_io.specs.Faults.{HasCause, is_failure, is_make_failure, is_open_failure, last_count};
ghost use Rattle.mkv_io.specs.Names.{Names};
ghost use Rattle.mkv_io.specs.Seen.{AddsOctets, AddsFirst, IsMadeFile, IsOpenedFile, LeavesUnmade, Puts, PutsSome, ReadsNothing, StaysAtClosing, StaysAtMaking, StaysAtOpening, StaysAtWriting};
ghost use Rattle.mkv_io.specs.Sources.{IsLive, file_size, live_files};
ghost use Rattle.mkv_io.specs.Told.{IfVisible};
ghost use Rattle.mkv_io.specs.declared.outside.TheConstants.{LONGEST_FILE};

use crate::outside::{Failed, FileId, MakeFault, OpenFault};
use crate::reads::Reads;

/// Files with names. Each name has a content or none. A live file was opened under a name and isn't closed yet, and its
/// content is that name's content.
pub trait Files: Reads {
    /// Content of each name, if it is visible to the proof.
    ghost names: { Self → Names };

    /// Name that each live file was opened under.
    ghost holder: { Self → ℕ → List ℕ };

    /// Bound of the file numbers: each smaller number was given to a file or passed over, and no number is given
    /// twice.
    ghost given: { Self → ℕ };

    /// Number of calls that failed to create or write a file.
    ghost writing_faults: { Self → ℕ };

    /// Names that files were opened or created under, in order. The name of a `create` that failed may be among them.
    ghost asked: { Self → List Asked };

    /// Opens the file `name` to read it, and returns its number. `merge`, `extract` and `info` open their inputs with
    /// it; `name` is then among the asked names.
    fn open_file(&mut self, name: &str) -> Result<FileId, OpenFault>
        ensures missing { IfVisible (names self.old) (λ world. IsErrOf result OpenFault.Missing ↔ (world name.now ≡ None)) }
        ensures opened { IfOk result (IsOpenedFile Self.Reads names holder given self.old self.new name.now) }

        // No file is opened after the last number was given.
        ensures full { given self.old ≡ last_count → IsErrOf result OpenFault.Missing ⊎ IsErrOf result OpenFault.Failed }

        // A refusal leaves everything as it was, except the count of faults.
        ensures err { OnErr result (Self.standing self.new ≡ Self.standing self.old) }
        ensures stays { StaysAtOpening Self.Reads names holder given writing_faults self.old self.new }

        ensures cause { HasCause is_open_failure (Self.reading_faults self.old) (Self.reading_faults self.new) result }
        ensures asks { AsksFor (Opened name.now) (asked self.old) (asked self.new) result };

    /// Creates the file `name` with an empty content, whatever it had before, and opens it. Used for each output of a
    /// command. After a refusal its content is as before, or empty.
    fn create(&mut self, name: &str) -> Result<FileId, MakeFault>
        ensures made { IfOk result (IsMadeFile Self.Reads names holder given self.old self.new name.now) }

        // No file is made after the last number was given.
        ensures full { given self.old ≡ last_count → IsErrOf result MakeFault.Failed }

        ensures refused { LeavesUnmade Self.Reads names self.old self.new name.now result }
        ensures stays { StaysAtMaking Self.Reads holder given self.old self.new name.now }

        ensures asks { AsksFor (Made name.now) (asked self.old) (asked self.new) result }
        ensures cause { HasCause is_make_failure (writing_faults self.old) (writing_faults self.new) result }
        ensures unread { ReadsNothing Self.Reads self.old self.new };

    /// Appends `bytes` to the live file `file`, an output that is being written. After `Failed` the file may have
    /// gained a prefix of `bytes`.
    fn append(&mut self, file: FileId, bytes: &[u8]) -> Result<(), MakeFault>
        requires { IsLive Self.Reads self.old file }
        ensures ok { OnOk result (AddsOctets Self.Reads names holder self.old self.new file bytes.now) }
        ensures failed { IsErrOf result MakeFault.Failed → AddsFirst Self.Reads names holder self.old self.new file bytes.now }
        ensures memory { IsErrOf result MakeFault.Memory → Self.standing self.new ≡ Self.standing self.old }

        // No file grows past 2^48 bytes.
        ensures short { LONGEST_FILE < file_size Self.Reads self.old file + length bytes.now → IsErrOf result MakeFault.Failed }

        ensures stays { StaysAtWriting Self.Reads holder given asked self.old self.new file }
        ensures cause { HasCause is_make_failure (writing_faults self.old) (writing_faults self.new) result }
        ensures unread { ReadsNothing Self.Reads self.old self.new };

    /// Writes `bytes` over the same number of bytes of the live file `file`, from the offset `at`. `merge` does this
    /// for the Duration, the SeekHead and the Segment's size, when the rest of an output is written. After `Failed` the
    /// bytes of this range may be anything.
    fn overwrite(&mut self, file: FileId, at: u64, bytes: &[u8]) -> Result<(), Failed>
        requires live { IsLive Self.Reads self.old file }
        requires range { at + length bytes.now ≤ file_size Self.Reads self.old file }
        ensures ok { OnOk result (Puts Self.Reads names holder self.old self.new file at bytes.now) }
        ensures err { OnErr result (PutsSome Self.Reads names holder self.old self.new file at bytes.now) }

        ensures stays { StaysAtWriting Self.Reads holder given asked self.old self.new file }
        ensures cause { HasCause is_failure (writing_faults self.old) (writing_faults self.new) result }
        ensures unread { ReadsNothing Self.Reads self.old self.new };

    /// Closes the live file `file`, when a command has read or written it. The content of its name stays.
    fn close(&mut self, file: FileId)
        requires { IsLive Self.Reads self.old file }
        ensures ended { (live_files Self.Reads self.new).live file.n ≡ false }
        ensures stays { StaysAtClosing Self.Reads names holder given writing_faults asked self.old self.new file }
        ensures unread { ReadsNothing Self.Reads self.old self.new };

    /// If the names are visible to the proof, a live file's content is the content of the name under which it was
    /// opened.
    ghost named: { (x : Self) (file : ℕ) → (Self.Reads.files (Self.Reads.standing x)).live file ≡ true → IfVisible (names x) (λ world. (Self.Reads.files (Self.Reads.standing x)).content file ≡ world (holder x file)) };

    /// If the names are visible to the proof, the name of a live file has a content.
    ghost there: { (x : Self) (file : ℕ) → (Self.Reads.files (Self.Reads.standing x)).live file ≡ true → IfVisible (names x) (λ world. is_some (world (holder x file)) ≡ true) };

    /// A live file's number was given before.
    ghost numbered: { (x : Self) (file : ℕ) → (Self.Reads.files (Self.Reads.standing x)).live file ≡ true → file < given x };

    /// No number past the last one is ever given.
    ghost last: { (x : Self) → given x ≤ last_count };

    // Names, holders, numbers, writing faults and asked names depend only on `standing`, which reading doesn't
    // change.
    ghost names_stand: { (a b : Self) → Self.Reads.standing a ≡ Self.Reads.standing b → names a ≡ names b };

    ghost holders_stand: { (a b : Self) → Self.Reads.standing a ≡ Self.Reads.standing b → (file : ℕ) → holder a file ≡ holder b file };

    ghost given_stands: { (a b : Self) → Self.Reads.standing a ≡ Self.Reads.standing b → given a ≡ given b };

    ghost writing_stands: { (a b : Self) → Self.Reads.standing a ≡ Self.Reads.standing b → writing_faults a ≡ writing_faults b };

    ghost asked_stands: { (a b : Self) → Self.Reads.standing a ≡ Self.Reads.standing b → asked a ≡ asked b };
}
