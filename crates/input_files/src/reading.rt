//! Text files, read whole by one call

ghost use Rattle.std.specs.Prelude.{◌≡◌, ◌↔◌, ◌+◌, ◌<◌, ◌≤◌, length, IfOk, IsErrOf};
ghost use Rattle.mkv_schema.specs.declared.ids.TheConstants.{CHAPTERS};
ghost use Rattle.mkv_io.specs.Faults.{HasCause, counted};
ghost use Rattle.mkv_io.specs.Sources.{IfTold, IsLive, OnlyReads, file_size};
ghost use Rattle.ebml_tree.specs.Building.{IsRead};
ghost use Rattle.text_formats.specs.Reading.{AreWithin};
ghost use Rattle.ext_times.specs.Listing.{listing};
ghost use Rattle.input_files.specs.TextFile.{ReadsText, chapter_text, is_text_fault, octets_within, srt_text, text_file, too_large};
ghost use Rattle.mkv_io.specs.Bounds.{ReadsOf};

use crate::limits::{MAX_CHAPTERS_LEN, MAX_SRT_LEN};
use crate::refusal::{TextFileEnd, TextRefusal};
use ebml_tree::Tree;
use ext_times::{Times, read_times};
use mkv_io::{Bytes, FileId, List, Reads};
use srt_chapters::{Entry, read_simple, read_srt};
use std::alloc::Global;

/// Reads the whole content of the text file `file` by one call. A file of more than `most` bytes is refused as too
/// large, and nothing is read. For the readers of SubRip, chapter and timestamp files.
fn read_whole<R: Reads>(
    alloc: Global,
    src: &mut R,
    file: FileId,
    most: u64,
) -> Result<Bytes, TextFileEnd>
    requires { IsLive R.Reads src.old file }
    ensures ok { IfOk result (λ octets. IfTold R.Reads src.old file (λ bytes. octets ≡ bytes)) }
    ensures length { IfOk result (λ octets. (length octets ≡ file_size R.Reads src.old file) × (length octets ≤ most)) }
    ensures large { IsErrOf result too_large ↔ (most < file_size R.Reads src.old file) }
    ensures refused { (why : TextRefusal) → IsErrOf result (TextFileEnd.Refused why) → why ≡ TextRefusal.TooLarge }
    ensures only { OnlyReads R.Reads src.old src.new }
    ensures cause { HasCause is_text_fault (R.reading_faults src.old) (R.reading_faults src.new) result }
    ensures octets { ReadsOf R.Reads src.old src.new file (octets_within most) }
{
    let size = src.size(file);
    if size > most {
        return Err(TextFileEnd::Refused(TextRefusal::TooLarge));
    }
    let mut octets = vec![in alloc; 0; size as usize]?;
    let Ok(()) = src.read_at(file, 0, &mut octets) else {
        return Err(TextFileEnd::ReadFault);
    };
    Ok(Bytes::from_vec(octets))
}

/// Reads the entries of the SubRip file `file`, sorted by start, or returns the refusal. It reads the file by one call,
/// unless the file is too large. `merge` calls it for each input that is SubRip.
pub fn read_entries<R: Reads>(
    alloc: Global,
    src: &mut R,
    file: FileId,
) -> Result<List<Entry>, TextFileEnd>
    requires { IsLive R.Reads src.old file }
    ensures exact { IfTold R.Reads src.old file (λ bytes. ReadsText (srt_text bytes) result) }

    // The size decides `TooLarge`, even if the file isn't visible to the proof, and the entries are within an output
    // track's limits.
    ensures large { IsErrOf result too_large ↔ (MAX_SRT_LEN < file_size R.Reads src.old file) }
    ensures within { IfOk result (AreWithin MAX_SRT_LEN) }
    ensures only { OnlyReads R.Reads src.old src.new }
    ensures cause { HasCause is_text_fault (R.reading_faults src.old) (R.reading_faults src.new) result }
    ensures octets { ReadsOf R.Reads src.old src.new file (octets_within MAX_SRT_LEN) }
{
    let octets = read_whole(alloc, src, file, MAX_SRT_LEN)?;
    Ok(read_srt(alloc, octets.as_slice())?)
}

/// Reads the Chapters that `file`, a file of OGM simple chapters, describes, or returns the refusal. Every identifier
/// is 0. It reads the file by one call, unless the file is too large. For the option `--chapters` of `merge`.
pub fn read_chapters<R: Reads>(
    alloc: Global,
    src: &mut R,
    file: FileId,
) -> Result<Tree, TextFileEnd>
    requires { IsLive R.Reads src.old file }
    ensures exact { IfTold R.Reads src.old file (λ bytes. ReadsText (chapter_text bytes) result) }

    // The size decides `TooLarge`, even if the file isn't visible to the proof, and the Chapters can be written.
    ensures large { IsErrOf result too_large ↔ (MAX_CHAPTERS_LEN < file_size R.Reads src.old file) }
    ensures read { IfOk result (IsRead CHAPTERS) }
    ensures only { OnlyReads R.Reads src.old src.new }
    ensures cause { HasCause is_text_fault (R.reading_faults src.old) (R.reading_faults src.new) result }
    ensures octets { ReadsOf R.Reads src.old src.new file (octets_within MAX_CHAPTERS_LEN) }
{
    let octets = read_whole(alloc, src, file, MAX_CHAPTERS_LEN)?;
    Ok(read_simple(alloc, octets.as_slice())?)
}

/// Reads the frame times, in nanoseconds, in the timestamp file `file`, of at most `most` bytes, or returns the
/// refusal. It reads the file by one call, unless the file is too large. For the option `--timestamps` of `merge`.
pub fn read_track_times<R: Reads>(
    alloc: Global,
    src: &mut R,
    file: FileId,
    most: u64,
) -> Result<Times, TextFileEnd>
    requires { IsLive R.Reads src.old file }
    ensures exact { IfTold R.Reads src.old file (λ bytes. ReadsText (text_file most listing bytes) result) }
    ensures only { OnlyReads R.Reads src.old src.new }
    ensures cause { HasCause is_text_fault (R.reading_faults src.old) (R.reading_faults src.new) result }
    ensures octets { ReadsOf R.Reads src.old src.new file (octets_within most) }
{
    let octets = read_whole(alloc, src, file, most)?;
    Ok(read_times(alloc, octets.as_slice())?)
}
