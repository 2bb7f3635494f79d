//! The timestamp files of a merge (`--timestamps ID:FILE`)

ghost use Rattle.std.specs.Prelude.{◌≡◌, ◌++◌, ◌+◌, ◌≤◌, [], ◌∷◌, map, IfOk, OnOk};
ghost use Rattle.mkv_io.specs.Faults.{HasCause, is_read_fault};
ghost use Rattle.mkv_io.specs.Told.{IfVisible};
ghost use Rattle.sidecar_edit.specs.Pending.{LooksOnly};
ghost use Rattle.input_files.specs.TimesFile.{given_with, named_of, octets_with, size_with, times_files, times_named, times_names, times_octets};
ghost use Rattle.mkv_io.specs.Bounds.{ReadsByNames};
ghost use Rattle.mkv_io.specs.Writing.{IfByNames};

use crate::limits::{MAX_ALL_TIMES_LEN, MAX_TIMES_LEN};
use crate::reading::read_track_times;
use crate::refusal::{TextFileEnd, TextRefusal};
use ext_times::Times;
use mkv_io::{Files, List, OpenFault, ReadEnd, Text};
use requests::FileWords;
use std::alloc::{AllocError, Global};

/// Timestamp file that an option of an input names
#[derive(Debug, Drop)]
pub struct TimesName {
    /// Index of its input, counted from 0 in the order of the command line
    pub input: usize,
    /// Index of its track in Tracks, counted from 0
    pub id: u64,
    pub name: Text,
}

/// Result of reading a timestamp file
#[derive(Debug, Drop)]
pub enum TimesGiven {
    /// No file has its name
    Missing,
    /// Refused
    Refused(TextRefusal),
    /// Times of frames, in nanoseconds
    Read(Times),
}

/// Timestamp file that an option names, and the result of reading it
#[derive(Debug, Drop)]
pub struct TimesFile {
    pub named: TimesName,
    pub given: TimesGiven,
}

// Appends to `named` the timestamp files of the input with the index `input`, from 0. `times` has the index of a track
// and a file name for each. For `times_named`, when `merge` reads its timestamp files.
fn add_named(
    input: usize,
    times: &[(u64, Text)],
    named: &mut List<TimesName>,
) -> Result<(), AllocError>
    ensures { OnOk result (named.new ≡ named.old ++ map (named_of input) times.now) }
{
    for (id, name) in times {
        named.push(TimesName {
            input,
            id: *id,
            name: name.clone()?,
        })?;
    }
    Ok(())
}

/// Returns the timestamp files that the inputs `words` name, in the order of the inputs. For the list of names that no
/// output may have, and for `read_times_files`.
pub fn times_named(alloc: Global, words: &[FileWords]) -> Result<List<TimesName>, AllocError>
    ensures { IfOk result (λ named. named ≡ times_named words.now) }
{
    let mut named = List::new(alloc);
    for (input, file) in words.iter().enumerate() {
        add_named(input, file.times.as_slice(), &mut named)?;
    }
    Ok(named)
}

/// Result of reading a timestamp file, and the length of the file in bytes
#[derive(Drop)]
struct ReadTimes {
    given: TimesGiven,
    size: u64,
}

// Opens the timestamp file `name`, reads it whole and closes it, if it has at most `room` bytes. A missing or refused
// file is a result, not an error. For `read_times_files`, when `merge` reads its timestamp files.
fn read_named<F: Files>(
    alloc: Global,
    name: &str,
    room: u64,
    files: &mut F,
) -> Result<ReadTimes, ReadEnd>
    ensures exact { IfByNames F.Files.own files.old result (λ world found. found.given ≡ given_with room (world name.now)) }
    ensures size { IfByNames F.Files.own files.old result (λ world found. found.size ≡ size_with (world name.now)) }
    ensures looks { LooksOnly F.Reads F.Files.own (name.now ∷ []) files.old files.new }
    ensures cause { HasCause is_read_fault (F.reading_faults files.old) (F.reading_faults files.new) result }
    ensures octets { ReadsByNames F.Reads F.Files.own files.old files.new (λ world. octets_with (world name.now)) }
{
    let file = match files.open_file(name) {
        Ok(file) => file,
        Err(OpenFault::Missing) => {
            let given = TimesGiven::Missing;
            return Ok(ReadTimes { given, size: 0 });
        }
        Err(OpenFault::Failed) => return Err(ReadEnd::ReadFault),
        Err(OpenFault::Memory) => return Err(ReadEnd::Memory),
    };
    let size = files.size(file);
    let read = read_track_times(alloc, files, file, room.min(MAX_TIMES_LEN));
    files.close(file);
    let given = match read {
        Ok(times) => TimesGiven::Read(times),
        Err(TextFileEnd::Refused(why)) => TimesGiven::Refused(why),
        Err(TextFileEnd::ReadFault) => return Err(ReadEnd::ReadFault),
        Err(TextFileEnd::Memory) => return Err(ReadEnd::Memory),
    };
    Ok(ReadTimes { given, size })
}

/// Reads the timestamp files that the inputs `words` name, in the order of the inputs. Each is looked for and read,
/// even if an earlier one is refused. Together they may have 64 MiB. A file that can't be opened or read is a
/// `ReadFault`. `read_text_files` calls it after the chapter file.
pub fn read_times_files<F: Files>(
    alloc: Global,
    words: &[FileWords],
    files: &mut F,
) -> Result<List<TimesFile>, ReadEnd>
    ensures exact { IfByNames F.Files.own files.old result (λ world list. list ≡ times_files world words.now) }
    ensures looks { LooksOnly F.Reads F.Files.own (times_names (times_named words.now)) files.old files.new }
    ensures cause { HasCause is_read_fault (F.reading_faults files.old) (F.reading_faults files.new) result }
    ensures octets { ReadsByNames F.Reads F.Files.own files.old files.new (λ world. times_octets world words.now) }
{
    let named = times_named(alloc, words)?;
    let mut list = List::new(alloc);
    let mut room = MAX_ALL_TIMES_LEN;
    for named in named.into_vec() {
        let found = read_named(alloc, named.name.as_str(), room, files)?;
        room = room.saturating_sub(found.size);
        let given = found.given;
        list.push(TimesFile { named, given })?;
    }
    Ok(list)
}
