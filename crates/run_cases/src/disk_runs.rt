//! Runs over a disk in memory whose calls fail, one of them or all from one on, and their recovery.

ghost use Rattle.std.specs.Prelude.{IfOk};
ghost use Rattle.mkv_disk.specs.Pair.{IsSynced};
ghost use Rattle.mkv_memory.specs.DiskIn.{seen};
ghost use Rattle.mkv_memory.specs.SeenDisk.{pair_in};

use crate::fault::Fault;
use crate::reading::Reading;
use crate::runs::{has_ended, run_over};
use mkv_disk::{Disk, MEDIA};
use mkv_io::{LONGEST_FILE, Reads};
use mkv_lines::Status;
use mkv_memory::{MemDisk, MemFiles};
use std::alloc::Global;

/// Number of crash images that are tried of each disk; the number of an image is its pick.
const PICKS: u64 = 6;

/// Number of calls that fail in turn; a run must have ended by itself before that.
const CALLS: u64 = 200;

/// Least number of calls whose failure must stop a run, so that a case doesn't pass without a test.
const STOPS: u64 = 11;

/// Returns a disk in memory whose edited file and journal have the bytes of the parts `film` and `journal` of the case
/// `reading`. Its call number `call`, from 0, fails, and all later ones if `stops`. Used by `ends`.
fn failing_disk(alloc: Global, reading: &Reading, call: u64, stops: bool) -> Result<MemDisk, Fault>
    ensures { IfOk result (λ disk. IsSynced (pair_in (seen disk))) }
{
    let (film, journal) = (reading.octets("film"), reading.octets("journal"));
    if film.len() as u64 > LONGEST_FILE || journal.len() as u64 > LONGEST_FILE {
        return Err(Fault::Unread);
    }
    let mut disk = MemDisk::new(alloc, film, journal, 100, 4096)?;
    if stops {
        disk.stop_at(call);
    } else {
        disk.fail_at(call)?;
    }
    Ok(disk)
}

/// Returns the command line `recover out.mkv`. Used by `check`.
fn recover_words(alloc: Global) -> Result<Vec<String>, Fault> {
    let mut words = Vec::new(alloc);
    words.push("recover".to_string(alloc)?)?;
    words.push("out.mkv".to_string(alloc)?)?;
    Ok(words)
}

/// Returns the bytes of the edited file on `disk`, for the comparison with the expected ones. Used by `is_recovered`.
fn film_on(alloc: Global, mut disk: MemDisk) -> Result<Vec<u8>, Fault> {
    if disk.open_pair("").is_err() {
        return Err(Fault::Memory);
    }
    let mut octets = vec![in alloc; 0; disk.size(MEDIA) as usize]?;
    match disk.read_at(MEDIA, 0, &mut octets) {
        Ok(()) => Ok(octets),
        Err(_) => Err(Fault::Memory),
    }
}

/// Edit that is stopped and recovered. `reading` has its command line and the bytes to begin with; `recover` is the
/// command line that recovers.
#[derive(Drop)]
struct Edit<'a> {
    alloc: Global,
    reading: &'a Reading,
    recover: Vec<String>,
}

impl Edit<'_> {
    /// Runs `recover` on `disk`, and checks whether it completes the edit: the file has the bytes of the part `edited`.
    /// If not `ended`, the file may also have the bytes of the part `unedited`. Used by `are_recovered`.
    fn is_recovered(&self, mut disk: MemDisk, ended: bool) -> Result<bool, Fault>
        requires { IsSynced (pair_in (seen disk)) }
    {
        let mut files = MemFiles::new(self.alloc)?;
        let (status, _) = run_over(self.alloc, &self.recover, &mut files, &mut disk)?;
        let film = film_on(self.alloc, disk)?;
        let is_edited = film.as_slice() == self.reading.octets("edited");
        let may_stay = !ended && film.as_slice() == self.reading.octets("unedited");
        Ok(status == Status::Done && (is_edited || may_stay))
    }

    /// Checks whether `recover` repairs the images that a crash may leave of `disk`: one for each number below `PICKS`,
    /// by which `crashed` chooses. If `ended`, the run ended as if no call failed, and each image must be the edited
    /// one. Used by `ends`.
    fn are_recovered(&self, disk: &MemDisk, ended: bool) -> Result<bool, Fault> {
        for pick in 0..PICKS {
            if !self.is_recovered(disk.crashed(self.alloc, pick)?, ended)? {
                return Ok(false);
            }
        }
        Ok(true)
    }

    /// Runs the command while the call number `call`, from 0, fails, and all later ones if `stops`. Fails unless the
    /// disk can be recovered. Returns true if it ended as if no call failed, and false if it was stopped. Used by
    /// `check`.
    fn ends(&self, call: u64, stops: bool) -> Result<bool, Fault> {
        let mut files = MemFiles::new(self.alloc)?;
        let mut disk = failing_disk(self.alloc, self.reading, call, stops)?;
        let (status, report) = run_over(self.alloc, &self.reading.words, &mut files, &mut disk)?;
        let said = self.reading.said.as_str();
        let ended = has_ended(status, &report, said, "fault: disk", call)?;
        Fault::unless(self.are_recovered(&disk, ended)?, "not recovered", call)?;
        Ok(ended)
    }
}

/// Runs `disk fails`, or `disk stops` if `stops`, for the case `reading`, a line of the test program's input: makes
/// each call fail in turn, and all later ones if `stops`. At least `STOPS` calls must stop the run.
pub fn check(alloc: Global, reading: &Reading, stops: bool) -> Result<String, Fault> {
    let recover = recover_words(alloc)?;
    let edit = Edit {
        alloc,
        reading,
        recover,
    };
    for call in 0..CALLS {
        if edit.ends(call, stops)? {
            Fault::unless(call >= STOPS, "too early an end", call)?;
            return Ok(" holds".to_string(alloc)?);
        }
    }
    Err(Fault::Differs {
        what: "no end",
        call: CALLS,
    })
}
