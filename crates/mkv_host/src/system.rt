//! Calls of the system that examine and open files, for outputs and for edits in place.

ghost use Rattle.std.specs.Prelude.{◌≡◌, ◌↔◌, ℕ, ◌≤◌, pos, ◌<ℤ◌, IfOk, IsOk, IsTrue};
ghost use Rattle.std.specs.Fd.{file_raw_fd};
ghost use Rattle.std.specs.IoError.{error_kind};
ghost use Rattle.std.specs.Fs.{IsFile, file_type};
ghost use Rattle.mkv_host.specs.Folders.{folder_in};
ghost use Rattle.mkv_host.specs.Errors.{IsMissing};
ghost use Rattle.mkv_io.specs.declared.outside.TheConstants.{LONGEST_FILE};

use mkv_io::LONGEST_FILE;
use std::fs::{File, Metadata, OpenOptions};
use std::io::ErrorKind;
use std::os::fd::AsRawFd;
use std::os::unix::fs::{MetadataExt, OpenOptionsExt};
use std::path::Path;
use std::{fs, io};

/// Name in the file system of the file that is open as standard output.
const STANDARD_OUTPUT: &str = "/proc/self/fd/1";

/// Identity of a file of the system, whatever its name: its device and inode.
#[derive(Clone, Copy, Debug, PartialEq, Eq)]
pub struct Node {
    pub device: u64,
    pub inode: u64,
}

/// Checks whether `error` means that no file has the name, which is reported to the user as a missing file. The name is
/// free or too long, or its path leads through a file. `open_file` and `open_both` call it.
pub fn is_missing(error: &io::Error) -> bool
    ensures { IsTrue result ↔ IsMissing (error_kind error.now) }
{
    matches!(
        error.kind(),
        ErrorKind::NotFound | ErrorKind::NotADirectory | ErrorKind::InvalidFilename
    )
}

/// Returns the identity of the file `found`. Refuses a folder, pipe, socket, device or link, since these have no
/// length. Used wherever files of the system are compared.
pub fn node_of(found: &Metadata) -> io::Result<Node>
    ensures { IsOk result ↔ IsFile (file_type found.now) }
{
    if !found.is_file() {
        return Err(ErrorKind::InvalidInput.into());
    }
    Ok(Node {
        device: found.dev(),
        inode: found.ino(),
    })
}

/// Checks whether standard output is the file with the identity `node`. Such a file is neither edited nor an output.
/// Returns false if standard output isn't a regular file or can't be examined. `open_media` and `is_taken` call it.
pub fn is_standard_output<R: fs::Files<File = File>>(system: &R, node: Node) -> bool {
    match fs::metadata(system, STANDARD_OUTPUT) {
        Ok(found) => node_of(&found).is_ok_and(|output| output == node),
        Err(_) => false,
    }
}

/// Returns the folder that contains the file `name`, `.` if the name has none, for a sync or a temporary name in it.
/// `settle_folder` and `replaced_at` call it.
pub fn folder_of(name: &str) -> &str
    ensures { result.now ≡ folder_in name.now }
{
    match Path::new(name).parent() {
        Some(folder) if !folder.as_str().is_empty() => folder.as_str(),
        _ => ".",
    }
}

/// Returns `file` with a descriptor above 2, the last one of the standard streams. Every file is opened through it. If
/// one of them was closed, the system gives its number to the next file that is opened. Output to the stream would then
/// be written into that file. Used by `settle_folder`, `open_or_make` and others.
pub fn above_streams(file: File) -> io::Result<File>
    ensures { IfOk result (λ moved. pos 2 <ℤ file_raw_fd moved) }
{
    if file.as_raw_fd() > 2 {
        return Ok(file);
    }
    let moved = file.try_clone()?;
    if moved.as_raw_fd() <= 2 {
        return Err(ErrorKind::Other.into());
    }
    Ok(moved)
}

/// Opens the file `name`, which exists, to read and write it: an edited file, its journal, or an output. The file keeps
/// its bytes. Used by `open_media`, `open_existing` and others.
pub fn open_again<R: fs::Files<File = File>>(system: &R, name: &str) -> io::Result<File>
    ensures { IfOk result (λ file. pos 2 <ℤ file_raw_fd file) }
{
    let opened = OpenOptions::new().read(true).write(true).open(system, name);
    above_streams(opened?)
}

/// Creates the file `name`, a journal or a temporary file, which only its owner may read or write. Fails if the name is
/// taken. If the file is created, but can't be kept open, it is removed. Used by `open_sidecar` and `replaced_at`.
pub fn make_private<R: fs::Files<File = File>>(system: &R, name: &str) -> io::Result<File>
    ensures { IfOk result (λ file. pos 2 <ℤ file_raw_fd file) }
{
    let file = OpenOptions::new()
        .read(true)
        .write(true)
        .create_new(true)
        .mode(0o600)
        .open(system, name)?;
    let moved = above_streams(file);
    if moved.is_err() {
        let _ = fs::remove_file(system, name);
    }
    moved
}

/// Opens the regular file `name` to read it, and returns it with its length in bytes and its identity. `open_file`
/// calls it. Refuses a file longer than `LONGEST_FILE`. Anything but a regular file isn't opened, since that may wait
/// for ever.
pub fn open_to_read<R: fs::Files<File = File>>(
    system: &R,
    name: &str,
) -> io::Result<(File, u64, Node)>
    ensures size { IfOk result (λ answer. answer.1 ≤ LONGEST_FILE) }
    ensures above { IfOk result (λ answer. pos 2 <ℤ file_raw_fd answer.0) }
{
    node_of(&fs::metadata(system, name)?)?;
    let file = above_streams(File::open(system, name)?)?;
    let found = file.metadata()?;
    let size = found.len();
    if size > LONGEST_FILE {
        return Err(ErrorKind::FileTooLarge.into());
    }
    let node = node_of(&found)?;
    Ok((file, size, node))
}
