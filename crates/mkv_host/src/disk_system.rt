//! Calls of the system that open a file to edit it in place, and its journal (FILE.mkvedit).

ghost use Rattle.std.specs.Prelude.{◌≡◌, ◌↔◌, pos, ◌<ℤ◌, IfOk, IsTrue};
ghost use Rattle.std.specs.Fd.{file_raw_fd};
ghost use Rattle.mkv_host.specs.Errors.{IsUnsynced};

use crate::locks::lock;
use crate::pair::OpenFile;
use crate::sharing::share_new;
use crate::system::{
    Node, above_streams, folder_of, is_standard_output, make_private, node_of, open_again,
};
use mkv_io::{LONGEST_FILE, Text};
use std::fs::{File, Metadata};
use std::io::ErrorKind;
use std::os::unix::fs::MetadataExt;
use std::{fs, io};

/// Folder of this process in /proc; its owner is the user who runs the program.
const THIS_PROCESS: &str = "/proc/self";

/// Opens the regular file `name`, to be edited, for reading and writing, and locks it. `open_both` calls it first, for
/// `propedit`, `reindex` and `recover`. Returns the file and its metadata. Refuses a link, a file that another process
/// has locked, one that has lost the name meanwhile, and one that is open as standard output. Anything but a regular
/// file isn't opened, since that may wait for ever.
pub fn open_media<R: fs::Files<File = File>>(
    system: &R,
    name: Text,
) -> io::Result<(OpenFile, Metadata)>
    ensures { IfOk result (λ answer. answer.0.name ≡ name) }
{
    node_of(&fs::symlink_metadata(system, name.as_str())?)?;
    let file = open_again(system, name.as_str())?;
    lock(&file)?;
    let found = file.metadata()?;
    let node = node_of(&found)?;
    if !has_name(system, name.as_str(), node) || is_standard_output(system, node) {
        return Err(ErrorKind::ResourceBusy.into());
    }
    Ok((measured(file, name, &found)?, found))
}

/// Checks whether `name` isn't a link and is the file with the identity `node`. An edit in place checks this before it
/// writes. Call it after the file was opened: on an overlay, opening a file to write it makes it another file.
pub fn has_name<R: fs::Files<File = File>>(system: &R, name: &str, node: Node) -> bool {
    match fs::symlink_metadata(system, name) {
        Ok(found) => node_of(&found).is_ok_and(|named| named == node),
        Err(_) => false,
    }
}

/// Returns the open file `file` with its name `name` and its length in bytes, by `found`. Refuses a file longer than
/// `LONGEST_FILE`. The edited file and its journal are opened by it.
fn measured(file: File, name: Text, found: &Metadata) -> io::Result<OpenFile>
    requires { pos 2 <ℤ file_raw_fd file }
    ensures { IfOk result (λ opened. opened.name ≡ name) }
{
    let size = found.len();
    if size > LONGEST_FILE {
        return Err(ErrorKind::FileTooLarge.into());
    }
    Ok(OpenFile { file, name, size })
}

/// Opens the journal `name` of the edited file `media` to read and write it. `open_both` calls it after the edited file
/// is opened. If there is none, it makes an empty one with the owner and mode of `media` (`share_new`). An existing
/// journal must be a regular file with no other name. It must not be the edited file, nor a stranger's.
pub fn open_sidecar<R: fs::Files<File = File>>(
    system: &R,
    name: Text,
    media: &Metadata,
) -> io::Result<OpenFile>
    ensures { IfOk result (λ opened. opened.name ≡ name) }
{
    match make_private(system, name.as_str()) {
        Ok(file) => {
            share_new(&file, media)?;
            let found = file.metadata()?;
            measured(file, name, &found)
        }
        Err(error) if error.kind() == ErrorKind::AlreadyExists => {
            open_existing(system, name, media)
        }
        Err(error) => Err(error),
    }
}

/// Opens the journal `name` of the edited file `media`, which exists, for `open_sidecar`. Refuses a link, a file with
/// several names, the edited file, and a stranger's file.
fn open_existing<R: fs::Files<File = File>>(
    system: &R,
    name: Text,
    media: &Metadata,
) -> io::Result<OpenFile>
    ensures { IfOk result (λ opened. opened.name ≡ name) }
{
    only_name(&fs::symlink_metadata(system, name.as_str())?)?;
    let file = open_again(system, name.as_str())?;
    let found = file.metadata()?;
    let node = only_name(&found)?;
    if !has_name(system, name.as_str(), node) || node == node_of(media)? {
        return Err(ErrorKind::InvalidInput.into());
    }
    if is_strangers(system, &found, media) {
        return Err(ErrorKind::PermissionDenied.into());
    }
    measured(file, name, &found)
}

/// Checks whether neither the owner of the edited file `media` nor the user of this process owns the journal `sidecar`.
/// `open_existing` then refuses it. Whoever may write the folder may have made such a journal, and its record would be
/// written into the edited file.
fn is_strangers<R: fs::Files<File = File>>(
    system: &R,
    sidecar: &Metadata,
    media: &Metadata,
) -> bool {
    if sidecar.uid() == media.uid() {
        return false;
    }
    match fs::metadata(system, THIS_PROCESS) {
        Ok(process) => process.uid() != sidecar.uid(),
        Err(_) => true,
    }
}

/// Returns the identity of the file `found`, a journal. Refuses a file with several names. `open_existing` calls it
/// before and after it opens the journal.
fn only_name(found: &Metadata) -> io::Result<Node> {
    if found.nlink() != 1 {
        return Err(ErrorKind::InvalidInput.into());
    }
    node_of(found)
}

/// Syncs the folder of the file `name`, so that a crash can't take the name of a new journal. `open_both` calls it.
/// Ignores that a file system can't sync a folder.
pub fn settle_folder<R: fs::Files<File = File>>(system: &R, name: &str) -> io::Result<()> {
    match above_streams(File::open(system, folder_of(name))?)?.sync_all() {
        Err(error) if is_unsynced(error.kind()) => Ok(()),
        outcome => outcome,
    }
}

/// Checks whether an error of the kind `kind` means that the file system can't sync a folder. `settle_folder` ignores
/// it.
fn is_unsynced(kind: ErrorKind) -> bool
    ensures { IsTrue result ↔ IsUnsynced kind }
{
    matches!(kind, ErrorKind::InvalidInput | ErrorKind::Unsupported)
}
