//! Calls of the system that create or replace outputs.

ghost use Rattle.std.specs.Prelude.{◌≡◌, ◌↔◌, pos, ◌<ℤ◌, true, IfOk, IsTrue};
ghost use Rattle.std.specs.Fd.{file_raw_fd};
ghost use Rattle.mkv_host.specs.Errors.{IsIrreplaceable};

use crate::locks::{own, share};
use crate::system::{Node, above_streams, folder_of, make_private, node_of, open_again};
use std::alloc::Global;
use std::fs::{File, Metadata, OpenOptions, Permissions};
use std::io::ErrorKind;
use std::os::unix::fs::{MetadataExt, PermissionsExt, fchown};
use std::{fs, io};

/// Number of temporary names that are tried for a file that replaces another.
const MAX_TRIES: u32 = 100;

/// Output file, its identity, and whether this run has created it.
#[derive(Drop)]
pub struct Output {
    pub file: File,
    pub node: Node,
    pub is_new: bool,
    ghost above: { pos 2 <ℤ file_raw_fd file },
}

/// Returns the identity of the regular file `name`, or None if no file has this name. Anything but a regular file is
/// refused. `make` calls it before it opens an output.
pub fn node_at<R: fs::Files<File = File>>(system: &R, name: &str) -> io::Result<Option<Node>> {
    match fs::metadata(system, name) {
        Ok(found) => Ok(Some(node_of(&found)?)),
        Err(error) if error.kind() == ErrorKind::NotFound => Ok(None),
        Err(error) => Err(error),
    }
}

/// Opens the file `name` to read and write it if `is_there`, or else creates it, for `make`. Also returns whether it is
/// certainly new. An existing file keeps its bytes.
pub fn open_or_make<R: fs::Files<File = File>>(
    system: &R,
    name: &str,
    is_there: bool,
) -> io::Result<(File, bool)>
    ensures { IfOk result (λ answer. pos 2 <ℤ file_raw_fd answer.0) }
{
    if is_there {
        return Ok((open_again(system, name)?, false));
    }
    let (file, is_new) = make_new(system, name)?;
    Ok((above_streams(file)?, is_new))
}

/// Creates the file `name`, and returns whether it is certainly new, for `open_or_make`. If `name` is a link to a
/// missing file, that file is created.
fn make_new<R: fs::Files<File = File>>(system: &R, name: &str) -> io::Result<(File, bool)> {
    match File::create_new(system, name) {
        Ok(file) => Ok((file, true)),
        Err(error) if error.kind() == ErrorKind::AlreadyExists => {
            let file = OpenOptions::new()
                .read(true)
                .write(true)
                .create(true)
                .open(system, name)?;
            Ok((file, false))
        }
        Err(error) => Err(error),
    }
}

/// Replaces the regular file `name` by a new, empty file with the mode and owner of `was`. `make` does this for an
/// output whose name is taken. Other names of the old file keep its bytes, and it isn't flushed when it is closed. A
/// link is followed to its file. If this fails, the old file is unchanged.
pub fn replaced<R: fs::Files<File = File>>(
    alloc: Global,
    system: &R,
    name: &str,
    was: &Metadata,
) -> io::Result<Output>
    ensures { IfOk result (λ made. made.is_new ≡ true) }
{
    if !fs::symlink_metadata(system, name)?.is_symlink() {
        return replaced_at(alloc, system, name, was);
    }
    let place = system.canonicalize(alloc, name)?;
    replaced_at(alloc, system, place.as_str(), was)
}

/// Replaces the regular file `place`, which isn't a link, by a new, empty file with the mode and owner of `was`, for
/// `replaced`. The new file first gets a temporary name in the same folder. It tries 100 names.
fn replaced_at<R: fs::Files<File = File>>(
    alloc: Global,
    system: &R,
    place: &str,
    was: &Metadata,
) -> io::Result<Output>
    ensures { IfOk result (λ made. made.is_new ≡ true) }
{
    if node_of(&fs::symlink_metadata(system, place)?)? != node_of(was)? {
        // Another file has the name by now.
        return Err(ErrorKind::Other.into());
    }
    for number in 0..MAX_TRIES {
        let beside = format!(in alloc; "{}/.mkvsuite-{number}.new", folder_of(place))?;
        match make_private(system, beside.as_str()) {
            Ok(file) => return put_in_place(system, file, beside.as_str(), place, was),
            Err(error) if error.kind() == ErrorKind::AlreadyExists => {}
            Err(error) => return Err(error),
        }
    }
    Err(ErrorKind::AlreadyExists.into())
}

/// Checks whether `kind` is an error after which a file can never be replaced; `make` then empties it. Its folder takes
/// no new file or name, the new file can't have its owner and mode, or its name is a mount point.
pub fn is_irreplaceable(kind: ErrorKind) -> bool
    ensures { IsTrue result ↔ IsIrreplaceable kind }
{
    matches!(
        kind,
        ErrorKind::PermissionDenied
            | ErrorKind::ReadOnlyFilesystem
            | ErrorKind::CrossesDevices
            | ErrorKind::ResourceBusy
    )
}

/// Truncates `output`, the file `name`, to no bytes, if it can't be replaced. `make` calls it. Refuses a file that
/// another run writes or edits; it keeps its bytes. Also refuses a file that isn't `name` any more: the bytes would be
/// under another name, or under none.
pub fn emptied<R: fs::Files<File = File>>(
    system: &R,
    name: &str,
    output: Output,
) -> io::Result<Output>
    ensures { IfOk result (λ same. same ≡ output) }
{
    own(&output.file)?;
    if node_of(&fs::metadata(system, name)?)? != output.node {
        return Err(ErrorKind::ResourceBusy.into());
    }
    output.file.set_len(0)?;
    Ok(output)
}

/// Gives the new file `file`, with the name `beside`, the mode and owner of `was`, and then the name `place`.
/// `replaced_at` calls it. If this fails, it removes the new file.
fn put_in_place<R: fs::Files<File = File>>(
    system: &R,
    file: File,
    beside: &str,
    place: &str,
    was: &Metadata,
) -> io::Result<Output>
    requires { pos 2 <ℤ file_raw_fd file }
    ensures { IfOk result (λ made. made.is_new ≡ true) }
{
    let outcome = copy_permissions(file, was);
    let moved = match outcome {
        Ok(output) => fs::rename(system, beside, place).map(|()| output),
        Err(error) => Err(error),
    };
    if moved.is_err() {
        let _ = fs::remove_file(system, beside);
    }
    moved
}

/// Gives the new file `file` a shared lock, and the mode and owner of `was`, and checks that it has them, for
/// `put_in_place`. Fails if it hasn't.
fn copy_permissions(file: File, was: &Metadata) -> io::Result<Output>
    requires { pos 2 <ℤ file_raw_fd file }
    ensures { IfOk result (λ made. made.is_new ≡ true) }
{
    share(&file)?;
    copy_owner(&file, was)?;
    set_mode(&file, was.mode() & 0o7777)?;
    let found = file.metadata()?;
    if (found.uid(), found.gid(), found.mode()) != (was.uid(), was.gid(), was.mode()) {
        return Err(ErrorKind::PermissionDenied.into());
    }
    let node = node_of(&found)?;
    Ok(Output {
        file,
        node,
        is_new: true,
    })
}

/// Gives `file`, a new output or journal, the owner and group of `was`, as far as the system permits.
/// `copy_permissions` and `share_new` call it.
pub fn copy_owner(file: &File, was: &Metadata) -> io::Result<()> {
    // Two calls: only root may set the owner, but a member of the group may set the group.
    unless_refused(fchown(file, None, Some(was.gid())))?;
    unless_refused(fchown(file, Some(was.uid()), None))
}

/// Sets the mode bits of `file`, a new output or a journal, to `mode`, if the system permits. `copy_permissions`,
/// `share_new` and `share_bits` call it.
pub fn set_mode(file: &File, mode: u32) -> io::Result<()> {
    unless_refused(file.set_permissions(Permissions::from_mode(mode)))
}

/// Makes the result `outcome` a success if it is a failure that may be ignored, for `copy_owner` and `set_mode`. The
/// process may not set an owner or mode, the file system doesn't keep it, or the owner doesn't exist here.
fn unless_refused(outcome: io::Result<()>) -> io::Result<()> {
    match outcome {
        Err(error) if is_refusal(error.kind()) => Ok(()),
        other => other,
    }
}

/// Checks whether a failure of the kind `kind` to set an owner or a mode may be ignored. It isn't permitted, not
/// supported, or not valid here. `unless_refused` calls it.
fn is_refusal(kind: ErrorKind) -> bool {
    matches!(
        kind,
        ErrorKind::PermissionDenied | ErrorKind::Unsupported | ErrorKind::InvalidInput
    )
}
