//! Permissions of a journal: the users who may read and write it.

use crate::outputs::{copy_owner, set_mode};
use std::fs::{File, Metadata};
use std::io;
use std::os::unix::fs::MetadataExt;

/// Mode bits that a journal without a record takes from its edited file, if both have the same owner: others may read
/// it.
pub const QUIET: u32 = 0o744;

/// Mode bits that a journal with a record takes from its edited file, if both have the same owner: only the owner may
/// read it. With an access list, the group bits of the file are the list's mask, which may exceed the rights of its
/// group.
pub const HOLDING: u32 = 0o700;

/// Gives the new journal `sidecar` the owner and group of the edited file `media`, as far as the system permits, and
/// its mode. `open_sidecar` calls it. The mode is reduced to the bits `QUIET` if the edited file's owner owns the
/// journal.
pub fn share_new(sidecar: &File, media: &Metadata) -> io::Result<()> {
    copy_owner(sidecar, media)?;
    let is_owners = sidecar.metadata()?.uid() == media.uid();
    let bits = if is_owners { QUIET } else { 0o7777 };
    set_mode(sidecar, media.mode() & bits)
}

/// Gives the journal `sidecar` the bits `bits` of the mode of the edited file `media`, if both have the same owner.
/// `hide_record` and `show_quiet` call it. Ignores that the system doesn't permit it. A journal that has this mode
/// already isn't touched.
pub fn share_bits(sidecar: &File, media: &File, bits: u32) -> io::Result<()> {
    let found = sidecar.metadata()?;
    let film = media.metadata()?;
    let mode = film.mode() & bits;
    if found.uid() != film.uid() || found.mode() & 0o7777 == mode {
        return Ok(());
    }
    set_mode(sidecar, mode)
}
