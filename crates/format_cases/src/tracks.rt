//! Cases of Infos (`info`) and tracks (`tracks`, `usable`). The header of each master is at offset 21, its data at 26.

ghost use Rattle.std.specs.Prelude.{IfOk, All};
ghost use Rattle.mkv_schema.specs.declared.ids.TheConstants.{INFO as INFO_ID};
ghost use Rattle.tree_format.specs.Standing.{IsSoundOf};
ghost use Rattle.track_records.specs.Sound.{IsEntry};

use crate::case::Case;
use crate::trees::tell_end;
use crate::{tell_damage, tell_octets};
use ebml_tree::{Tree, TreeEnd};
use meta_records::read_info;
use mkv_io::List;
use mkv_schema::ids::{INFO, TRACKS};
use mkv_schema::is_master;
use std::alloc::{AllocError, Global};
use std::fmt::Write;
use track_records::{Track, read_tracks, usable};

/// Greatest number of bytes of a master's data in a case.
const MAX_ITEMS: usize = 1000;

/// Reads the master with the ID `id` and the data `body`, of at most 1000 bytes, as a tree. Its header is at offset 21.
/// The test cases `info`, `tracks` and `usable` use it.
fn master_of(alloc: Global, id: u32, body: &[u8]) -> Result<Tree, TreeEnd>
    ensures { IfOk result (IsSoundOf id) }
{
    if !is_master(id) || body.len() > MAX_ITEMS {
        return Err(TreeEnd::Memory);
    }
    Tree::parse(alloc, id, 21, body, 26, 99)
}

/// Appends to `text` the TimestampScale of the Info whose data the case has. It is the result of a test case `info`,
/// which `tell` of the test program prints.
pub fn tell_info(alloc: Global, case: &Case, text: &mut String) -> Result<(), AllocError> {
    match master_of(alloc, INFO, case.octets.as_slice()) {
        Ok(info) => tell_scale(&info, text),
        Err(end) => tell_end(end, text),
    }
}

/// Appends to `text` the TimestampScale of `info` in nanoseconds, or the damage for which it is refused. `tell_info`
/// calls it.
fn tell_scale(info: &Tree, text: &mut String) -> Result<(), AllocError>
    requires { IsSoundOf INFO_ID info.now }
{
    match read_info(info) {
        Ok(values) => write!(text, "  {} ns\n", values.scale),
        Err(damage) => tell_damage(damage, text),
    }
}

/// Reads the tracks of the Tracks Element with the data `body`, for the test cases `tracks` and `usable`. Used by
/// `tell_tracks` and `tell_usable`.
fn tracks_of(alloc: Global, body: &[u8]) -> Result<List<Track>, TreeEnd>
    ensures { IfOk result (All (λ track. IsEntry track.entry)) }
{
    let tracks = master_of(alloc, TRACKS, body)?;
    read_tracks(alloc, &tracks)
}

/// Appends to `text` the tracks of the Tracks whose data the case has, each in a line. It is the result of a test case
/// `tracks`, which `tell` of the test program prints.
pub fn tell_tracks(alloc: Global, case: &Case, text: &mut String) -> Result<(), AllocError> {
    match tracks_of(alloc, case.octets.as_slice()) {
        Ok(tracks) => tell_each(tracks.as_slice(), text),
        Err(end) => tell_end(end, text),
    }
}

/// Appends to `text` a line for each of `tracks`, for a test case `tracks`. Used by `tell_tracks`.
fn tell_each(tracks: &[Track], text: &mut String) -> Result<(), AllocError> {
    for track in tracks {
        tell_track(track, text)?;
    }
    Ok(())
}

/// Appends to `text` the line of `track`: offset, type, codec, numbers, language, and the written length of its entry
/// in bytes, for a test case `tracks`. Used by `tell_each`.
fn tell_track(track: &Track, text: &mut String) -> Result<(), AllocError> {
    let offset = track.offset;
    let kind = track.type_name();
    let codec = track.codec.as_str();
    let number = track.number;
    let uid = track.uid;
    write!(text, "  {offset}: {kind} {codec} number {number} uid {uid}")?;
    let language = track.language.as_str();
    let length = track.entry.written_len();
    write!(text, " language {language}, {length} octets\n")
}

/// Appends to `text` the bytes to put before each frame of the first track in the case's Tracks. If its frames can't be
/// used, it appends the reason. It is the result of a test case `usable`, which `tell` of the test program prints.
pub fn tell_usable(alloc: Global, case: &Case, text: &mut String) -> Result<(), AllocError> {
    match tracks_of(alloc, case.octets.as_slice()) {
        Ok(tracks) => tell_first(&tracks, text),
        Err(end) => tell_end(end, text),
    }
}

/// Appends to `text` the bytes that header stripping removed from each frame of the first of `tracks`, the reason why
/// its frames can't be used, or `none` without a track. It is the result of a test case `usable`, which `tell` of the
/// test program prints.
fn tell_first(tracks: &List<Track>, text: &mut String) -> Result<(), AllocError>
    requires { All (λ track. IsEntry track.entry) tracks.now }
{
    match tracks.get(0) {
        Some(track) => tell_prefix(track, text),
        None => text.push_str("  none\n"),
    }
}

/// Appends to `text` the bytes that header stripping removed from each frame of `track`, or the reason why they can't
/// be used. `tell_first` calls it for a test case `usable`.
fn tell_prefix(track: &Track, text: &mut String) -> Result<(), AllocError>
    requires { IsEntry track.now.entry }
{
    match usable(track) {
        Ok(prefix) => {
            text.push_str("  before each frame:")?;
            tell_octets(prefix, text)?;
            text.push_str("\n")
        }
        Err(damage) => tell_damage(damage, text),
    }
}
