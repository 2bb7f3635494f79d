//! The test whether a track's frames can be used: RFC 9559, section 5.1.4 (Tracks), ContentEncodings and
//! TrackTimestampScale.

ghost use Rattle.std.specs.Prelude.{◌≡◌, ◌≤◌, length, IfOk};
ghost use Rattle.mkv_schema.specs.declared.ids.TheConstants.{CONTENT_ENCODINGS as ENCODINGS_ID, CONTENT_ENCODING as ENCODING_ID};
ghost use Rattle.mkv_schema.specs.Outline.{first_damage};
ghost use Rattle.tree_format.specs.Standing.{IsSoundOf};
ghost use Rattle.file_format.specs.Encoding.{algorithm_of, settings_of, most_stripped, strips_headers, encodings_of, can_be_undone, is_one, bad_encoding, bad_scale, prefix_of};
ghost use Rattle.track_records.specs.Sound.{IsEntry};
ghost use Rattle.track_records.specs.Outcome.{lent};
ghost use Rattle.track_records.specs.Usable.{causes_of, prefix_for, usable_track};

use crate::track::Track;
use ebml_tree::{Tree, uint_in};
use mkv_io::{Damage, Kind};
use mkv_schema::ids::{
    CONTENT_COMP_ALGO, CONTENT_COMP_SETTINGS, CONTENT_COMPRESSION, CONTENT_ENCODING,
    CONTENT_ENCODING_SCOPE, CONTENT_ENCODING_TYPE, CONTENT_ENCODINGS, TRACK_TIMESTAMP_SCALE,
};

/// ContentEncodingScope of an encoding of only the frames
const FRAMES: u64 = 1;

/// ContentEncodingType of compression
const COMPRESSION: u64 = 0;

/// ContentCompAlgo of zlib, the default if it is absent
const ZLIB: u64 = 0;

/// ContentCompAlgo of header stripping
const HEADER_STRIPPING: u64 = 3;

/// Greatest number of bytes that may be restored before a frame
const MAX_STRIPPED: usize = 4096;

/// 1.0 as a float of four bytes (RFC 8794, section 7.3, Float)
const ONE_IN_4: [u8; 4] = [0x3F, 0x80, 0, 0];

/// 1.0 as a float of eight bytes
const ONE_IN_8: [u8; 8] = [0x3F, 0xF0, 0, 0, 0, 0, 0, 0];

// ---- one ContentEncoding

// Returns the ContentCompAlgo of `encoding`, a ContentEncoding, or its default, 0, for `strips_headers`.
fn algorithm_of(encoding: &Tree) -> u64
    requires { IsSoundOf ENCODING_ID encoding.now }
    ensures { result ≡ algorithm_of encoding.now }
{
    match encoding.child(CONTENT_COMPRESSION) {
        Some(compression) => uint_in(compression, CONTENT_COMP_ALGO),
        None => ZLIB,
    }
}

// Returns the ContentCompSettings of `encoding`, a ContentEncoding, or no bytes: for header stripping, the bytes that
// were removed from each frame. `strips_headers` and `prefix_of` call it.
fn settings_of(encoding: &Tree) -> &[u8]
    ensures { result.now ≡ settings_of encoding.now }
{
    let Some(compression) = encoding.child(CONTENT_COMPRESSION) else {
        return &[];
    };
    match compression.child(CONTENT_COMP_SETTINGS) {
        Some(settings) => settings.body(),
        None => &[],
    }
}

// Checks whether the ContentEncoding `encoding` is header stripping of only the frames, by at most `MAX_STRIPPED`
// bytes. It is the only one that `can_be_undone` accepts.
#[tactic(auto, using(crate::proofs::EntryLemmas::known))]
fn strips_headers(encoding: &Tree) -> bool
    requires { IsSoundOf ENCODING_ID encoding.now }
    ensures { result ≡ strips_headers encoding.now }
{
    uint_in(encoding, CONTENT_ENCODING_SCOPE) == FRAMES
        && uint_in(encoding, CONTENT_ENCODING_TYPE) == COMPRESSION
        && algorithm_of(encoding) == HEADER_STRIPPING
        && settings_of(encoding).len() <= MAX_STRIPPED
}

// ---- a track

// Checks whether the ContentEncodings `encodings` can be undone: it has no encoding, or one that strips headers from
// frames. `bad_encoding` refuses any other.
fn can_be_undone(encodings: &Tree) -> bool
    requires { IsSoundOf ENCODINGS_ID encodings.now }
    ensures { result ≡ can_be_undone (encodings_of encodings.now) }
{
    match encodings.child(CONTENT_ENCODING) {
        None => true,
        Some(encoding) => match encodings.nth(CONTENT_ENCODING, 1) {
            None => strips_headers(encoding),
            Some(_) => false,
        },
    }
}

/// Returns damage at the first ContentEncodings of `entry`, a TrackEntry, unless it can be undone. It is None if there
/// is no reason to refuse it. `cause_of` asks for it first, and `as_stored` asks whether there is any.
pub(crate) fn bad_encoding(entry: &Tree) -> Option<Damage>
    requires { IsEntry entry.now }
    ensures { result ≡ bad_encoding entry.now }
{
    let encodings = entry.child(CONTENT_ENCODINGS)?;
    if can_be_undone(encodings) {
        return None;
    }
    Some(Damage {
        kind: Kind::Encoding,
        id: CONTENT_ENCODINGS,
        offset: encodings.offset(),
    })
}

// Checks whether the data of a float, `octets`, is empty or 1.0, for a TrackTimestampScale. `bad_scale` calls it.
fn is_one(octets: &[u8]) -> bool
    ensures { result ≡ is_one octets.now }
{
    octets.is_empty() || octets == ONE_IN_4.as_slice() || octets == ONE_IN_8.as_slice()
}

// Returns damage at the first TrackTimestampScale of `entry`, a TrackEntry, unless it is 1; None otherwise. `cause_of`
// asks for it last.
fn bad_scale(entry: &Tree) -> Option<Damage>
    ensures { result ≡ bad_scale entry.now }
{
    let scale = entry.child(TRACK_TIMESTAMP_SCALE)?;
    if is_one(scale.body()) {
        return None;
    }
    Some(Damage {
        kind: Kind::TrackScale,
        id: TRACK_TIMESTAMP_SCALE,
        offset: scale.offset(),
    })
}

// Returns the first reason why the frames of `track` can't be used, as damage, or None. Of frames that are taken as they
// are stored, ContentEncodings is none. `usable` refuses the track for it.
fn cause_of(track: &Track) -> Option<Damage>
    requires { IsEntry track.now.entry }
    ensures { result ≡ first_damage (causes_of track.now) }
{
    if track.stored {
        return bad_scale(&track.entry);
    }
    bad_encoding(&track.entry).or(bad_scale(&track.entry))
}

// Returns the bytes that header stripping removed from the start of each frame, by the TrackEntry `entry`; none without
// it. `prefix_for` returns them.
fn prefix_of(entry: &Tree) -> &[u8]
    ensures { result.now ≡ prefix_of entry.now }
{
    let Some(encodings) = entry.child(CONTENT_ENCODINGS) else {
        return &[];
    };
    match encodings.child(CONTENT_ENCODING) {
        Some(encoding) => settings_of(encoding),
        None => &[],
    }
}

// Returns the bytes to restore before each frame of `track`, if it can be used; none before frames that are taken as
// they are stored. `usable` returns them.
fn prefix_for(track: &Track) -> &[u8]
    ensures { result.now ≡ prefix_for track.now }
{
    if track.stored {
        return &[];
    }
    prefix_of(&track.entry)
}

/// Returns the bytes to restore before each frame of `track`, which are none without header stripping and for frames
/// that are taken as they are stored. Fails with the damage for which its frames can't be used. `merge` and `extract`
/// ask for each track that they copy.
///
/// `Encoding` is reported at the first ContentEncodings, unless it has at most one encoding, which strips at most 4,096
/// bytes from frames. Frames that are taken as they are stored may have any. Otherwise `TrackScale` is reported at the
/// first TrackTimestampScale, unless it is empty or 1.
pub fn usable(track: &Track) -> Result<&[u8], Damage>
    requires { IsEntry track.now.entry }
    ensures exact { lent result ≡ usable_track track.now }
    ensures most { IfOk result (λ prefix. length prefix.now ≤ most_stripped) }
{
    match cause_of(track) {
        Some(damage) => Err(damage),
        None => Ok(prefix_for(track)),
    }
}
