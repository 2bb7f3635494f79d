//! Reasons to refuse a Tracks: RFC 9559, section 5.1.4 (Tracks).

ghost use Rattle.std.specs.Prelude.{◌≡◌, map, IfOk, is_none};
ghost use Rattle.mkv_schema.specs.declared.ids.TheConstants.{TRACK_ENTRY as ENTRY_ID};
ghost use Rattle.mkv_schema.specs.Element.{damage};
ghost use Rattle.tree_format.specs.Standing.{IsSound, StandsIn};
ghost use Rattle.tree_format.specs.Values.{first_child};
ghost use Rattle.file_format.specs.Entry.{entries_of, number_of};
ghost use Rattle.file_format.specs.Refusal.{is_bad, bad_value, missing_child, first_in, told_at, first_repeated, repeated_number, refusal_of};
ghost use Rattle.track_records.specs.Sound.{IsEntry};
ghost use Rattle.track_records.specs.Met.{is_met};

use crate::entry::number_of;
use ebml_tree::Tree;
use mkv_io::{Damage, Kind};
use mkv_schema::ids::{CODEC_ID, DEFAULT_DURATION, TRACK_ENTRY, TRACK_NUMBER, TRACK_TYPE};
use std::alloc::{AllocError, Global};
use std::collections::BTreeSet;

/// Least DefaultDuration that is refused, in nanoseconds
const TOO_LONG: u64 = 1 << 48;

/// Children that each entry must have, in the order of the checks
const MANDATORY: [u32; 3] = [TRACK_NUMBER, TRACK_TYPE, CODEC_ID];

/// Greatest number of entries of a Tracks
const MAX_TRACKS: usize = 1024;

// Checks whether `child`, a child of a TrackEntry, is a TrackNumber of 0 or a DefaultDuration of 2^48 ns or more.
// `bad_value` calls it.
fn is_bad(child: &Tree) -> bool
    requires { StandsIn ENTRY_ID child.now }
    ensures { result ≡ is_bad child.now }
{
    match child.id() {
        TRACK_NUMBER => child.uint() == 0,
        DEFAULT_DURATION => child.uint() >= TOO_LONG,
        _ => false,
    }
}

// Checks whether an Element with the ID `id` came before in the entry: `numbered` if a TrackNumber did, `timed` if a
// DefaultDuration did. Only the first of each is checked by `bad_value`.
fn is_met(numbered: bool, timed: bool, id: u32) -> bool
    ensures { result ≡ is_met numbered timed id }
{
    numbered && id == TRACK_NUMBER || timed && id == DEFAULT_DURATION
}

// Returns damage at the first invalid value of `entry`, a TrackEntry, or None, for `first_bad_value`.
fn bad_value(entry: &Tree) -> Option<Damage>
    requires { IsEntry entry.now }
    ensures { result ≡ bad_value entry.now }
{
    let mut numbered = false;
    let mut timed = false;
    for child in entry.children() {
        let id = child.id();
        if !is_met(numbered, timed, id) && is_bad(child) {
            return Some(Damage {
                kind: Kind::BadValue,
                id,
                offset: child.offset(),
            });
        }
        numbered |= id == TRACK_NUMBER;
        timed |= id == DEFAULT_DURATION;
    }
    None
}

// Checks whether `entry`, a TrackEntry, has no child with the ID `id`, for `missing_child`.
fn lacks(entry: &Tree, id: u32) -> bool
    ensures { result ≡ is_none (first_child id entry.now) }
{
    entry.child(id).is_none()
}

// Returns damage at `entry`, a TrackEntry, if it lacks a mandatory child, or None, for `first_missing_child`.
fn missing_child(entry: &Tree) -> Option<Damage>
    ensures { result ≡ missing_child entry.now }
{
    let id = MANDATORY.iter().find(|id| lacks(entry, **id))?;
    Some(Damage {
        kind: Kind::MissingChild,
        id: *id,
        offset: entry.offset(),
    })
}

// Returns damage at the first invalid value in all entries of `tracks`, or None, for `refusal_of`.
fn first_bad_value(tracks: &Tree) -> Option<Damage>
    requires { IsSound tracks.now }
    ensures { result ≡ first_in bad_value (entries_of tracks.now) }
{
    for child in tracks.children() {
        if child.id() == TRACK_ENTRY {
            if let Some(damage) = bad_value(child) {
                return Some(damage);
            }
        }
    }
    None
}

// Returns damage at the first entry of `tracks` that lacks a mandatory child, or None, for `refusal_of`.
fn first_missing_child(tracks: &Tree) -> Option<Damage>
    ensures { result ≡ first_in missing_child (entries_of tracks.now) }
{
    for child in tracks.children() {
        if child.id() == TRACK_ENTRY {
            if let Some(damage) = missing_child(child) {
                return Some(damage);
            }
        }
    }
    None
}

// Returns the TrackNumbers of all entries of `tracks`, in their order, for `repeated_number`.
fn numbers_of(alloc: Global, tracks: &Tree) -> Result<Vec<u64>, AllocError>
    requires { IsSound tracks.now }
    ensures { IfOk result (λ numbers. numbers.items ≡ map number_of (entries_of tracks.now)) }
{
    let mut numbers = Vec::new(alloc);
    for child in tracks.children() {
        if child.id() == TRACK_ENTRY {
            numbers.push(number_of(child))?;
        }
    }
    Ok(numbers)
}

// Returns the index, from 0, of the first of `numbers` that is equal to an earlier one, or None, for `repeated_number`.
fn first_repeated(alloc: Global, numbers: &[u64]) -> Result<Option<usize>, AllocError>
    ensures { IfOk result (λ place. place ≡ first_repeated numbers.now) }
{
    let mut before = BTreeSet::new(alloc);
    for (k, number) in numbers.iter().enumerate() {
        if !before.insert(*number)? {
            return Ok(Some(k));
        }
    }
    Ok(None)
}

// Returns damage of the kind `kind` with the Element ID `id`, at the entry of `tracks` with the index `k`, from 0. It
// is None without that entry. A repeated number and too many entries are reported so. Used by `repeated_number` and
// `refusal_of`.
fn told_at(tracks: &Tree, kind: Kind, id: u32, k: usize) -> Option<Damage>
    ensures { result ≡ told_at (entries_of tracks.now) (damage kind id) k }
{
    let entry = tracks.nth(TRACK_ENTRY, k)?;
    Some(Damage {
        kind,
        id,
        offset: entry.offset(),
    })
}

// Returns damage at the first entry of `tracks` whose TrackNumber an earlier entry has, or None, for `refusal_of`.
fn repeated_number(alloc: Global, tracks: &Tree) -> Result<Option<Damage>, AllocError>
    requires { IsSound tracks.now }
    ensures { IfOk result (λ damage. damage ≡ repeated_number (entries_of tracks.now)) }
{
    let numbers = numbers_of(alloc, tracks)?;
    match first_repeated(alloc, numbers.as_slice())? {
        Some(k) => Ok(told_at(tracks, Kind::RepeatedTrack, TRACK_NUMBER, k)),
        None => Ok(None),
    }
}

/// Returns the first reason to refuse `tracks`, as damage: an invalid value, a missing child, a repeated TrackNumber,
/// or too many entries. It is None if there is no reason. `read_tracks` refuses the Tracks for it. Used by `read`.
pub(crate) fn refusal_of(alloc: Global, tracks: &Tree) -> Result<Option<Damage>, AllocError>
    requires { IsSound tracks.now }
    ensures { IfOk result (λ damage. damage ≡ refusal_of tracks.now) }
{
    let own = first_bad_value(tracks).or(first_missing_child(tracks));
    if own.is_some() {
        return Ok(own);
    }
    let repeated = repeated_number(alloc, tracks)?;
    Ok(repeated.or(told_at(tracks, Kind::TooMany, TRACK_ENTRY, MAX_TRACKS)))
}
