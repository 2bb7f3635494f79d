//! The test of a merge whether a track may be appended to another: RFC 9559, section 5.1.4 (Tracks).

ghost use Rattle.std.specs.Prelude.{◌≡◌};
ghost use Rattle.std.specs.Option.{option_copied};
ghost use Rattle.track_records.specs.Difference.{in_master, octets_at, are_alike, field_difference, kept_encodings, are_kept_alike, encodings_difference, first_difference};

use crate::fields::{FIELDS, Field};
use crate::same::is_same;
use crate::track::Track;
use ebml_tree::Tree;
use mkv_schema::ids::CONTENT_ENCODINGS;

// Returns the first Element of `field` in `entry`, a TrackEntry: a child, or a child of the entry's first master for
// the field. It is None if there is none. `octets_at` reads it.
fn in_master<'a>(entry: &'a Tree, field: &Field) -> Option<&'a Tree>
    ensures { option_copied result ≡ in_master field.now.master field.now.id entry.now }
{
    match field.master {
        Some(master) => entry.child(master)?.child(field.id),
        None => entry.child(field.id),
    }
}

// Returns the data of the first Element of `field` in `entry`, a TrackEntry, or None if it is absent. `differs`
// compares it.
fn octets_at<'a>(entry: &'a Tree, field: &Field) -> Option<&'a [u8]>
    ensures { option_copied result ≡ octets_at field.now entry.now }
{
    match in_master(entry, field) {
        Some(element) => Some(element.body()),
        None => None,
    }
}

// Checks whether two values of a field are equal, or both absent, for `differs`.
fn are_alike(p: Option<&[u8]>, q: Option<&[u8]>) -> bool
    ensures { result ≡ are_alike (option_copied p.entry) (option_copied q.entry) }
{
    match (p, q) {
        (None, None) => true,
        (Some(p), Some(q)) => p == q,
        _ => false,
    }
}

// Returns the ID of the first field that differs between the TrackEntries `a` and `b`, or None if all are alike.
// `differs` asks for it first.
fn field_difference(a: &Tree, b: &Tree) -> Option<u32>
    ensures { result ≡ field_difference a.now b.now }
{
    let differing = FIELDS.iter().find(|field| !are_alike(
        octets_at(a, field),
        octets_at(b, field),
    ))?;
    Some(differing.id)
}

// Returns the ContentEncodings of `track` that an output keeps: the first one if its frames are taken as they are
// stored, and None otherwise. `encodings_difference` compares it.
fn kept_encodings(track: &Track) -> Option<&Tree>
    ensures { option_copied result ≡ kept_encodings track.now }
{
    if track.stored {
        return track.entry.child(CONTENT_ENCODINGS);
    }
    None
}

// Checks whether two tracks keep no ContentEncodings, or the same: `p` and `q` are what they keep. For
// `encodings_difference`.
fn are_kept_alike(p: Option<&Tree>, q: Option<&Tree>) -> bool
    ensures { result ≡ are_kept_alike (option_copied p.entry) (option_copied q.entry) }
{
    match (p, q) {
        (None, None) => true,
        (Some(p), Some(q)) => is_same(p, q),
        _ => false,
    }
}

// Returns the ID of ContentEncodings unless the tracks `a` and `b` keep the same or none. `differs` asks for it last.
fn encodings_difference(a: &Track, b: &Track) -> Option<u32>
    ensures { result ≡ encodings_difference a.now b.now }
{
    if are_kept_alike(kept_encodings(a), kept_encodings(b)) {
        return None;
    }
    Some(CONTENT_ENCODINGS)
}

/// Returns the ID of the first field of the track `b` that differs from `a`, or None if `b` may be appended to `a`.
/// `merge` checks each appended track so. Only the first Element of each field counts, compared by its bytes or its
/// absence. The last field is the ContentEncodings of a track whose frames are taken as they are stored, compared as it
/// is written.
pub fn differs(a: &Track, b: &Track) -> Option<u32>
    ensures { result ≡ first_difference a.now b.now }
{
    field_difference(&a.entry, &b.entry).or(encodings_difference(a, b))
}
