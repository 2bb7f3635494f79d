//! The fields of a journal's first bytes, `head`, and the rules that they must keep.

ghost use Rattle.std.specs.Prelude.{◌≡◌, ◌≤◌, ◌<◌, ◌+◌, ◌*◌, ◌^◌, ◌&&◌, ◌==◌, nat_le, length, min};
ghost use Rattle.sidecar_edit.specs.Fields.{count_in, head_len, last_end, number_at, place_in, places_in, sum_of, total_in, used_in, version_in};
ghost use Rattle.sidecar_edit.specs.Gate.{IsLiveHead, IsUnusedBreach, are_zeros, counted_rules, first_breach, gate_of, has_new_len, is_count, is_joined, is_padded, is_total, is_version, old_len_of, place_rules, rules_of};

use crate::held::Gate;
use crate::place::{HEAD, HEAD_1, KEPT, MAX_OCTETS, MAX_WRITES, OPEN, Place};
use byteorder::{BigEndian, ByteOrder};

/// Returns the big-endian number in the eight bytes of `head`, the journal's first bytes, from the offset `at` on. Used
/// for the numbers of all fields.
#[tactic(auto, unfolding(crate::specs::Fields::number_at))]
pub fn number_at(head: &[u8], at: usize) -> u64
    requires { at + 8 ≤ length head.now }
    ensures { result ≡ number_at head.now at }
{
    BigEndian::read_u64(&head[at..])
}

/// Returns the place of the write with the index `k`, counted from 0, in the record `head`, the journal's first bytes.
/// The checks of a record and `recover` go through the places.
pub fn place_in(head: &[u8], k: usize) -> Place
    requires { 48 + 16 * k ≤ length head.now }
    ensures { result ≡ place_in head.now k }
{
    Place {
        at: number_at(head, 32 + 16 * k),
        len: number_at(head, 40 + 16 * k),
    }
}

/// Returns the number of writes of the record `head`, the journal's first bytes. Used by `redo_writes`.
pub fn count_in(head: &[u8]) -> usize
    requires { HEAD_1 ≤ length head.now }
    ensures { result ≡ count_in head.now }
{
    usize::from(head[25])
}

/// Returns the number of bytes of the record `head`, the journal's first bytes, before the bytes of the writes, which
/// its version determines. `recover` copies from there.
pub fn head_len(head: &[u8]) -> u64
    requires { HEAD_1 ≤ length head.now }
    ensures { result ≡ head_len (version_in head.now) }
{
    if head[24] == 1 { HEAD_1 } else { HEAD }
}

/// Returns the number of bytes that the writes of the record `head`, the journal's first bytes, write in all. Used by
/// `is_total`.
#[tactic(auto, using(crate::proofs::ReadingLemmas::sum_next))]
fn sum_in(head: &[u8]) -> u128
    requires long { HEAD_1 ≤ length head.now }
    requires few { count_in head.now ≤ MAX_WRITES }
    ensures { result ≡ sum_of (used_in head.now) }
{
    let mut sum = 0;
    for k in 0..usize::from(head[25]) {
        sum += u128::from(place_in(head, k).len);
    }
    sum
}

/// Returns the offset in the edited file after the last write of the record `head`, the journal's first bytes. Used by
/// `is_new_len`.
#[tactic(auto, using(crate::proofs::ReadingLemmas::end_next))]
fn end_in(head: &[u8]) -> u128
    requires long { HEAD_1 ≤ length head.now }
    requires few { count_in head.now ≤ MAX_WRITES }
    ensures { result ≡ last_end 0 (used_in head.now) }
{
    let mut end = 0;
    for k in 0..usize::from(head[25]) {
        let place = place_in(head, k);
        end = u128::from(place.at) + u128::from(place.len);
    }
    end
}

/// Checks whether all bytes of `octets`, a field of the journal that isn't used, are zero. Used by `is_padded` and
/// `counted_breach`.
fn are_zeros(octets: &[u8]) -> bool
    ensures { result ≡ are_zeros octets.now }
{
    octets.iter().all(|&octet| octet == 0)
}

/// Returns the file's length in bytes before the edit, or None unless the record `head`, the journal's first bytes, has
/// it and is long enough for it. The checks of the record use it. Used by `is_new_len` and `counted_breach`.
fn old_len_of(head: &[u8]) -> Option<u64>
    requires { HEAD_1 ≤ length head.now }
    ensures { result ≡ old_len_of head.now }
{
    if head[24] == 2 && head.len() >= 168 {
        Some(number_at(head, 160))
    } else {
        None
    }
}

/// Checks whether the length of the record `head`, the journal's first bytes, is the sum of its parts, and its writes
/// have at most 16 MiB. Used by `counted_breach`.
fn is_total(head: &[u8]) -> bool
    requires long { HEAD_1 ≤ length head.now }
    requires few { count_in head.now ≤ MAX_WRITES }
    ensures { result ≡ is_total head.now }
{
    let sum = sum_in(head);
    sum <= u128::from(MAX_OCTETS)
        && u128::from(number_at(head, 8)) == u128::from(head_len(head)) + sum
}

/// Checks whether the length after the edit that the record `head`, the journal's first bytes, states is right, by its
/// writes and the length before. Used by `counted_breach`.
fn is_new_len(head: &[u8]) -> bool
    requires long { HEAD_1 ≤ length head.now }
    requires few { count_in head.now ≤ MAX_WRITES }
    ensures { result ≡ has_new_len head.now }
{
    let new_len = u128::from(number_at(head, 16));
    let end = end_in(head);
    match old_len_of(head) {
        None => head[24] == 2 || end <= new_len,
        Some(old_len) => new_len == end.max(u128::from(old_len)),
    }
}

/// Checks whether the record `head`, the journal's first bytes, has zeros after the end of a file that is shorter than
/// its 64 kept bytes. One that isn't long enough for them passes. Used by `counted_breach`.
fn is_padded(head: &[u8]) -> bool
    requires { HEAD_1 ≤ length head.now }
    ensures { result ≡ is_padded head.now }
{
    if head[24] != 2 || (head.len() as u64) < HEAD {
        return true;
    }
    let first = &head[168..232];
    let old_len = number_at(head, 160).min(KEPT);
    are_zeros(&first[old_len as usize..])
}

/// Checks whether the place of a write in the record has bytes and leaves no gap. It must begin at the offset `from`,
/// the end of the previous one, or after it. `old_len` is the file's length in bytes before the edit, if the record has
/// it. Used by `place_breach`.
fn is_used(place: Place, from: u128, old_len: Option<u64>) -> bool
    ensures { result ≡ (nat_le 1 place.len && nat_le from place.at && is_joined old_len from place) }
{
    let joined = match old_len {
        None => true,
        Some(old_len) => u128::from(place.at) <= from.max(u128::from(old_len)),
    };
    place.len >= 1 && from <= u128::from(place.at) && joined
}

/// Checks whether `place` of the record is zero, as an unused one must be. Used by `unused_breach`.
fn is_zero(place: Place) -> bool
    ensures { result ≡ ((place.at == 0) && (place.len == 0)) }
{
    place.at == 0 && place.len == 0
}

/// Returns the offset in the journal `head` of the first place of a write that breaks a rule, or None. The file had
/// `old_len` bytes before the edit, if that is known. Used by `counted_breach`.
fn place_breach(head: &[u8], old_len: Option<u64>) -> Option<u64>
    requires long { HEAD_1 ≤ length head.now }
    requires few { count_in head.now ≤ MAX_WRITES }
    ensures { result ≡ first_breach (place_rules old_len 32 (count_in head.now) 0 (places_in head.now)) }
{
    let mut from = 0;
    for k in 0..usize::from(head[25]) {
        let place = place_in(head, k);
        if !is_used(place, from, old_len) {
            return Some(32 + 16 * k as u64);
        }
        from = u128::from(place.at) + u128::from(place.len);
    }
    unused_breach(head)
}

/// Returns the offset in the journal `head` of the first unused place that isn't zero, or None. Used by `place_breach`.
fn unused_breach(head: &[u8]) -> Option<u64>
    requires long { HEAD_1 ≤ length head.now }
    requires few { count_in head.now ≤ MAX_WRITES }
    ensures { IsUnusedBreach head.now result }
{
    for k in usize::from(head[25])..MAX_WRITES as usize {
        let place = place_in(head, k);
        if !is_zero(place) {
            return Some(32 + 16 * k as u64);
        }
    }
    None
}

/// Returns the offset in the journal `head` of the first field that breaks a rule of the record, or None. The journal
/// is invalid if there is one. Used by `gate_of`.
pub fn first_breach(head: &[u8]) -> Option<u64>
    requires { HEAD_1 ≤ length head.now }
    ensures { result ≡ first_breach (rules_of head.now) }
{
    let magic: &[u8] = b"MKVEDIT";
    if &head[1..8] != magic {
        return Some(1);
    }
    if head[24] != 1 && head[24] != 2 {
        return Some(24);
    }
    if head[25] < 1 || u64::from(head[25]) > MAX_WRITES {
        return Some(25);
    }
    counted_breach(head)
}

/// Returns the offset in the journal `head` of the first field that breaks a rule, or None. Only the rules that depend
/// on the number of writes are checked. Used by `first_breach`.
fn counted_breach(head: &[u8]) -> Option<u64>
    requires long { HEAD_1 ≤ length head.now }
    requires few { count_in head.now ≤ MAX_WRITES }
    ensures { result ≡ first_breach (counted_rules head.now) }
{
    if !is_total(head) {
        return Some(8);
    }
    if !is_new_len(head) {
        return Some(16);
    }
    if !are_zeros(&head[26..32]) {
        return Some(26);
    }
    match place_breach(head, old_len_of(head)) {
        Some(octet) => Some(octet),
        None if !is_padded(head) => Some(168),
        None => None,
    }
}

/// Returns the state of a journal of `size` bytes with the first bytes `head`. Commands that read or edit a file, and
/// `recover`, decide by it.
pub fn gate_of(head: &[u8], size: u64) -> Gate
    requires { length head.now ≡ min HEAD size }
    ensures exact { result ≡ gate_of head.now size }
    ensures live { result ≡ Gate.Live → IsLiveHead head.now size }
{
    if size <= 1 || head[0] != OPEN {
        return Gate::Quiet;
    }
    if size < HEAD_1 {
        return Gate::Bad { offset: size };
    }
    match first_breach(head) {
        Some(offset) => Gate::Bad { offset },
        None if size < number_at(head, 8) => Gate::Bad { offset: size },
        None => Gate::Live,
    }
}
