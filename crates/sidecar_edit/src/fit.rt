//! The check that a file is the one that the record of its journal was made for.

ghost use Rattle.std.specs.Prelude.{◌≡◌, ◌≢◌, ◌≤◌, ◌<◌, ℕ, ◌+◌, ◌&&◌, ◌||◌, nat_le, nat_lt, min, length, slice_index, Option, IfSome, false};
ghost use Rattle.sidecar_edit.specs.Fields.{count_in, new_len_in, old_len_in, used_in, version_in};
ghost use Rattle.sidecar_edit.specs.Recovery.{differs, first_place, foreign_of, gap_of, is_disk_fault, is_touched, octet_mark, unfit};

use crate::head::{number_at, place_in};
use crate::outcome::{Mark, RecoverEnd};
use crate::place::{HEAD, HEAD_1, KEPT, MAX_WRITES, Place};

/// Checks whether a write at `place` changes the byte at the offset `k` of the file. Used by `is_touched`.
fn touches(place: Place, k: u64) -> bool
    ensures { result ≡ (nat_le place.at k && nat_lt k (place.at + place.len)) }
{
    place.at <= k && u128::from(k) < u128::from(place.at) + u128::from(place.len)
}

/// Checks whether a write of the record in `head`, the journal's first bytes, changes the byte at the offset `k` of the
/// file. Used by `differs`.
fn is_touched(head: &[u8], k: u64) -> bool
    requires long { HEAD_1 ≤ length head.now }
    requires few { count_in head.now ≤ MAX_WRITES }
    ensures { result ≡ is_touched (used_in head.now) k }
{
    for i in 0..usize::from(head[25]) {
        let place = place_in(head, i);
        if touches(place, k) {
            return true;
        }
    }
    false
}

/// Returns the byte at the offset `k` in `media`, the file's first bytes, or 0 after their end, to compare it with the
/// record. Used by `differs` and `octet_mark`.
fn octet_at(media: &[u8], k: usize) -> u8
    ensures { result ≡ slice_index media.now k }
{
    media.get(k).copied().unwrap_or(0)
}

/// Checks whether the byte at the offset `k` of the file, in its first bytes `media`, differs from the record in
/// `head`, the journal's first bytes. A byte that the edit changes doesn't. Used by `octet_mark`.
fn differs(head: &[u8], media: &[u8], k: usize) -> bool
    requires head { length head.now ≡ HEAD }
    requires few { count_in head.now ≤ MAX_WRITES }
    requires octet { k < KEPT }
    ensures { result ≡ differs head.now media.now k }
{
    (k as u64) < number_at(head, 160)
        && !is_touched(head, k as u64)
        && octet_at(media, k) != head[168 + k]
}

/// Returns the refusal for the first byte of the file that differs from the record, or None. `head` has the journal's
/// fields, and `media` the first bytes of the file. Used by `foreign_of`.
fn octet_mark(head: &[u8], media: &[u8]) -> Option<RecoverEnd>
    requires head { length head.now ≡ HEAD }
    requires few { count_in head.now ≤ MAX_WRITES }
    ensures { result ≡ octet_mark head.now media.now (first_place (differs head.now media.now) 0 KEPT) }
{
    for k in 0..KEPT as usize {
        if differs(head, media, k) {
            return Some(RecoverEnd::Foreign {
                mark: Mark::Octet { at: k as u64 },
                kept: u64::from(head[168 + k]),
                found: u64::from(octet_at(media, k)),
            });
        }
    }
    None
}

/// Checks whether `size` is a length in bytes that the file can't have before, during or after the edit of the record
/// in `head`, the journal's first bytes. Used by `foreign_of`.
fn has_other_length(head: &[u8], size: u64) -> bool
    requires { HEAD_1 + 8 ≤ length head.now }
    ensures { result ≡ (nat_lt size (old_len_in head.now) || nat_lt (new_len_in head.now) size) }
{
    size < number_at(head, 160) || number_at(head, 16) < size
}

/// Returns the refusal if a file of `size` bytes with the first bytes `media` isn't the file of the record of version 2
/// in `head`, the journal's first bytes, or None. Used by `unfit`.
fn foreign_of(head: &[u8], size: u64, media: &[u8]) -> Option<RecoverEnd>
    requires head { length head.now ≡ HEAD }
    requires few { count_in head.now ≤ MAX_WRITES }
    ensures { result ≡ foreign_of head.now size media.now }
{
    if has_other_length(head, size) {
        return Some(RecoverEnd::Foreign {
            mark: Mark::Length,
            kept: number_at(head, 160),
            found: size,
        });
    }
    octet_mark(head, media)
}

/// Checks whether the write at `place` begins at the offset `end` of the file or before. Used by `gap_of`.
fn begins_within(place: Place, end: u128) -> bool
    ensures { result ≡ nat_le place.at end }
{
    u128::from(place.at) <= end
}

/// Returns the refusal if a write begins after the end of a file of `size` bytes and the earlier writes, or None.
/// `head` has the record, of version 1. Used by `unfit`.
fn gap_of(head: &[u8], size: u64) -> Option<RecoverEnd>
    requires long { HEAD_1 ≤ length head.now }
    requires few { count_in head.now ≤ MAX_WRITES }
    ensures { result ≡ gap_of 32 size (used_in head.now) }
{
    let mut end = u128::from(size);
    for k in 0..usize::from(head[25]) {
        let place = place_in(head, k);
        if !begins_within(place, end) {
            return Some(RecoverEnd::BadSidecar {
                offset: 32 + 16 * k as u64,
            });
        }
        end = end.max(u128::from(place.at) + u128::from(place.len));
    }
    None
}

/// Returns the refusal if the writes of the pending record in `head`, the journal's first bytes, don't fit a file of
/// `size` bytes with the first bytes `media`, or None. Used by `unfit_medium`, for `recover`.
pub fn unfit(head: &[u8], size: u64, media: &[u8]) -> Option<RecoverEnd>
    requires long { HEAD_1 ≤ length head.now }
    requires few { count_in head.now ≤ MAX_WRITES }
    requires second { version_in head.now ≢ 1 → length head.now ≡ HEAD }
    ensures exact { result ≡ unfit head.now size media.now }
    ensures refused { IfSome result (λ end. is_disk_fault end ≡ false) }
{
    if head[24] == 1 {
        gap_of(head, size)
    } else {
        foreign_of(head, size, media)
    }
}
