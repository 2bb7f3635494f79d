//! The plan of an edit, as its journal stores it.

ghost use Rattle.std.specs.Prelude.{◌≡◌, ◌≤◌, ◌<◌, ℕ, ◌+◌, ◌*◌, ◌++◌, ◌-◌, min, length, List, OnOk, OnErr, IfOk};
ghost use Rattle.sidecar_edit.specs.Fields.{IsPlan, body_of, front_octets, mark_octets, slot, slots, sum_of, zeros};
ghost use Rattle.sidecar_edit.specs.Plan.{planned};

use crate::place::{HEAD, KEPT, MAX_WRITES, Place};
use mkv_io::Bytes;
use std::alloc::{AllocError, Global};
use std::marker::Model;

/// Zeros that fill the first bytes of a short file in a record
const ZEROS: [u8; KEPT as usize] = [0; KEPT as usize];

/// Planned writes over a file, as the record of a journal. The record identifies the file by its length and its first
/// bytes. It has the bytes that are written, and no copy of the file.
#[derive(Debug, Drop)]
pub struct Plan {
    old_len: u64,
    new_len: u64,
    first: Bytes,
    places: Vec<Place>,
    /// Bytes of the record after the gate.
    octets: Bytes,
}

impl Model for Plan {
    ghost use Rattle.sidecar_edit.specs.Fields.{Planned};
    ghost use Rattle.sidecar_edit.specs.Plan.{IsRecorded, planned_in};

    ghost Value = { Planned };

    ghost view = { λ p. planned_in p.old_len p.new_len p.first p.places.items p.octets };

    ghost invariant = { λ p. IsRecorded (planned_in p.old_len p.new_len p.first p.places.items p.octets) p.octets };
}

impl Plan {
    /// Returns a plan of writes at `places`, with the bytes `payload` in this order; the planning of `propedit` and
    /// `reindex` ends with it. The file has the length `old_len` in bytes before and `new_len` after, and the first
    /// bytes `first` before.
    pub fn new(
        alloc: Global,
        old_len: u64,
        new_len: u64,
        first: &[u8],
        places: Vec<Place>,
        payload: &[u8],
    ) -> Result<Plan, AllocError>
        requires { IsPlan (planned old_len new_len first.now places.items payload.now) }
        ensures { IfOk result (λ plan. plan ≡ planned old_len new_len first.now places.items payload.now) }
    {
        let mut octets = Bytes::with_room(alloc, HEAD as usize - 1 + payload.len())?;
        append_front(
            &mut octets,
            HEAD + payload.len() as u64,
            new_len,
            places.len() as u8,
        )?;
        append_places(&mut octets, &places)?;
        append_marks(&mut octets, old_len, first)?;
        octets.append(payload)?;
        Ok(Plan {
            old_len,
            new_len,
            first: Bytes::from_vec(first.to_vec(alloc)?),
            places,
            octets,
        })
    }

    /// Returns the number of writes of the plan. For a reader of plans; no command calls it.
    pub fn count(&self) -> usize
        ensures { result ≡ length self.now.head.places }
    {
        self.places.len()
    }

    /// Returns the places of the plan's writes, in order. Used by `write_media`, for `commit`.
    pub fn places(&self) -> &[Place]
        ensures { result.now ≡ self.now.head.places }
    {
        self.places.as_slice()
    }

    /// Returns the bytes of all writes of the plan, in sequence. Used by `write_media`, for `commit`.
    pub fn payload(&self) -> &[u8]
        ensures same { result.now ≡ self.now.payload }
        ensures full { length result.now ≡ sum_of self.now.head.places }
    {
        &self.octets.as_slice()[HEAD as usize - 1..]
    }

    /// Returns the bytes of the plan's record in the journal, after the gate. Used by `write_record`, for `commit`.
    pub fn body(&self) -> &[u8]
        ensures same { result.now ≡ body_of self.now }
        ensures sound { IsPlan self.now }
    {
        self.octets.as_slice()
    }

    /// Returns the length of the file after the edit of the plan, in bytes. For a reader of plans; no command calls it.
    pub fn new_len(&self) -> u64
        ensures { result ≡ self.now.head.new_len }
    {
        self.new_len
    }

    /// Returns the file's first bytes before the edit of the plan: 64, or all if it has fewer. For a reader of plans;
    /// no command calls it. Used by `new`, `append_marks` and others.
    pub fn first(&self) -> &[u8]
        ensures { result.now ≡ self.now.head.first }
    {
        self.first.as_slice()
    }
}

/// Appends the fields before the places to `octets`: for a record of `total` bytes with `count` writes, which gives the
/// file `new_len` bytes. Used by `Plan::new`.
fn append_front(octets: &mut Bytes, total: u64, new_len: u64, count: u8) -> Result<(), AllocError>
    ensures { OnOk result (octets.new ≡ octets.old ++ front_octets total new_len count) }
{
    octets.append(b"MKVEDIT")?;
    octets.append(&total.to_be_bytes())?;
    octets.append(&new_len.to_be_bytes())?;
    octets.append(&[2, count, 0, 0, 0, 0, 0, 0])?;
    Ok(())
}

/// Appends the eight places of a record to `octets`: the ones in `places`, and zeros for unused ones. Used by
/// `Plan::new`.
fn append_places(octets: &mut Bytes, places: &[Place]) -> Result<(), AllocError>
    ensures { OnOk result (octets.new ≡ octets.old ++ slots MAX_WRITES places.now) }
{
    for k in 0..MAX_WRITES as usize {
        append_place(octets, places, k)?;
    }
    Ok(())
}

/// Appends to `octets` the one of `places` with the index `k`, counted from 0, or zeros if there are fewer. Used by
/// `append_places`.
fn append_place(octets: &mut Bytes, places: &[Place], k: usize) -> Result<(), AllocError>
    ensures { OnOk result (octets.new ≡ octets.old ++ slot places.now k) }
{
    let place = places.get(k).copied().unwrap_or(Place { at: 0, len: 0 });
    octets.append(&place.at.to_be_bytes())?;
    octets.append(&place.len.to_be_bytes())?;
    Ok(())
}

/// Returns the zeros that fill the first bytes `first` of a short file up to `KEPT` bytes. Used by `append_marks`.
fn zeros_behind(first: &[u8]) -> &'static [u8]
    requires { length first.now ≤ KEPT }
    ensures { result.now ≡ zeros (KEPT - length first.now) }
{
    &ZEROS[first.len()..]
}

/// Appends to `octets` the bytes that identify the file: its length `old_len` in bytes before the edit, and its first
/// bytes `first`, filled up with zeros. Used by `Plan::new`.
fn append_marks(octets: &mut Bytes, old_len: u64, first: &[u8]) -> Result<(), AllocError>
    requires { length first.now ≤ KEPT }
    ensures { OnOk result (octets.new ≡ octets.old ++ mark_octets old_len first.now) }
{
    octets.append(&old_len.to_be_bytes())?;
    octets.append(first)?;
    octets.append(zeros_behind(first))?;
    Ok(())
}
