//! Choice of an output's identifiers: RFC 9559, sections 5.1.4.1.2 (TrackUID) and 5.1.6.1.5 (FileUID), and similar
//! ones.

ghost use Rattle.std.specs.Prelude.{◌≡◌, ◌<◌, ◌+◌, ◌^◌, false, length, nat_eq, IfOk};
ghost use Rattle.indexmap.specs.IndexSet.{IsFromIterResult};
ghost use Rattle.record_changes.specs.Identifiers.{number_for, renumbered};
ghost use Rattle.record_changes.specs.Taken.{is_taken, IsNext, HasRoom};

use indexmap::IndexSet;
use mkv_io::List;
use std::alloc::{AllocError, Global};

// Checks whether `number` can't be given to an item of the output, for `free_from`. It is an identifier in the inputs
// (`source`) or was given to another item (`given`).
fn is_taken(source: &IndexSet<u64>, given: &IndexSet<u64>, number: u64) -> bool
    ensures { result ≡ is_taken source.now given.now number }
{
    source.contains(&number) || given.contains(&number)
}

// Returns the smallest positive number that isn't taken by `source` or `given`, for `number_for`. All positive numbers
// below `least` must be taken.
fn free_from(source: &IndexSet<u64>, given: &IndexSet<u64>, least: u64) -> u64
    requires next { IsNext (is_taken source.now given.now) least }
    requires room { HasRoom source.now given.now }
    ensures next { IsNext (is_taken source.now given.now) result }
    ensures free { is_taken source.now given.now result ≡ false }
{
    let mut number = least;
    while is_taken(source, given, number) {
        number += 1;
    }
    number
}

// Returns the output's number for the identifier `uid` of an input, for `numbers_of`. A positive one that isn't given
// yet stays, and others get the smallest number that isn't taken. All positive numbers below `least` must be taken; it
// is advanced.
fn number_for(source: &IndexSet<u64>, given: &IndexSet<u64>, uid: u64, least: &mut u64) -> u64
    requires next { IsNext (is_taken source.now given.now) least.old }
    requires room { HasRoom source.now given.now }
    ensures exact { result ≡ number_for source.now.keys given.now.keys uid }
    ensures next { IsNext (is_taken source.now given.now) least.new }
{
    if uid != 0 && !given.contains(&uid) {
        return uid;
    }
    *least = free_from(source, given, *least);
    *least
}

// Returns the output's numbers for `uids`, the identifiers in the inputs, in their order, for `renumber`. `source` has
// the same identifiers as a set.
fn numbers_of(
    alloc: Global,
    source: &IndexSet<u64>,
    uids: &[u64],
) -> Result<IndexSet<u64>, AllocError>
    requires source { IsFromIterResult nat_eq uids.now source.now }
    requires few { length source.now.keys < 2 ^ 63 }
    ensures { IfOk result (λ numbers. numbers.keys ≡ renumbered uids.now) }
{
    let mut given = IndexSet::new(alloc);
    let mut least = 1;
    for uid in uids {
        given.insert(number_for(source, &given, *uid, &mut least))?;
    }
    Ok(given)
}

/// Returns the output's numbers for `uids`, the identifiers of one kind in all inputs, in the order of writing; 0 means
/// an absent identifier. A merge does this for TrackUIDs, EditionUIDs, ChapterUIDs and FileUIDs.
///
/// The first use of a positive identifier keeps it. Any other gets the smallest positive number that isn't in `uids`
/// and wasn't used before. Used by `uids_of` of `merge_plan` and others.
pub fn renumber(alloc: Global, uids: &[u64]) -> Result<List<u64>, AllocError>
    ensures { IfOk result (λ numbers. numbers ≡ renumbered uids.now) }
{
    let source: IndexSet<u64> = uids.iter().copied().collect(alloc)?;
    prove!(source.len() < 1 << 63);
    let numbers = numbers_of(alloc, &source, uids)?;
    Ok(List::from_vec(numbers.as_slice().to_vec(alloc)?))
}
