//! The order of output tracks.

ghost use Rattle.std.specs.Prelude.{◌≡◌, ◌++◌, IfOk, OnOk};
ghost use Rattle.merge_plan.specs.Order.{in_order, names, names_other, picked};

use std::alloc::{AllocError, Global};

/// Checks whether `pair` names the output track that the track `key` begins. Both are the index of an input and the
/// index of a track in its Tracks. `parted` calls it for each item.
fn names(pair: (u64, u64), key: (u64, u64)) -> bool
    ensures { result ≡ names pair key }
{
    pair.0 == key.0 && pair.1 == key.1
}

/// Divides `items` into those that `pair` names and the others. `keys` has a key for each item. `in_order` calls it for
/// each pair.
fn parted<T: Drop>(
    alloc: Global,
    pair: (u64, u64),
    keys: &[(u64, u64)],
    items: Vec<T>,
) -> Result<(Vec<T>, Vec<T>), AllocError>
    ensures named { IfOk result (λ both. both.0.items ≡ picked (names pair) keys.now items.items) }
    ensures others { IfOk result (λ both. both.1.items ≡ picked (names_other pair) keys.now items.items) }
{
    let mut named = Vec::new(alloc);
    let mut others = Vec::new(alloc);
    for (k, item) in items.into_iter().enumerate() {
        if k < keys.len() {
            if names(pair, keys[k]) {
                named.push(item)?;
            } else {
                others.push(item)?;
            }
        }
    }
    Ok((named, others))
}

/// Appends `more` to `items`. `in_order` calls it.
fn append<T: Drop>(items: &mut Vec<T>, more: Vec<T>) -> Result<(), AllocError>
    ensures { OnOk result (items.new.items ≡ items.old.items ++ more.items) }
{
    for item in more {
        items.push(item)?;
    }
    Ok(())
}

/// Returns those of `keys` whose output tracks `pair` doesn't name. `in_order` calls it for each pair.
fn other_keys(
    alloc: Global,
    pair: (u64, u64),
    keys: &[(u64, u64)],
) -> Result<Vec<(u64, u64)>, AllocError>
    ensures { IfOk result (λ others. others.items ≡ picked (names_other pair) keys.now keys.now) }
{
    let mut others = Vec::new(alloc);
    for key in keys {
        if !names(pair, *key) {
            others.push(*key)?;
        }
    }
    Ok(others)
}

/// Returns `items` in the order that the pairs `order` give: first the items that the first pair names, then those of
/// the next pairs, and last the others. `keys` has a key for each item. The plan of a merge calls it for each list of
/// its output tracks.
pub(crate) fn in_order<T: Drop>(
    alloc: Global,
    order: &[(u64, u64)],
    keys: &[(u64, u64)],
    items: Vec<T>,
) -> Result<Vec<T>, AllocError>
    ensures { IfOk result (λ sorted. sorted.items ≡ in_order order.now keys.now items.items) }
{
    let mut first = Vec::new(alloc);
    let mut left = items;
    let mut left_keys = Vec::from_slice(alloc, keys)?;
    for pair in order {
        let (named, others) = parted(alloc, *pair, left_keys.as_slice(), left)?;
        append(&mut first, named)?;
        left = others;
        left_keys = other_keys(alloc, *pair, left_keys.as_slice())?;
    }
    append(&mut first, left)?;
    Ok(first)
}
