//! The open files of the system, by number. A number is an index into a list, and closing a file leaves its entry
//! empty.

ghost use Rattle.std.specs.Prelude.{◌≡◌, ◌≢◌, ℕ, ◌+◌, ◌<◌, ◌≤◌, [], ◌∷◌, ◌++◌, length, Some, is_some, vec_capacity, IfOk, OnOk, IsTrue};
ghost use Rattle.mkv_host.specs.Opened.{holder_in, is_node, opened_at, size_at};
ghost use Rattle.std.specs.List.{list_any};
ghost use Rattle.mkv_io.specs.declared.outside.TheConstants.{LONGEST_FILE};

use crate::opened::Opened;
use crate::system::Node;
use mkv_io::{FileId, Text};
use std::alloc::{AllocError, Global};

/// Returns a copy of `name` for a file that will be opened or created. It reserves room for the file in `opened` and
/// for its identity in `seen`, so that nothing can fail after the file is opened. `open_file` and `create` call it
/// first.
pub fn prepare(
    opened: &mut Vec<Option<Opened>>,
    seen: &mut Vec<Node>,
    alloc: Global,
    name: &str,
) -> Result<Text, AllocError>
    ensures same { opened.new.items ≡ opened.old.items }
    ensures seen { seen.new.items ≡ seen.old.items }
    ensures room { OnOk result (length opened.new.items < vec_capacity opened.new) }
    ensures seen_room { OnOk result (length seen.new.items < vec_capacity seen.new) }
    ensures name { IfOk result (λ holder. holder ≡ name.now) }
{
    let mut holder = Text::new(alloc);
    holder.append(name)?;
    opened.reserve(1)?;
    seen.reserve(1)?;
    Ok(holder)
}

/// Adds the file `one`, for which `prepare` has reserved room, to `opened`, and returns its number. `open_file` and
/// `create` call it last. Its identity stays in `seen` after it is closed.
pub fn add(opened: &mut Vec<Option<Opened>>, seen: &mut Vec<Node>, one: Opened) -> FileId
    requires room { length opened.old.items < vec_capacity opened.old }
    requires seen_room { length seen.old.items < vec_capacity seen.old }
    ensures number { result.n ≡ length opened.old.items }
    ensures added { opened.new.items ≡ opened.old.items ++ Some one ∷ [] }
    ensures seen { seen.new.items ≡ seen.old.items ++ one.node ∷ [] }
{
    let number = opened.len() as u64;
    seen.push(one.node).unwrap();
    opened.push(Some(one)).unwrap();
    FileId { n: number }
}

/// Returns the open file with the number `file` in `opened`. Each call on an open file begins with it.
pub fn open_at(opened: &Vec<Option<Opened>>, file: FileId) -> &Opened
    requires { IsTrue (is_some (opened_at opened.now.items file.n)) }
    ensures { opened_at opened.now.items file.n ≡ Some result.now }
{
    match opened.get(file.n as usize) {
        Some(Some(open)) => open,
        _ => unreachable!(),
    }
}

/// Checks whether the file with the identity `node` is in `seen`: it was opened or created before, under any name. Such
/// a file can't be an output.
pub fn is_seen(seen: &Vec<Node>, node: Node) -> bool
    ensures { result ≡ list_any (is_node node) seen.now.items }
{
    seen.iter().any(|one| *one == node)
}

/// Adds `count` bytes to the noted length of the open file `file` in `opened`. `append` does this after it has written.
pub fn lengthen(opened: &mut Vec<Option<Opened>>, file: FileId, count: u64)
    requires live { IsTrue (is_some (opened_at opened.old.items file.n)) }
    requires room { size_at opened.old.items file.n + count ≤ LONGEST_FILE }
    ensures length { length opened.new.items ≡ length opened.old.items }
    ensures alive { (other : ℕ) → is_some (opened_at opened.new.items other) ≡ is_some (opened_at opened.old.items other) }
    ensures names { (other : ℕ) → holder_in opened.new.items other ≡ holder_in opened.old.items other }
    ensures size { size_at opened.new.items file.n ≡ size_at opened.old.items file.n + count }
    ensures others { (other : ℕ) → other ≢ file.n → size_at opened.new.items other ≡ size_at opened.old.items other }
{
    if let Some(open) = &mut opened[file.n as usize] {
        open.size += count;
    }
}
