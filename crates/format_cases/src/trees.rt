//! Cases of masters that are read as trees (`tree`, `uint`, `int` and `text`).

ghost use Rattle.std.specs.Prelude.{IfOk};
ghost use Rattle.tree_format.specs.Node.{IsMaster};

use crate::case::Case;
use crate::{tell_damage, tell_octets};
use ebml_tree::{Tree, TreeEnd};
use mkv_io::Bytes;
use mkv_schema::is_master;
use std::alloc::{AllocError, Global};
use std::fmt::Write;

/// Greatest number of bytes of a master's data in a case.
const MAX_ITEMS: usize = 1000;

/// Reads the master with the ID `id` and the data `body`, of at most `nodes` Elements and 1000 bytes, as a tree. Its
/// header is at offset 95 and its data at 100. The test cases `tree`, `uint`, `int` and `text` use it.
fn master_of(alloc: Global, id: u32, body: &[u8], nodes: u32) -> Result<Tree, TreeEnd>
    ensures { IfOk result IsMaster }
{
    if !is_master(id) || body.len() > MAX_ITEMS {
        return Err(TreeEnd::Memory);
    }
    Tree::parse(alloc, id, 95, body, 100, nodes)
}

/// Appends to `text` the reason `end` why a master isn't read. The results of all cases with a master use it.
pub fn tell_end(end: TreeEnd, text: &mut String) -> Result<(), AllocError> {
    match end {
        TreeEnd::Damage(damage) => tell_damage(damage, text),
        TreeEnd::Memory => text.push_str("  no master\n"),
    }
}

/// Appends to `text` the result of the test case `word` for the master whose data the case has. The case's number is
/// the greatest number of Elements that it may have. It is the result of the test cases `tree`, `uint`, `int` and
/// `text`.
pub fn tell_master(
    alloc: Global,
    word: &str,
    case: &Case,
    text: &mut String,
) -> Result<(), AllocError> {
    let nodes = u32::try_from(case.number).unwrap_or(0);
    match master_of(alloc, case.id, case.octets.as_slice(), nodes) {
        Ok(tree) => tell_tree(alloc, word, &tree, text),
        Err(end) => tell_end(end, text),
    }
}

/// Appends to `text` the result of the test case `word` for `tree`: its normal form, or the value of its first child.
/// `tell_master` calls it.
fn tell_tree(alloc: Global, word: &str, tree: &Tree, text: &mut String) -> Result<(), AllocError> {
    match (word, tree.at(0)) {
        ("tree", _) => tell_normal_form(alloc, tree, text),
        ("uint", Some(child)) => tell_uint(child, text),
        ("int", Some(child)) => tell_int(child, text),
        ("text", Some(child)) => tell_text(child, text),
        _ => text.push_str("  no child\n"),
    }
}

/// Appends to `text` the depth of `tree`, the length of its normal form in bytes, and the bytes of a copy's normal
/// form. It is the result of a test case `tree`, which `tell` of the test program prints.
fn tell_normal_form(alloc: Global, tree: &Tree, text: &mut String) -> Result<(), AllocError> {
    write!(
        text,
        "  {} deep, {} octets:",
        tree.depth(),
        tree.written_len()
    )?;
    let copy = tree.copy(alloc)?;
    tell_written(alloc, &copy, text)
}

/// Appends to `text` the bytes of the normal form of `tree` in hexadecimal digits, and a line end, for the result of a
/// test case `tree`. `tell_master` calls it. Used by `tell_normal_form`.
fn tell_written(alloc: Global, tree: &Tree, text: &mut String) -> Result<(), AllocError> {
    let mut out = Bytes::new(alloc);
    tree.put(&mut out)?;
    tell_octets(out.as_slice(), text)?;
    text.push_str("\n")
}

/// Appends to `text` the value of `child` as an unsigned integer, unless it has more than 8 bytes. It is the result of
/// a test case `uint`, which `tell` of the test program prints.
fn tell_uint(child: &Tree, text: &mut String) -> Result<(), AllocError> {
    if child.body().len() > 8 {
        return text.push_str("  too long\n");
    }
    write!(text, "  {}\n", child.uint())
}

/// Appends to `text` the value of `child` as a signed integer, unless it has more than 8 bytes. It is the result of a
/// test case `int`, which `tell` of the test program prints.
fn tell_int(child: &Tree, text: &mut String) -> Result<(), AllocError> {
    if child.body().len() > 8 {
        return text.push_str("  too long\n");
    }
    write!(text, "  {}\n", child.int())
}

/// Appends to `text` the bytes of the text of `child` up to a zero byte, and all bytes of its data. It is the result of
/// a test case `text`, which `tell` of the test program prints.
fn tell_text(child: &Tree, text: &mut String) -> Result<(), AllocError> {
    text.push_str("  text")?;
    tell_octets(child.text(), text)?;
    text.push_str(" of")?;
    tell_octets(child.body(), text)?;
    text.push_str("\n")
}
