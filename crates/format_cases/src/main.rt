#![tactic(auto)]

//! A test program: it prints the results of cases from standard input. A line has a case: a word for a call, an ID, a
//! number and bytes, each `-` if the call takes none. Each line is printed, and the result of its case follows.

use mkv_io::Damage;
use std::alloc::{AllocError, Global};
use std::fmt::Write;
use std::io;

mod blocks;
mod case;
mod checksums;
mod files;
mod level_one;
mod numbers;
mod tracks;
mod trees;

use case::Case;

/// Appends `damage`, a damaged place, to `text`: its kind, ID and offset in the file, in bytes. The results of cases
/// use it.
fn tell_damage(damage: Damage, text: &mut String) -> Result<(), AllocError> {
    let kind = damage.kind;
    let id = damage.id;
    let offset = damage.offset;
    write!(text, "  {kind:?} {id:X} {offset}\n")
}

/// Appends the bytes `octets` in hexadecimal digits to `text`, each after a space. The results of cases use it.
fn tell_octets(octets: &[u8], text: &mut String) -> Result<(), AllocError> {
    for octet in octets {
        write!(text, " {octet:02X}")?;
    }
    Ok(())
}

/// Appends to `text` the result of `case`, in lines, for the call that `word` names. An unknown word has none. `answer`
/// calls it.
fn tell(alloc: Global, word: &str, case: &Case, text: &mut String) -> Result<(), AllocError> {
    match word {
        "element" => numbers::tell_element(case, text),
        "row" => numbers::tell_row(case, text),
        "crc32" => checksums::tell_checksum(case, text),
        "tree" | "uint" | "int" | "text" => trees::tell_master(alloc, word, case, text),
        "info" => tracks::tell_info(alloc, case, text),
        "tracks" => tracks::tell_tracks(alloc, case, text),
        "usable" => tracks::tell_usable(alloc, case, text),
        "level1" | "blocks" => files::tell_file(alloc, word, case, text),
        _ => Ok(()),
    }
}

/// Returns the result of the case in `line`, as text in lines. `main` prints it. Fails only without memory.
fn answer(alloc: Global, line: &str) -> Result<String, AllocError> {
    let mut text = String::new(alloc);
    let case = Case::read(alloc, line)?;
    tell(alloc, case::word_of(line), &case, &mut text)?;
    Ok(text)
}

/// Reads cases, each in a line of standard input, and prints each line and then the result of its case. It is the
/// program.
fn main(rt: HostRuntime) -> io::Result<()> {
    for line in rt.lines(rt.alloc()) {
        let line = line?;
        println!(rt; "{line}")?;
        let text = answer(rt.alloc(), line.as_str())?;
        print!(rt; "{text}")?;
    }
    Ok(())
}
