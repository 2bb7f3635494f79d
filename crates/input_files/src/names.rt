//! Recognition of the files that are read as SubRip

ghost use Rattle.std.specs.Prelude.{◌≡◌};
ghost use Rattle.input_files.specs.Names.{begins_ebml, is_srt_name};

/// First four bytes of an EBML header: its Element ID (RFC 8794, section 11.2.1, EBML)
const EBML_ID: [u8; 4] = [0x1A, 0x45, 0xDF, 0xA3];

/// Checks whether the file name `name` ends in `.srt`. Such a file is read as SubRip unless it begins with an EBML
/// header. For the choice of the reader of an input of `merge`.
pub fn is_srt_name(name: &str) -> bool
    ensures { result ≡ is_srt_name name.now }
{
    name.as_bytes().ends_with(b".srt")
}

/// Checks whether `first`, the first bytes of a file, begin with the ID of an EBML header. For the choice of the reader
/// of an input of `merge`.
pub fn begins_ebml(first: &[u8]) -> bool
    ensures { result ≡ begins_ebml first.now }
{
    first.starts_with(&EBML_ID)
}
