//! Laws on the input files of a merge while other files are written

ghost use Rattle.input_files.specs.Laws.{EndAsBegun, AreUnaffectedByWrites};

use mkv_io::Files;

/// States that input files stay open with their names and contents while files of other names are written. This is a
/// law, for `merge`, which writes its outputs while its inputs are open. Nothing calls it.
pub fn inputs_stand_over_writes<F: Files>()
    ensures { AreUnaffectedByWrites F.Reads F.Files.own }
{}

/// States that a merge leaves the open files as they were. If it opens input files, writes others, and closes the input
/// files, the same files are open as before. Each file whose name wasn't written is unchanged. This is a law, on a
/// whole `merge`. Nothing calls it.
pub fn inputs_end_as_begun<F: Files>()
    ensures { EndAsBegun F.Reads F.Files.own }
{}
