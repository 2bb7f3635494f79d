//! Written texts are read back. No code that reads or writes depends on this crate.

ghost use Rattle.record_laws.specs.SimpleChapters.{ChaptersAreReadBack};
ghost use Rattle.record_laws.specs.SubRip.{EntriesAreReadBack};

/// Law: SubRip entries that `put_srt` writes are read back, if each is plain. A promise to users; no code calls it.
pub fn entries_are_read_back()
    ensures { EntriesAreReadBack }
{}

/// Law: simple chapters that `put_pair` writes are read back, if each is plain. A promise to users; no code calls it.
pub fn chapters_are_read_back()
    ensures { ChaptersAreReadBack }
{}
