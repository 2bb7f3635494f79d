//! Laws on records that a merge wrote and that are merged again: they keep their identifiers, and are written as they
//! were. No reader or writer depends on this crate. The functions do nothing; their contracts are the laws.

ghost use Rattle.record_laws.specs.Chapters.{ChaptersStay};
ghost use Rattle.record_laws.specs.Files.{FilesStay};
ghost use Rattle.record_laws.specs.Statistics.{StatisticsAreLeftOut};
ghost use Rattle.record_laws.specs.Tags.{TagsStay};

/// Law: chapters with the identifiers of a merge, once written and read, have the same identifiers and are written as
/// they were. The proofs about a repeated merge use it.
pub fn chapters_stay()
    ensures { ChaptersStay }
{}

/// Law: entries of attached files keep their FileUIDs and are written as they were, if they are merged again. Their
/// data isn't part of this law. A promise to users; no code calls it.
pub fn files_stay()
    ensures { FilesStay }
{}

/// Law: Tags whose targets keep their identifiers are written as they were, if they are merged again. The proofs about
/// a repeated merge use it.
pub fn tags_stay()
    ensures { TagsStay }
{}

/// Law: Tags without their statistics have none of the three names of statistics left, and Tags without such a name are
/// unchanged. The page PROVED cites it.
pub fn statistics_are_left_out()
    ensures { StatisticsAreLeftOut }
{}
