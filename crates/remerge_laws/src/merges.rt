//! Laws on the output of a merge that is merged again by itself: RFC 9559, section 5.1 (Segment Element).

ghost use Rattle.remerge_laws.specs.Again.{TagsAreAlikeAgain};
ghost use Rattle.remerge_laws.specs.AgainChapters.{ChaptersAreAlikeAgain};
ghost use Rattle.remerge_laws.specs.AgainFiles.{AttachedFilesStay};
ghost use Rattle.remerge_laws.specs.AgainInfo.{InfoIsWrittenAgain};
ghost use Rattle.remerge_laws.specs.AgainLanes.{LanesAreMergedAgain};
ghost use Rattle.remerge_laws.specs.AgainSources.{MergeIsDone, OutputsAreSources};
ghost use Rattle.remerge_laws.specs.AgainTracks.{EntriesAreWrittenAgain, TracksAreTakenAgain};
ghost use Rattle.remerge_laws.specs.MergedAgain.{MergedFilesAreOutputs, OutputsAreWrittenAgain};
ghost use Rattle.remerge_laws.specs.Named.{JoinedTagsNameTheOutput};
ghost use Rattle.remerge_laws.specs.PlainSources.{SourcesArePlain};
ghost use Rattle.remerge_laws.specs.Repeat.{OutputsAreRepeated};
ghost use Rattle.remerge_laws.specs.Whole.{WholeMergesHaveSmallRecords, WholeMergesHaveOneDocument};

use merge_laws::{layouts_hold_outputs, merged_documents_are_sound, sources_are_read};
use output_laws::lanes_are_read_again;
use record_laws::{chapters_stay, tags_stay, tracks_stay};
use word_laws::titles_are_texts;

/// States that a merge without `--split` and `--segment-uid` has one output with one document.
/// `merged_files_are_outputs` cites this law, and the proof of `outputs_are_repeated` uses it.
pub fn whole_merges_have_one_document()
    ensures { WholeMergesHaveOneDocument }
{}

/// States that the Info, Tracks, Chapters and Tags of a merge's output keep a reader's limits. The merge must have no
/// `--split`, `--segment-uid` or `--duration`, and its plan must not be refused. It is a step of the proof of
/// `outputs_are_repeated`.
pub fn whole_merges_have_small_records()
    ensures { WholeMergesHaveSmallRecords }
{}

/// States that the Targets in the Tags of a merge's output name only tracks, editions, chapters and attached files that
/// the output has. Its identifiers must have 64 bits. It is a step of the proof of `tags_are_alike_again`.
pub fn joined_tags_name_the_output()
    ensures { JoinedTagsNameTheOutput }
{}

/// States that an output with the identifiers that its merge gave has the same Tags after it is merged by itself. It is
/// a step of the proof of `outputs_are_repeated`.
pub fn tags_are_alike_again()
    ensures { TagsAreAlikeAgain }
{
    tags_stay();
}

/// States that an output keeps its attached files, with their FileUIDs, if it is merged by itself. It is a step of the
/// proof of `outputs_are_repeated`.
pub fn attached_files_stay()
    ensures { AttachedFilesStay }
{}

/// States that an output that is merged by itself gives the same blocks on each output track, and that no damage is met
/// in it. It is a step of the proofs of `outputs_are_repeated` and of the laws of `generate`.
pub fn lanes_are_merged_again()
    ensures { LanesAreMergedAgain }
{
    lanes_are_read_again();
}

/// States that a merge without options selects all tracks of an output, and that their options change nothing. It is a
/// step of the proof of `outputs_are_repeated`.
pub fn tracks_are_taken_again()
    ensures { TracksAreTakenAgain }
{}

/// States that the TrackEntries of an output are written byte for byte as they were if it is merged by itself and
/// without options. They must be numbered from 1, of types that a merge selects, and without ContentEncodings, and
/// their TrackUIDs must have 64 bits. It is a step of the proof of `outputs_are_repeated`.
pub fn entries_are_written_again()
    ensures { EntriesAreWrittenAgain }
{
    tracks_stay();
}

/// States that an output keeps its Chapters, with their identifiers, if it is merged by itself. It is a step of the
/// proof of `outputs_are_repeated`.
pub fn chapters_are_alike_again()
    ensures { ChaptersAreAlikeAgain }
{
    chapters_stay();
}

/// States that an output keeps its Info, apart from the Duration, if it is merged by itself. Both merges must have the
/// default scale, and the title no zero byte. It is a step of the proof of `outputs_are_repeated`.
pub fn info_is_written_again()
    ensures { InfoIsWrittenAgain }
{}

/// States that the sources of a merge with default options are plain, if the contents of files are bytes. Plain means
/// that only the types of their tracks decide on cue points, and that the title has no zero byte.
/// `outputs_are_written_again` cites this law.
pub fn sources_are_plain()
    ensures { SourcesArePlain }
{
    titles_are_texts();
    sources_are_read();
}

/// States that an output of plain sources that keeps a reader's limits is written as it was, byte for byte. It is
/// merged by itself and without options, or with `--duration` if the first merge had that. The plan isn't refused.
/// `outputs_are_written_again` cites this law.
pub fn outputs_are_repeated()
    ensures { OutputsAreRepeated }
{
    tracks_stay();
    chapters_stay();
    tags_stay();
    lanes_are_read_again();
    merged_documents_are_sound();
    layouts_hold_outputs();
}

/// States that an output that is merged by itself and without options is the one source of that merge, if nothing
/// refuses it. `outputs_are_written_again` cites this law.
pub fn outputs_are_sources()
    ensures { OutputsAreSources }
{}

/// States that a merge without options of one source without damage ends without a warning, with the status Done.
/// `outputs_are_written_again` cites this law.
pub fn merge_is_done()
    ensures { MergeIsDone }
{}

/// States that a merge with default options leaves, under its output's name, a file to which
/// `outputs_are_written_again` applies. The contents of all files must have been bytes before. It is a law for readers
/// of the proof; no function cites it.
pub fn merged_files_are_outputs()
    ensures { MergedFilesAreOutputs }
{
    whole_merges_have_one_document();
}

/// States that the output of a merge with default options is written again byte for byte if it is merged by itself and
/// without options. Both merges have `--duration`, with which the output must end after tick 0, or neither. Its records
/// must keep a reader's limits, and nothing may refuse the second merge before it reads the file. `run` cites this law.
pub fn outputs_are_written_again()
    ensures { OutputsAreWrittenAgain }
{
    sources_are_read();
    sources_are_plain();
    outputs_are_repeated();
    outputs_are_sources();
    merge_is_done();
}
