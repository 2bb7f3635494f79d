//! Laws on outputs that a reader with limits reads: RFC 8794, section 8 (EBML Document), and RFC 9559, section 5.1
//! (Segment Element).

ghost use Rattle.remerge_laws.specs.Alike.{AlikeDocumentsAreOne};
ghost use Rattle.remerge_laws.specs.AsRead.{DocumentsAreWrittenAsRead};
ghost use Rattle.remerge_laws.specs.Blocks.{LimitsLeaveBlocks, OutputBlocksAreRead};
ghost use Rattle.remerge_laws.specs.Files.{FilesAreRead};
ghost use Rattle.remerge_laws.specs.Limits.{OctetsKeepLimits};
ghost use Rattle.remerge_laws.specs.Outline.{OutlinesAreRead};
ghost use Rattle.remerge_laws.specs.Records.{OutputsAreReadWithLimits, TreesAreRead};

/// States that a reader with limits finds the outline of an output: its Segment and the Elements in it. The output's
/// Info, Tracks, Chapters and Tags must keep the limits. It is a step of the proof of `outputs_are_read_with_limits`.
pub fn outlines_are_read()
    ensures { OutlinesAreRead }
{}

/// States that a reader with limits finds Info, Tracks, Chapters and Tags of an output, each with the Elements that
/// were written, if each of them keeps the limits. It is a step of the proof of `outputs_are_read_with_limits`.
pub fn trees_are_read()
    ensures { TreesAreRead }
{}

/// States that a reader with limits finds the attached files of an output whose Attachments keeps the limits. It is a
/// step of the proof of `outputs_are_read_with_limits`.
pub fn files_are_read()
    ensures { FilesAreRead }
{}

/// States that a reader with limits reads an output that keeps the limits as the document that was written. It is a
/// step of the proof of `outputs_are_repeated`, and of the laws of `generate`.
pub fn outputs_are_read_with_limits()
    ensures { OutputsAreReadWithLimits }
{}

/// States that an output keeps a reader's limits if its bytes do, its Info has at most 65,536 Elements, and its Tracks,
/// Chapters and Tags keep the limits. It is a step of the proof of `outputs_are_repeated`.
pub fn octets_keep_limits()
    ensures { OctetsKeepLimits }
{}

/// States that the blocks of a file that is read without limits and without damage are the same with limits. Each block
/// must have at most 32 MiB, at most 64 references, and times that aren't too large for a reader. It is a step of the
/// proof of `output_blocks_are_read`.
pub fn limits_leave_blocks()
    ensures { LimitsLeaveBlocks }
{}

/// States that the blocks of an output are the same with and without limits if its Info keeps the limits. Each block
/// must have at most 32 MiB, at most 64 references, and times that aren't too large for a reader. It is a step of the
/// proof of the laws of `generate`.
pub fn output_blocks_are_read()
    ensures { OutputBlocksAreRead }
{}

/// States that documents of one DocType whose records are written alike, with the same Clusters and cue points, have
/// the same bytes. It is a step of the proof of `outputs_are_repeated`.
pub fn alike_documents_are_one()
    ensures { AlikeDocumentsAreOne }
{}

/// States that a valid document with a Duration above 0 has the bytes of a valid document with that Duration among the
/// children of its Info, as a reader finds it. So laws on what a reader finds hold for it, too. It serves
/// `outputs_are_repeated`.
pub fn documents_are_written_as_read()
    ensures { DocumentsAreWrittenAsRead }
{}
