#![tactic(auto)]

//! Laws: the outputs of a merge can be read and hold the merge, and the lengths of its inputs bound what it reads. See
//! RFC 8794, section 8 (EBML Document), and RFC 9559, sections 5.1 (Segment Element) and 10 (Cluster Blocks). No code
//! that reads or writes depends on this crate.

ghost use Rattle.merge_laws.specs.Attached.{AttachedFilesAreWhole};
ghost use Rattle.merge_laws.specs.Bound.{OnlyAppendingWalks, ReadsAreBounded};
ghost use Rattle.merge_laws.specs.Order.{OrdersKeepTracks, OwnOrdersChangeNothing};
ghost use Rattle.merge_laws.specs.Laws.{DamagedLanesGoOn, LayoutsHoldOutputs, MergedDocumentsAreSound, SelectedBlocksAreSound, SourcesAreRead, UndamagedLanesStay, WholeMergesAreOne};

/// Law: if all files consist of bytes, the contents of the sources of `merge` do, and their tracks can be written. The
/// proofs about a repeated merge use it.
pub fn sources_are_read()
    ensures { SourcesAreRead }
{}

/// Law: every block of a selected track of a merge can be written as a SimpleBlock or BlockGroup. A promise to users;
/// no code calls it.
pub fn selected_blocks_are_sound()
    ensures { SelectedBlocksAreSound }
{}

/// Law: the document of each output of `merge` can be written and read again, if the output has at most 2^48 bytes. The
/// proof that a repeated merge gives the same bytes uses it.
pub fn merged_documents_are_sound()
    ensures { MergedDocumentsAreSound }
{}

/// Law: a merge without `--split` has one output, with the name and all blocks of the merge. A promise to users; no
/// code calls it.
pub fn whole_merges_are_one()
    ensures { WholeMergesAreOne }
{}

/// Law: the bytes of each output of `merge`, read by the format's definition, have the tracks, blocks and records that
/// the merge gives it. The output must have at most 2^48 bytes. The proof that a repeated merge gives the same bytes
/// uses it.
pub fn layouts_hold_outputs()
    ensures { LayoutsHoldOutputs }
{}

/// Law: if damage ends the reading of no input, `--append-damaged` changes no output track of `merge`. A promise to
/// users; no code calls it.
pub fn undamaged_lanes_stay()
    ensures { UndamagedLanesStay }
{}

/// Law: with `--append-damaged` an output track of `merge` has all blocks of all inputs that continue it, even after a
/// damaged input. A promise to users; no code calls it.
pub fn damaged_lanes_go_on()
    ensures { DamagedLanesGoOn }
{}

/// Law: `--attach-file` adds the files, whole, to the Attachments of `merge`, after the attached files of its inputs. It
/// changes nothing else of what is written. A promise to users; no code calls it.
pub fn attached_files_are_whole()
    ensures { AttachedFilesAreWhole }
{}

/// Law: `--track-order` changes only the order of the output tracks of `merge`. Each is there once, with its blocks and
/// the track that begins it. A promise to users; no code calls it.
pub fn orders_keep_tracks()
    ensures { OrdersKeepTracks }
{}

/// Law: if `--track-order` names the output tracks of `merge` as they are without it, or a part of them from the front,
/// no output track changes. A promise to users; no code calls it.
pub fn own_orders_change_nothing()
    ensures { OwnOrdersChangeNothing }
{}

/// Law: `merge` reads at most 16 times the sum of its inputs' lengths for each output track, and 48 times this sum
/// besides. It adds at most 1 MiB, and each text file once, all in bytes. The page PROVED cites it.
pub fn reads_are_bounded_by_lengths()
    ensures { ReadsAreBounded }
{}

/// Law: a merge that appends no file walks none to its end before the blocks. It reads its inputs at most 25 times, and
/// twice for each output track. The page PROVED cites it.
pub fn only_appending_walks()
    ensures { OnlyAppendingWalks }
{}
