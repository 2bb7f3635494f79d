//! Laws on merges: output tracks are kept, and outputs can be read. See RFC 9559, sections 10 (Cluster Blocks) and 11
//! (Timestamps). No code that reads or writes depends on this crate.

ghost use Rattle.output_laws.specs.Merges.{BlocksAreReadInOrder, ClustersAreCut, ClustersAreCutAgain, ClustersHoldAll, FileBlocksAreRead, FoundBlocksAreOfTheirKind, LanesAreKept, LanesAreReadAgain, MergedClustersAreSound, MergedIsInOrder, PlacedBlocksAreSound, TicksAreKept};

/// Law: the merged list, which `merge` writes, has the blocks of each output track, each once and in order. It is a
/// promise to readers; no function cites it.
pub fn lanes_are_kept()
    ensures { LanesAreKept }
{}

/// Law: the merged list, which `merge` writes, is in order: by order number in ticks, then by output track, then by
/// place on the track. It is a promise to readers; no function cites it.
pub fn merged_is_in_order()
    ensures { MergedIsInOrder }
{}

/// Law: the Clusters that `merge` divides its blocks into hold all of them, in order. The laws on `merge` build on it.
pub fn clusters_hold_all()
    ensures { ClustersHoldAll }
{}

/// Law: `merge` ends a Cluster if and only if the next block may not join it within the limits of a Cluster. It is a
/// promise to readers; no function cites it.
pub fn clusters_are_cut()
    ensures { ClustersAreCut }
{}

/// Law: a block that the definitions of blocks find in a file has only fields of its kind (SimpleBlock or BlockGroup),
/// and its kept children can be written. It is a promise to readers; no function cites it.
pub fn found_blocks_are_of_their_kind()
    ensures { FoundBlocksAreOfTheirKind }
{}

/// Law: each block that a reader with limits finds in a file is within these limits, and valid for its kind
/// (SimpleBlock or BlockGroup). The laws on `merge` build on it, for the blocks of an input.
pub fn file_blocks_are_read()
    ensures { FileBlocksAreRead }
{}

/// Law: a block that a reader with limits finds in an input can be written and read back as `merge` places it in an
/// output. The laws on `merge` build on it.
pub fn placed_blocks_are_sound()
    ensures { PlacedBlocksAreSound }
{}

/// Law: if the blocks of the output tracks can be written, so can the Clusters that `merge` makes from them. It is a
/// promise to readers; no function cites it.
pub fn merged_clusters_are_sound()
    ensures { MergedClustersAreSound }
{}

/// Law: a block that was written, and read at the output's own ticks, is written as before. The laws on a repeated
/// merge build on it.
pub fn ticks_are_kept()
    ensures { TicksAreKept }
{}

/// Law: the blocks of an output are read in the order of the merged list that it was written from. The laws on
/// generated files build on it.
pub fn blocks_are_read_in_order()
    ensures { BlocksAreReadInOrder }
{}

/// Law: the tracks of an output that is read again are the output tracks that were merged into it. The laws on a
/// repeated merge call it.
pub fn lanes_are_read_again()
    ensures { LanesAreReadAgain }
{}

/// Law: an output that is merged again, without options and with the same limits, is divided into the same Clusters.
/// Nothing calls a law; a repeated merge is treated in `remerge_laws`.
pub fn clusters_are_cut_again()
    ensures { ClustersAreCutAgain }
{}
