//! Laws on records that a reader with limits reads: RFC 8794, section 7.7 (Master Element).

ghost use Rattle.remerge_laws.specs.Placed.{RecordsSayTheSame};
ghost use Rattle.remerge_laws.specs.Trees.{AlikeRecordsCountAlike, SmallTreesAreRead};

/// States that a master that is read without limits, and keeps them, is the same if it is read with limits. It is a
/// step of the proof of `trees_are_read`.
pub fn small_trees_are_read()
    ensures { SmallTreesAreRead }
{}

/// States that two records with one ID that are written alike have equally many Elements, not counting Void and CRC-32.
/// The proof of `outputs_are_repeated` uses it for the limit on Elements.
pub fn alike_records_count_alike()
    ensures { AlikeRecordsCountAlike }
{}

/// States that the integers and texts in a record are the same after it was written and read. It is a law for readers
/// of the proof; no function cites it.
pub fn records_say_the_same()
    ensures { RecordsSayTheSame }
{}
