//! Laws on the tracks that a merge makes from its inputs: a merge of its own output leaves them unchanged. The
//! functions do nothing; their contracts are the laws.

ghost use Rattle.record_laws.specs.Again.{EncodingsStay, EntriesStay, TracksStay};
ghost use Rattle.record_laws.specs.Entries.{DifferencesAreTold, ReadEntriesAreWhole, SameElementsAreWrittenAlike};

/// Law: a TrackEntry that was written and read is written as it was. A promise to users; no code calls it.
pub fn entries_stay()
    ensures { EntriesStay }
{}

/// Law: a TrackEntry whose frames are taken as they are stored is written with its own ContentEncodings. A promise to
/// users; no code calls it.
pub fn encodings_stay()
    ensures { EncodingsStay }
{}

/// Law: the tracks of an output, merged again, are written as they were. The proofs about a repeated merge use it.
pub fn tracks_stay()
    ensures { TracksStay }
{}

/// Law: the entries of a Tracks Element that was read are valid, and each valid entry may be in one. A promise to
/// users; no code calls it.
pub fn read_entries_are_whole()
    ensures { ReadEntriesAreWhole }
{}

/// Law: two tracks have no first difference if and only if all fields that must be alike for appending are alike, and
/// so is what they keep of ContentEncodings. A promise to users; no code calls it.
pub fn differences_are_told()
    ensures { DifferencesAreTold }
{}

/// Law: Elements that are the same, as kept ContentEncodings are compared, are written as the same bytes. A promise to
/// users; no code calls it.
pub fn same_elements_are_written_alike()
    ensures { SameElementsAreWrittenAlike }
{}
