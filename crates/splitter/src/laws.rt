//! Laws about cutting an output into parts

ghost use Rattle.splitter.specs.Laws.{PartNamesAre, PartNamesDiffer, SectionsAreCut, SectionsGoOn, StepsJoin, WholeIsOnePart};

/// Law: the places of a merged list's blocks, decided block by block, give its written sections. A section has the
/// blocks between two cuts. So `merge`, which cuts while it reads, makes the parts that are defined for the whole list.
/// It is a promise to readers; no function cites it.
pub fn steps_join()
    ensures { StepsJoin }
{}

/// Law: each block of a merged list is in one section, and cuts are exactly between the sections. The first section
/// begins with the first block. So no block of a merge is lost or doubled by `--split`. It is a promise to readers; no
/// function cites it.
pub fn sections_are_cut()
    ensures { SectionsAreCut }
{}

/// Law: a section ends at the next cut, and the next section begins there. The definition of what `merge` has left to
/// write uses both. It is a promise to readers; no function cites it.
pub fn sections_go_on()
    ensures { SectionsGoOn }
{}

/// Law: an output without cuts is one part. So a merge without `--split` writes all its blocks unchanged. It is a
/// promise to readers; no function cites it.
pub fn whole_is_one_part()
    ensures { WholeIsOnePart }
{}

/// Law: the name of each part has the form of part names. So `merge` finds each name that a part could have before it
/// writes. It is a promise to readers; no function cites it.
pub fn part_names_are()
    ensures { PartNamesAre }
{}

/// Law: parts with different numbers have different names. So no part of a split overwrites another one. It is a
/// promise to readers; no function cites it.
pub fn part_names_differ()
    ensures { PartNamesDiffer }
{}
