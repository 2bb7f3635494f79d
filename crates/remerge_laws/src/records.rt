//! Laws on attached files, Chapters and Tags that a merge changed: RFC 9559, sections 5.1.6 (Attachments Element),
//! 5.1.7 (Chapters Element) and 5.1.8 (Tags Element).

ghost use Rattle.remerge_laws.specs.Changed.{ChaptersStand, ChildrenDecide, TagsStand};
ghost use Rattle.remerge_laws.specs.Joined.{JoinedTagsStay};
ghost use Rattle.remerge_laws.specs.OwnChapters.{OwnChaptersStay};
ghost use Rattle.remerge_laws.specs.OwnFiles.{OwnFilesStay};

use record_laws::{chapters_stay, tags_stay};

/// States that Chapters stay valid, and aren't deeper, if a merge replaces their EditionUIDs and ChapterUIDs by others
/// of 64 bits. It is a step of the proof of `outputs_are_repeated`.
pub fn chapters_stand()
    ensures { ChaptersStand }
{}

/// States that Tags stay valid, and aren't deeper, if a merge leaves some out and gives their Targets other identifiers
/// of 64 bits. It is a step of the proof of `outputs_are_repeated`.
pub fn tags_stand()
    ensures { TagsStand }
{}

/// States that only the children of Chapters decide on their identifiers and bytes in an output: a Chapters Element
/// built of the same children has the same. It is a step of the proof of `chapters_are_alike_again`.
pub fn children_decide()
    ensures { ChildrenDecide }
{}

/// States that Tags of several inputs, in one Tags Element, are written as they were if their Targets keep their
/// identifiers. It is a step of the proof of `tags_are_alike_again`.
pub fn joined_tags_stay()
    ensures { JoinedTagsStay }
{
    tags_stay();
}

/// States that the Chapters that are read from an output keep their identifiers, and are written as they were. It is a
/// step of the proof of `chapters_are_alike_again`.
pub fn own_chapters_stay()
    ensures { OwnChaptersStay }
{
    chapters_stay();
}

/// States that the attached files that are read from an output keep their FileUIDs, and are written as they were. It is
/// a step of the proof of `attached_files_stay`.
pub fn own_files_stay()
    ensures { OwnFilesStay }
{}
