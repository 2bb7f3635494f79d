//! The table of properties.

ghost use Rattle.std.specs.Prelude.{◌≡◌, IfSome, map};
ghost use Rattle.edit_changes.specs.Property as spec;
ghost use Rattle.edit_changes.specs.Properties.{IsPropertyOf, section_of, shown};

use crate::property::{Property, ValueKind};
use mkv_schema::ids::{
    CODEC_ID, DEFAULT_DURATION, FLAG_COMMENTARY, FLAG_DEFAULT, FLAG_ENABLED, FLAG_FORCED,
    FLAG_HEARING_IMPAIRED, FLAG_ORIGINAL, FLAG_TEXT_DESCRIPTIONS, FLAG_VISUAL_IMPAIRED, LANGUAGE,
    LANGUAGE_BCP47, MUXING_APP, NAME, SEGMENT_FILENAME, TITLE, WRITING_APP,
};

/// Property with its name on the command line.
#[derive(Clone, Copy)]
pub struct Row(pub &'static str, pub Property);

/// Properties of the Info that can be edited, after mkvpropedit
const INFO_TABLE: [Row; 4] = [
    Row(
        "title",
        Property {
            id: TITLE,
            kind: ValueKind::Words,
            deletable: true,
        },
    ),
    Row(
        "segment-filename",
        Property {
            id: SEGMENT_FILENAME,
            kind: ValueKind::Words,
            deletable: true,
        },
    ),
    Row(
        "muxing-application",
        Property {
            id: MUXING_APP,
            kind: ValueKind::Words,
            deletable: false,
        },
    ),
    Row(
        "writing-application",
        Property {
            id: WRITING_APP,
            kind: ValueKind::Words,
            deletable: false,
        },
    ),
];

/// Properties of a track that can be edited, after mkvpropedit
const TRACK_TABLE: [Row; 13] = [
    Row(
        "name",
        Property {
            id: NAME,
            kind: ValueKind::Words,
            deletable: true,
        },
    ),
    Row(
        "language",
        Property {
            id: LANGUAGE,
            kind: ValueKind::Language,
            deletable: true,
        },
    ),
    Row(
        "language-ietf",
        Property {
            id: LANGUAGE_BCP47,
            kind: ValueKind::LanguageTag,
            deletable: true,
        },
    ),
    Row(
        "codec-id",
        Property {
            id: CODEC_ID,
            kind: ValueKind::Codec,
            deletable: false,
        },
    ),
    Row(
        "default-duration",
        Property {
            id: DEFAULT_DURATION,
            kind: ValueKind::Duration,
            deletable: true,
        },
    ),
    Row(
        "flag-enabled",
        Property {
            id: FLAG_ENABLED,
            kind: ValueKind::Flag,
            deletable: true,
        },
    ),
    Row(
        "flag-default",
        Property {
            id: FLAG_DEFAULT,
            kind: ValueKind::Flag,
            deletable: true,
        },
    ),
    Row(
        "flag-forced",
        Property {
            id: FLAG_FORCED,
            kind: ValueKind::Flag,
            deletable: true,
        },
    ),
    Row(
        "flag-hearing-impaired",
        Property {
            id: FLAG_HEARING_IMPAIRED,
            kind: ValueKind::Flag,
            deletable: true,
        },
    ),
    Row(
        "flag-visual-impaired",
        Property {
            id: FLAG_VISUAL_IMPAIRED,
            kind: ValueKind::Flag,
            deletable: true,
        },
    ),
    Row(
        "flag-text-descriptions",
        Property {
            id: FLAG_TEXT_DESCRIPTIONS,
            kind: ValueKind::Flag,
            deletable: true,
        },
    ),
    Row(
        "flag-original",
        Property {
            id: FLAG_ORIGINAL,
            kind: ValueKind::Flag,
            deletable: true,
        },
    ),
    Row(
        "flag-commentary",
        Property {
            id: FLAG_COMMENTARY,
            kind: ValueKind::Flag,
            deletable: true,
        },
    ),
];

/// Returns the table of the Info's properties if `info` is true, or else of a track's, for `property_of`.
fn table(info: bool) -> &'static [Row]
    ensures { map shown result.now ≡ spec.table_of info }
{
    if info { &INFO_TABLE } else { &TRACK_TABLE }
}

/// Returns the property with the name `name` in the table `rows`, or None if it has no such name, for `property_of`.
fn row_of(rows: &[Row], name: &str) -> Option<Property>
    ensures { result ≡ spec.in_table name.now (map shown rows.now) }
{
    for row in rows {
        if name == row.0 {
            return Some(row.1);
        }
    }
    None
}

/// Returns the property that an edit names: the Info's if `info` is true, or else a track's, with the name `name`. It
/// is None for an unknown name. `apply` calls it for each edit.
#[tactic(auto, unfolding(crate::specs::Property::property_of), using(crate::proofs::PropertyLemmas::properties))]
pub fn property_of(info: bool, name: &str) -> Option<Property>
    ensures exact { result ≡ spec.property_of info name.now }
    ensures stands { IfSome result (IsPropertyOf (section_of info)) }
{
    row_of(table(info), name)
}
