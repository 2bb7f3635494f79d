//! The table of Elements, in the order of RFC 8794 and RFC 9559.
ghost use Rattle.std.specs.Prelude.{◌≡◌, ◌==◌, find, map};
ghost use Rattle.mkv_schema.specs.Schema.{entry_of};
ghost use Rattle.mkv_schema.specs.View.{shown, seen};

use self::DefaultValue::{Number, Text};
use crate::ids::*;
use crate::kind::ElementKind::{Ascii, Binary, Float, Int, Master, Uint, Utf8};
use crate::kind::Row;
use crate::parents::Parents::{self, AnyMaster, ChildOf, ChildOfOrItself, Root};

/// Default: the value of an Element that is missing. A number is the value of an empty integer too; an empty text has
/// no bytes.
#[derive(Clone, Copy)]
pub enum DefaultValue {
    Number(u64),
    Text(&'static str),
}

/// Definition of an Element, with its parents and its default.
#[derive(Clone, Copy)]
pub struct Entry {
    pub row: Row,
    pub parents: Parents,
    pub default: Option<DefaultValue>,
}

macro_rules! entry {
    ($name:expr, $id:expr, $kind:expr, $parents:expr) => {
        Entry { row: Row { id: $id, name: $name, kind: $kind }, parents: $parents, default: None }
    };
    ($name:expr, $id:expr, $kind:expr, $parents:expr, $default:expr) => {
        Entry { row: Row { id: $id, name: $name, kind: $kind }, parents: $parents, default: Some($default) }
    };
}

#[rattlefmt::skip]
static TABLE: [Entry; 107] = [
    // EBML Header Elements (RFC 8794, section 11.2)
    entry!("EBML",                 EBML,                   Master, Root),
    entry!("EBMLVersion",          EBML_VERSION,           Uint,   ChildOf(EBML), Number(1)),
    entry!("EBMLReadVersion",      EBML_READ_VERSION,      Uint,   ChildOf(EBML), Number(1)),
    entry!("EBMLMaxIDLength",      EBML_MAX_ID_LENGTH,     Uint,   ChildOf(EBML), Number(4)),
    entry!("EBMLMaxSizeLength",    EBML_MAX_SIZE_LENGTH,   Uint,   ChildOf(EBML), Number(8)),
    entry!("DocType",              DOC_TYPE,               Ascii,  ChildOf(EBML)),
    entry!("DocTypeVersion",       DOC_TYPE_VERSION,       Uint,   ChildOf(EBML), Number(1)),
    entry!("DocTypeReadVersion",   DOC_TYPE_READ_VERSION,  Uint,   ChildOf(EBML), Number(1)),
    // Global Elements (RFC 8794, section 11.3)
    entry!("CRC-32",               CRC_32,                 Binary, AnyMaster),
    entry!("Void",                 VOID,                   Binary, AnyMaster),
    // Segment Element (RFC 9559, section 5.1)
    entry!("Segment",              SEGMENT,                Master, Root),
    // SeekHead Element (RFC 9559, section 5.1.1)
    entry!("SeekHead",             SEEK_HEAD,              Master, ChildOf(SEGMENT)),
    entry!("Seek",                 SEEK,                   Master, ChildOf(SEEK_HEAD)),
    entry!("SeekID",               SEEK_ID,                Binary, ChildOf(SEEK)),
    entry!("SeekPosition",         SEEK_POSITION,          Uint,   ChildOf(SEEK)),
    // Info Element (RFC 9559, section 5.1.2)
    entry!("Info",                 INFO,                   Master, ChildOf(SEGMENT)),
    entry!("SegmentUUID",          SEGMENT_UUID,           Binary, ChildOf(INFO)),
    entry!("SegmentFilename",      SEGMENT_FILENAME,       Utf8,   ChildOf(INFO)),
    entry!("PrevUUID",             PREV_UUID,              Binary, ChildOf(INFO)),
    entry!("NextUUID",             NEXT_UUID,              Binary, ChildOf(INFO)),
    entry!("TimestampScale",       TIMESTAMP_SCALE,        Uint,   ChildOf(INFO), Number(1000000)),
    entry!("Duration",             DURATION,               Float,  ChildOf(INFO)),
    entry!("Title",                TITLE,                  Utf8,   ChildOf(INFO)),
    entry!("MuxingApp",            MUXING_APP,             Utf8,   ChildOf(INFO)),
    entry!("WritingApp",           WRITING_APP,            Utf8,   ChildOf(INFO)),
    // Cluster Element (RFC 9559, section 5.1.3)
    entry!("Cluster",              CLUSTER,                Master, ChildOf(SEGMENT)),
    entry!("Timestamp",            TIMESTAMP,              Uint,   ChildOf(CLUSTER)),
    entry!("SimpleBlock",          SIMPLE_BLOCK,           Binary, ChildOf(CLUSTER)),
    entry!("BlockGroup",           BLOCK_GROUP,            Master, ChildOf(CLUSTER)),
    entry!("Block",                BLOCK,                  Binary, ChildOf(BLOCK_GROUP)),
    // A master in RFC 9559; here its bytes are copied as they are.
    entry!("BlockAdditions",       BLOCK_ADDITIONS,        Binary, ChildOf(BLOCK_GROUP)),
    entry!("BlockDuration",        BLOCK_DURATION,         Uint,   ChildOf(BLOCK_GROUP)),
    entry!("ReferenceBlock",       REFERENCE_BLOCK,        Int,    ChildOf(BLOCK_GROUP)),
    entry!("CodecState",           CODEC_STATE,            Binary, ChildOf(BLOCK_GROUP)),
    entry!("DiscardPadding",       DISCARD_PADDING,        Int,    ChildOf(BLOCK_GROUP)),
    // Tracks Element (RFC 9559, section 5.1.4)
    entry!("Tracks",               TRACKS,                 Master, ChildOf(SEGMENT)),
    entry!("TrackEntry",           TRACK_ENTRY,            Master, ChildOf(TRACKS)),
    entry!("TrackNumber",          TRACK_NUMBER,           Uint,   ChildOf(TRACK_ENTRY)),
    entry!("TrackUID",             TRACK_UID,              Uint,   ChildOf(TRACK_ENTRY)),
    entry!("TrackType",            TRACK_TYPE,             Uint,   ChildOf(TRACK_ENTRY)),
    entry!("FlagEnabled",          FLAG_ENABLED,           Uint,   ChildOf(TRACK_ENTRY), Number(1)),
    entry!("FlagDefault",          FLAG_DEFAULT,           Uint,   ChildOf(TRACK_ENTRY), Number(1)),
    entry!("FlagForced",           FLAG_FORCED,            Uint,   ChildOf(TRACK_ENTRY), Number(0)),
    entry!("FlagHearingImpaired",  FLAG_HEARING_IMPAIRED,  Uint,   ChildOf(TRACK_ENTRY)),
    entry!("FlagVisualImpaired",   FLAG_VISUAL_IMPAIRED,   Uint,   ChildOf(TRACK_ENTRY)),
    entry!("FlagTextDescriptions", FLAG_TEXT_DESCRIPTIONS, Uint,   ChildOf(TRACK_ENTRY)),
    entry!("FlagOriginal",         FLAG_ORIGINAL,          Uint,   ChildOf(TRACK_ENTRY)),
    entry!("FlagCommentary",       FLAG_COMMENTARY,        Uint,   ChildOf(TRACK_ENTRY)),
    entry!("FlagLacing",           FLAG_LACING,            Uint,   ChildOf(TRACK_ENTRY), Number(1)),
    entry!("DefaultDuration",      DEFAULT_DURATION,       Uint,   ChildOf(TRACK_ENTRY)),
    entry!("TrackTimestampScale",  TRACK_TIMESTAMP_SCALE,  Float,  ChildOf(TRACK_ENTRY)),
    entry!("Name",                 NAME,                   Utf8,   ChildOf(TRACK_ENTRY)),
    entry!("Language",             LANGUAGE,               Ascii,  ChildOf(TRACK_ENTRY), Text("eng")),
    entry!("LanguageBCP47",        LANGUAGE_BCP47,         Ascii,  ChildOf(TRACK_ENTRY)),
    entry!("CodecID",              CODEC_ID,               Ascii,  ChildOf(TRACK_ENTRY)),
    entry!("CodecPrivate",         CODEC_PRIVATE,          Binary, ChildOf(TRACK_ENTRY)),
    entry!("Video",                VIDEO,                  Master, ChildOf(TRACK_ENTRY)),
    entry!("PixelWidth",           PIXEL_WIDTH,            Uint,   ChildOf(VIDEO)),
    entry!("PixelHeight",          PIXEL_HEIGHT,           Uint,   ChildOf(VIDEO)),
    entry!("DisplayWidth",         DISPLAY_WIDTH,          Uint,   ChildOf(VIDEO)),
    entry!("DisplayHeight",        DISPLAY_HEIGHT,         Uint,   ChildOf(VIDEO)),
    entry!("Audio",                AUDIO,                  Master, ChildOf(TRACK_ENTRY)),
    entry!("SamplingFrequency",    SAMPLING_FREQUENCY,     Float,  ChildOf(AUDIO)),
    entry!("Channels",             CHANNELS,               Uint,   ChildOf(AUDIO), Number(1)),
    entry!("ContentEncodings",     CONTENT_ENCODINGS,      Master, ChildOf(TRACK_ENTRY)),
    entry!("ContentEncoding",      CONTENT_ENCODING,       Master, ChildOf(CONTENT_ENCODINGS)),
    entry!("ContentEncodingOrder", CONTENT_ENCODING_ORDER, Uint,   ChildOf(CONTENT_ENCODING), Number(0)),
    entry!("ContentEncodingScope", CONTENT_ENCODING_SCOPE, Uint,   ChildOf(CONTENT_ENCODING), Number(1)),
    entry!("ContentEncodingType",  CONTENT_ENCODING_TYPE,  Uint,   ChildOf(CONTENT_ENCODING), Number(0)),
    entry!("ContentCompression",   CONTENT_COMPRESSION,    Master, ChildOf(CONTENT_ENCODING)),
    entry!("ContentCompAlgo",      CONTENT_COMP_ALGO,      Uint,   ChildOf(CONTENT_COMPRESSION), Number(0)),
    entry!("ContentCompSettings",  CONTENT_COMP_SETTINGS,  Binary, ChildOf(CONTENT_COMPRESSION)),
    // Cues Element (RFC 9559, section 5.1.5)
    entry!("Cues",                 CUES,                   Master, ChildOf(SEGMENT)),
    entry!("CuePoint",             CUE_POINT,              Master, ChildOf(CUES)),
    entry!("CueTime",              CUE_TIME,               Uint,   ChildOf(CUE_POINT)),
    entry!("CueTrackPositions",    CUE_TRACK_POSITIONS,    Master, ChildOf(CUE_POINT)),
    entry!("CueTrack",             CUE_TRACK,              Uint,   ChildOf(CUE_TRACK_POSITIONS)),
    entry!("CueClusterPosition",   CUE_CLUSTER_POSITION,   Uint,   ChildOf(CUE_TRACK_POSITIONS)),
    entry!("CueRelativePosition",  CUE_RELATIVE_POSITION,  Uint,   ChildOf(CUE_TRACK_POSITIONS)),
    // Attachments Element (RFC 9559, section 5.1.6)
    entry!("Attachments",          ATTACHMENTS,            Master, ChildOf(SEGMENT)),
    entry!("AttachedFile",         ATTACHED_FILE,          Master, ChildOf(ATTACHMENTS)),
    entry!("FileDescription",      FILE_DESCRIPTION,       Utf8,   ChildOf(ATTACHED_FILE)),
    entry!("FileName",             FILE_NAME,              Utf8,   ChildOf(ATTACHED_FILE)),
    entry!("FileMediaType",        FILE_MEDIA_TYPE,        Ascii,  ChildOf(ATTACHED_FILE)),
    entry!("FileData",             FILE_DATA,              Binary, ChildOf(ATTACHED_FILE)),
    entry!("FileUID",              FILE_UID,               Uint,   ChildOf(ATTACHED_FILE)),
    // Chapters Element (RFC 9559, section 5.1.7)
    entry!("Chapters",             CHAPTERS,               Master, ChildOf(SEGMENT)),
    entry!("EditionEntry",         EDITION_ENTRY,          Master, ChildOf(CHAPTERS)),
    entry!("EditionUID",           EDITION_UID,            Uint,   ChildOf(EDITION_ENTRY)),
    entry!("ChapterAtom",          CHAPTER_ATOM,           Master, ChildOfOrItself(EDITION_ENTRY)),
    entry!("ChapterUID",           CHAPTER_UID,            Uint,   ChildOf(CHAPTER_ATOM)),
    entry!("ChapterTimeStart",     CHAPTER_TIME_START,     Uint,   ChildOf(CHAPTER_ATOM)),
    entry!("ChapterTimeEnd",       CHAPTER_TIME_END,       Uint,   ChildOf(CHAPTER_ATOM)),
    entry!("ChapterDisplay",       CHAPTER_DISPLAY,        Master, ChildOf(CHAPTER_ATOM)),
    entry!("ChapString",           CHAP_STRING,            Utf8,   ChildOf(CHAPTER_DISPLAY)),
    entry!("ChapLanguage",         CHAP_LANGUAGE,          Ascii,  ChildOf(CHAPTER_DISPLAY), Text("eng")),
    // Tags Element (RFC 9559, section 5.1.8)
    entry!("Tags",                 TAGS,                   Master, ChildOf(SEGMENT)),
    entry!("Tag",                  TAG,                    Master, ChildOf(TAGS)),
    entry!("Targets",              TARGETS,                Master, ChildOf(TAG)),
    entry!("TargetTypeValue",      TARGET_TYPE_VALUE,      Uint,   ChildOf(TARGETS), Number(50)),
    entry!("TagTrackUID",          TAG_TRACK_UID,          Uint,   ChildOf(TARGETS), Number(0)),
    entry!("TagEditionUID",        TAG_EDITION_UID,        Uint,   ChildOf(TARGETS), Number(0)),
    entry!("TagChapterUID",        TAG_CHAPTER_UID,        Uint,   ChildOf(TARGETS), Number(0)),
    entry!("TagAttachmentUID",     TAG_ATTACHMENT_UID,     Uint,   ChildOf(TARGETS), Number(0)),
    entry!("SimpleTag",            SIMPLE_TAG,             Master, ChildOfOrItself(TAG)),
    entry!("TagName",              TAG_NAME,               Utf8,   ChildOf(SIMPLE_TAG)),
    entry!("TagString",            TAG_STRING,             Utf8,   ChildOf(SIMPLE_TAG)),
];

/// Returns the entry of the ID `id` in the table, or None if the table doesn't have it. All look-ups of the schema
/// begin with it.
pub fn look_up(id: u32) -> Option<&'static Entry>
    ensures { seen result ≡ entry_of id }
{
    first_of(&TABLE, id)
}

/// Returns the first of `entries` with the ID `id`, or None if there is none, for `look_up`.
fn first_of(entries: &[Entry], id: u32) -> Option<&Entry>
    ensures { seen result ≡ find (λ e. e.id == id) (map shown entries.now) }
{
    entries.iter().find(|entry| entry.row.id == id)
}
