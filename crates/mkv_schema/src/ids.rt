//! The Element IDs of the table, under the names of the standards (RFC 8794, section 5, Element ID):
//! with their marker bits, as the standards print them.

// EBML Header Elements (RFC 8794, section 11.2)
pub const EBML: u32 = 0x1A45DFA3;

pub const EBML_VERSION: u32 = 0x4286;

pub const EBML_READ_VERSION: u32 = 0x42F7;

pub const EBML_MAX_ID_LENGTH: u32 = 0x42F2;

pub const EBML_MAX_SIZE_LENGTH: u32 = 0x42F3;

pub const DOC_TYPE: u32 = 0x4282;

pub const DOC_TYPE_VERSION: u32 = 0x4287;

pub const DOC_TYPE_READ_VERSION: u32 = 0x4285;

// Global Elements (RFC 8794, section 11.3)
pub const CRC_32: u32 = 0xBF;

pub const VOID: u32 = 0xEC;

// Segment Element (RFC 9559, section 5.1)
pub const SEGMENT: u32 = 0x18538067;

// SeekHead Element (RFC 9559, section 5.1.1)
pub const SEEK_HEAD: u32 = 0x114D9B74;

pub const SEEK: u32 = 0x4DBB;

pub const SEEK_ID: u32 = 0x53AB;

pub const SEEK_POSITION: u32 = 0x53AC;

// Info Element (RFC 9559, section 5.1.2)
pub const INFO: u32 = 0x1549A966;

pub const SEGMENT_UUID: u32 = 0x73A4;

pub const SEGMENT_FILENAME: u32 = 0x7384;

pub const PREV_UUID: u32 = 0x3CB923;

pub const NEXT_UUID: u32 = 0x3EB923;

pub const TIMESTAMP_SCALE: u32 = 0x2AD7B1;

pub const DURATION: u32 = 0x4489;

pub const TITLE: u32 = 0x7BA9;

pub const MUXING_APP: u32 = 0x4D80;

pub const WRITING_APP: u32 = 0x5741;

// Cluster Element (RFC 9559, section 5.1.3)
pub const CLUSTER: u32 = 0x1F43B675;

pub const TIMESTAMP: u32 = 0xE7;

pub const SIMPLE_BLOCK: u32 = 0xA3;

pub const BLOCK_GROUP: u32 = 0xA0;

pub const BLOCK: u32 = 0xA1;

pub const BLOCK_ADDITIONS: u32 = 0x75A1;

pub const BLOCK_DURATION: u32 = 0x9B;

pub const REFERENCE_BLOCK: u32 = 0xFB;

pub const CODEC_STATE: u32 = 0xA4;

pub const DISCARD_PADDING: u32 = 0x75A2;

// Tracks Element (RFC 9559, section 5.1.4)
pub const TRACKS: u32 = 0x1654AE6B;

pub const TRACK_ENTRY: u32 = 0xAE;

pub const TRACK_NUMBER: u32 = 0xD7;

pub const TRACK_UID: u32 = 0x73C5;

pub const TRACK_TYPE: u32 = 0x83;

pub const FLAG_ENABLED: u32 = 0xB9;

pub const FLAG_DEFAULT: u32 = 0x88;

pub const FLAG_FORCED: u32 = 0x55AA;

pub const FLAG_HEARING_IMPAIRED: u32 = 0x55AB;

pub const FLAG_VISUAL_IMPAIRED: u32 = 0x55AC;

pub const FLAG_TEXT_DESCRIPTIONS: u32 = 0x55AD;

pub const FLAG_ORIGINAL: u32 = 0x55AE;

pub const FLAG_COMMENTARY: u32 = 0x55AF;

pub const FLAG_LACING: u32 = 0x9C;

pub const DEFAULT_DURATION: u32 = 0x23E383;

pub const TRACK_TIMESTAMP_SCALE: u32 = 0x23314F;

pub const NAME: u32 = 0x536E;

pub const LANGUAGE: u32 = 0x22B59C;

pub const LANGUAGE_BCP47: u32 = 0x22B59D;

pub const CODEC_ID: u32 = 0x86;

pub const CODEC_PRIVATE: u32 = 0x63A2;

pub const VIDEO: u32 = 0xE0;

pub const PIXEL_WIDTH: u32 = 0xB0;

pub const PIXEL_HEIGHT: u32 = 0xBA;

pub const DISPLAY_WIDTH: u32 = 0x54B0;

pub const DISPLAY_HEIGHT: u32 = 0x54BA;

pub const AUDIO: u32 = 0xE1;

pub const SAMPLING_FREQUENCY: u32 = 0xB5;

pub const CHANNELS: u32 = 0x9F;

pub const CONTENT_ENCODINGS: u32 = 0x6D80;

pub const CONTENT_ENCODING: u32 = 0x6240;

pub const CONTENT_ENCODING_ORDER: u32 = 0x5031;

pub const CONTENT_ENCODING_SCOPE: u32 = 0x5032;

pub const CONTENT_ENCODING_TYPE: u32 = 0x5033;

pub const CONTENT_COMPRESSION: u32 = 0x5034;

pub const CONTENT_COMP_ALGO: u32 = 0x4254;

pub const CONTENT_COMP_SETTINGS: u32 = 0x4255;

// Cues Element (RFC 9559, section 5.1.5)
pub const CUES: u32 = 0x1C53BB6B;

pub const CUE_POINT: u32 = 0xBB;

pub const CUE_TIME: u32 = 0xB3;

pub const CUE_TRACK_POSITIONS: u32 = 0xB7;

pub const CUE_TRACK: u32 = 0xF7;

pub const CUE_CLUSTER_POSITION: u32 = 0xF1;

pub const CUE_RELATIVE_POSITION: u32 = 0xF0;

// Attachments Element (RFC 9559, section 5.1.6)
pub const ATTACHMENTS: u32 = 0x1941A469;

pub const ATTACHED_FILE: u32 = 0x61A7;

pub const FILE_DESCRIPTION: u32 = 0x467E;

pub const FILE_NAME: u32 = 0x466E;

pub const FILE_MEDIA_TYPE: u32 = 0x4660;

pub const FILE_DATA: u32 = 0x465C;

pub const FILE_UID: u32 = 0x46AE;

// Chapters Element (RFC 9559, section 5.1.7)
pub const CHAPTERS: u32 = 0x1043A770;

pub const EDITION_ENTRY: u32 = 0x45B9;

pub const EDITION_UID: u32 = 0x45BC;

pub const CHAPTER_ATOM: u32 = 0xB6;

pub const CHAPTER_UID: u32 = 0x73C4;

pub const CHAPTER_TIME_START: u32 = 0x91;

pub const CHAPTER_TIME_END: u32 = 0x92;

pub const CHAPTER_DISPLAY: u32 = 0x80;

pub const CHAP_STRING: u32 = 0x85;

pub const CHAP_LANGUAGE: u32 = 0x437C;

// Tags Element (RFC 9559, section 5.1.8)
pub const TAGS: u32 = 0x1254C367;

pub const TAG: u32 = 0x7373;

pub const TARGETS: u32 = 0x63C0;

pub const TARGET_TYPE_VALUE: u32 = 0x68CA;

pub const TAG_TRACK_UID: u32 = 0x63C5;

pub const TAG_EDITION_UID: u32 = 0x63C9;

pub const TAG_CHAPTER_UID: u32 = 0x63C4;

pub const TAG_ATTACHMENT_UID: u32 = 0x63C6;

pub const SIMPLE_TAG: u32 = 0x67C8;

pub const TAG_NAME: u32 = 0x45A3;

pub const TAG_STRING: u32 = 0x4487;
