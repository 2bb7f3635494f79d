//! Fields that decide whether a track may be appended to another
use mkv_schema::ids::{
    AUDIO, CHANNELS, CODEC_ID, CODEC_PRIVATE, PIXEL_HEIGHT, PIXEL_WIDTH, SAMPLING_FREQUENCY,
    TRACK_TYPE, VIDEO,
};

/// Field of a TrackEntry: the ID of its Element, and the ID of the master that has it, unless that is the entry
#[derive(Clone, Copy)]
pub struct Field {
    pub master: Option<u32>,
    pub id: u32,
}

/// Fields that an appended track must have in common with the track before it, in the order of their comparison
pub const FIELDS: [Field; 7] = [
    Field {
        master: None,
        id: TRACK_TYPE,
    },
    Field {
        master: None,
        id: CODEC_ID,
    },
    Field {
        master: None,
        id: CODEC_PRIVATE,
    },
    Field {
        master: Some(VIDEO),
        id: PIXEL_WIDTH,
    },
    Field {
        master: Some(VIDEO),
        id: PIXEL_HEIGHT,
    },
    Field {
        master: Some(AUDIO),
        id: CHANNELS,
    },
    Field {
        master: Some(AUDIO),
        id: SAMPLING_FREQUENCY,
    },
];
