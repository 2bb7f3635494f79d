//! Kinds of damage, and the damaged place of a file.

ghost use Rattle.std.specs.Prelude.{◌≡◌};

use std::fmt;

/// Kind of damage. The causes of a refusal are reported in this order.
#[derive(Clone, Copy, Debug, PartialEq, Eq)]
pub enum Kind {
    /// The file doesn't begin with an EBML header.
    NotEbml,
    /// The bytes where an Element begins aren't an Element ID (RFC 8794, section 5, Element ID).
    BadId,
    /// The first byte of an Element Data Size is `00` (RFC 8794, section 6, Element Data Size).
    BadSize,
    /// An Element exceeds its parent's end, but not the file's.
    TooLong,
    /// An Element exceeds the end of the file.
    Truncated,
    /// The DocType is neither `matroska` nor `webm`, or is missing.
    DocType,
    /// The file asks for a later version of EBML or of its document type.
    ReadVersion,
    /// The file allows longer IDs or sizes than are read.
    MaxLengths,
    /// The file has no Segment.
    NoSegment,
    /// The Segment has no Tracks.
    NoTracks,
    /// A value doesn't have its Element's type, or is out of its range.
    BadValue,
    /// A mandatory Element is missing.
    MissingChild,
    /// Two tracks have the same TrackNumber.
    RepeatedTrack,
    /// A track's ContentEncodings can't be undone.
    Encoding,
    /// A track has a TrackTimestampScale other than 1.
    TrackScale,
    /// An Element that is read whole is larger than its limit.
    HeaderTooLarge,
    /// A block ends inside its own header.
    ShortBlock,
    /// No frame sizes fit a block's lacing (RFC 9559, section 10.3, Block Lacing).
    BadLacing,
    /// A block is larger than its limit.
    BlockTooLarge,
    /// A block's timestamp, duration or reference is over its limit.
    TimeTooLarge,
    /// A block precedes its Cluster's Timestamp.
    NoTimestamp,
    /// Something occurs more often, or is nested deeper, than the limit.
    TooMany,
    /// An Element other than a Segment at level 0 or a Cluster in its Segment has an unknown size.
    UnknownSize,
    /// A frame doesn't have the format of its codec.
    BadFrame,
}

impl Kind {
    ghost use Rattle.mkv_io.specs.Kind.{kind_name};

    /// Returns the kind's name, as messages print it, such as `BadSize`. Used for each damaged place that a command
    /// reports. Used by `room_for_name` and `fmt`.
    #[tactic(auto, unfolding(crate::specs::Kind::kind_name))]
    pub fn name(self) -> &'static str
        ensures { result.now ≡ kind_name self }
    {
        match self {
            Kind::NotEbml => "NotEbml",
            Kind::BadId => "BadId",
            Kind::BadSize => "BadSize",
            Kind::TooLong => "TooLong",
            Kind::Truncated => "Truncated",
            Kind::DocType => "DocType",
            Kind::ReadVersion => "ReadVersion",
            Kind::MaxLengths => "MaxLengths",
            Kind::NoSegment => "NoSegment",
            Kind::NoTracks => "NoTracks",
            Kind::BadValue => "BadValue",
            Kind::MissingChild => "MissingChild",
            Kind::RepeatedTrack => "RepeatedTrack",
            Kind::Encoding => "Encoding",
            Kind::TrackScale => "TrackScale",
            Kind::HeaderTooLarge => "HeaderTooLarge",
            Kind::ShortBlock => "ShortBlock",
            Kind::BadLacing => "BadLacing",
            Kind::BlockTooLarge => "BlockTooLarge",
            Kind::TimeTooLarge => "TimeTooLarge",
            Kind::NoTimestamp => "NoTimestamp",
            Kind::TooMany => "TooMany",
            Kind::UnknownSize => "UnknownSize",
            Kind::BadFrame => "BadFrame",
        }
    }
}

impl fmt::Display for Kind {
    ghost use Rattle.std.specs.Prelude.{Some};
    ghost use Rattle.mkv_io.specs.Kind.{kind_name};

    ghost output = { λ kind. Some (kind_name kind) };

    fn fmt<W: fmt::Write>(&self, f: &mut fmt::Formatter<W>) -> fmt::Result {
        f.write_str(self.name())
    }
}

/// Place where a file isn't made of valid Elements and blocks, with the kind of damage.
#[derive(Clone, Copy, Debug, PartialEq, Eq)]
pub struct Damage {
    pub kind: Kind,
    /// ID of the Element that is damaged, with its marker; 0 if it can't be read, or if no Element is meant.
    pub id: u32,
    /// Offset in bytes of the damaged place from the start of the file.
    pub offset: u64,
}
