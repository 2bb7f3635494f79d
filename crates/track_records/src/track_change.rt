//! Changes that a merge makes to a track's TrackEntry
use mkv_io::Text;

/// Flags of a TrackEntry for the audience of the track (RFC 9559, section 5.1.4.1, TrackEntry); absent ones stay as in
/// the source
#[derive(Clone, Copy, Debug)]
pub struct FlagChange {
    /// FlagEnabled
    pub enabled: Option<bool>,
    /// FlagHearingImpaired
    pub hearing_impaired: Option<bool>,
    /// FlagVisualImpaired
    pub visual_impaired: Option<bool>,
    /// FlagTextDescriptions
    pub text_descriptions: Option<bool>,
    /// FlagOriginal
    pub original: Option<bool>,
    /// FlagCommentary
    pub commentary: Option<bool>,
}

/// Changes to a TrackEntry when it is written (RFC 9559, section 5.1.4, Tracks); absent fields stay as in the source
#[derive(Drop)]
pub struct TrackChange {
    /// TrackNumber
    pub number: u64,
    /// TrackUID
    pub uid: u64,
    /// Name
    pub name: Option<Text>,
    /// Language; LanguageBCP47 is removed, since it would be displayed instead
    pub language: Option<Text>,
    /// LanguageBCP47
    pub language_tag: Option<Text>,
    /// FlagDefault
    pub flag_default: Option<bool>,
    /// FlagForced
    pub flag_forced: Option<bool>,
    pub flags: FlagChange,
}
