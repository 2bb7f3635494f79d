//! The codecs of WebM.

ghost use Rattle.std.specs.Prelude.{◌≡◌};
ghost use Rattle.merge_plan.specs.Webm.{is_webm_codec};

/// CodecIDs of the tracks that WebM allows.
const CODECS: [&str; 5] = ["V_VP8", "V_VP9", "V_AV1", "A_VORBIS", "A_OPUS"];

/// Checks whether WebM allows a track with the CodecID `codec`. `plan_of` refuses a merge to WebM of other tracks. Used
/// by `other_codec`.
#[tactic(auto, unfolding(crate::specs::Webm::is_webm_codec))]
pub fn is_webm_codec(codec: &str) -> bool
    ensures { result ≡ is_webm_codec codec.now }
{
    CODECS.contains(&codec)
}
