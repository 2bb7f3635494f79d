//! PGS subtitles, segment by segment: Matroska codec specification, S_HDMV/PGS. In a SUP stream, the form of a file,
//! each segment follows a header with its time.

ghost use Rattle.std.specs.Prelude.{◌≡◌, MatchOption, is_some};
ghost use Rattle.elementary.specs.Pgs.{HasNoSegment, SegmentFirst, segments_of};
ghost use Rattle.elementary.specs.Pgs as spec;

use byteorder::{BigEndian, ByteOrder};

/// Returns the first segment of `octets` and the bytes after it. A segment is a byte, a length in two bytes, and the
/// bytes that the length counts. Returns None if it is cut off. Used for the segments of a frame.
#[tactic(auto, unfolding(crate::specs::Pgs::segment_at))]
pub fn segment_at(octets: &[u8]) -> Option<(&[u8], &[u8])>
    ensures { MatchOption result (HasNoSegment octets.now) (λ front. SegmentFirst octets.now front.0.now front.1.now) }
{
    if octets.len() < 3 {
        return None;
    }
    let size = 3 + usize::from(BigEndian::read_u16(&octets[1..]));
    if octets.len() < size {
        return None;
    }
    Some(octets.split_at(size))
}

/// Checks whether `frame` is exactly a join of segments. An empty frame is one. `extract` asks it before it writes a
/// frame of a PGS track.
pub fn is_segments(frame: &[u8]) -> bool
    ensures { result ≡ is_some (segments_of frame.now) }
{
    let mut rest = frame;
    while let Some((_, behind)) = segment_at(rest) {
        rest = behind;
    }
    rest.is_empty()
}

/// Returns the header of a segment of a frame at `time` nanoseconds: the mark `PG`, the presentation time, and 0 as the
/// decoding time. A Matroska file has no decoding time. `extract` writes it before each segment of a PGS track.
#[tactic(auto, unfolding(crate::specs::Pgs::segment_header, crate::specs::Pgs::header_at))]
pub fn segment_header(time: i64) -> [u8; 10]
    ensures { result ≡ spec.segment_header time }
{
    let mut header = [0; 10];
    header[..2].copy_from_slice(b"PG");
    BigEndian::write_u32(&mut header[2..6], presentation_time(time));
    header
}

/// Returns the lowest 32 bits of `time`, in nanoseconds, in units of 1/90,000 second, rounded down. A time before 0
/// gives 0. For `segment_header`.
fn presentation_time(time: i64) -> u32
    ensures { result ≡ spec.presentation_time time }
{
    if time < 0 {
        return 0;
    }
    let ticks = u128::from(time.unsigned_abs()) * 9 / 100_000;
    (ticks % (1 << 32)) as u32
}
