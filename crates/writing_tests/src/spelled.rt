//! Bytes of two small files.

use std::alloc::{AllocError, Global};

/// File of 68 bytes: an EBML header and a Segment of 47 bytes. The Segment has an audio track, and a Cluster with
/// SimpleBlocks at 0 and 20.
pub const SMALL: &[u8] =
    b"\x1A\x45\xDF\xA3\x8B\x42\x82\x88matroska\x18\x53\x80\x67\xAF\x16\x54\xAE\x6B\x94\xAE\x92\xD7\x81\x01\x73\xC5\x81\x05\x83\x81\x02\x86\x86A_OPUS\x1F\x43\xB6\x75\x91\xE7\x81\x00\xA3\x85\x81\x00\x00\x80\xAA\xA3\x85\x81\x00\x14\x80\xBB";

/// Beginning of the damaged file: an EBML header and a Segment of unknown size. A Cluster at 0 has a SimpleBlock that
/// ends before its flags. Another Cluster has a SimpleBlock of 70,000 bytes, which follow.
const FRONT: &[u8] =
    b"\x1A\x45\xDF\xA3\x8B\x42\x82\x88matroska\x18\x53\x80\x67\xFF\x1F\x43\xB6\x75\x88\xE7\x81\x00\xA3\x83\x81\x00\x00\x1F\x43\xB6\x75\x21\x11\x7B\xE7\x81\x00\xA3\x21\x11\x74\x81\x00\x00\x80";

/// Cluster at 0 with a SimpleBlock of one byte at 20.
const LAST: &[u8] = b"\x1F\x43\xB6\x75\x8A\xE7\x81\x00\xA3\x85\x81\x00\x14\x80\x02";

/// Returns a file with a SimpleBlock that is cut short, one of 70,000 bytes, and a small one. It is the first input of
/// the test of failed reads.
pub fn damaged(alloc: Global) -> Result<Vec<u8>, AllocError> {
    let frame = vec![in alloc; 0; 70_000]?;
    let mut file = FRONT.to_vec(alloc)?;
    file.extend_from_slice(frame.as_slice())?;
    file.extend_from_slice(LAST)?;
    Ok(file)
}
