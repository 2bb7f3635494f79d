//! Law on received bytes and their checksum.

ghost use Rattle.crc32.specs.Laws.{ChecksumsLeaveTheRemainder};

/// Law: bytes and then their checksum leave the remainder that a receiver looks for (ITU-T V.42, section 8.1.1.6.2). No
/// code calls it.
pub fn checksums_leave_the_remainder()
    ensures { ChecksumsLeaveTheRemainder }
{}
