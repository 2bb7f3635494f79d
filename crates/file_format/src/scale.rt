//! Default of TimestampScale: RFC 9559, section 5.1.2 (Info Element).

/// Default number of nanoseconds per tick.
pub const DEFAULT_SCALE: u64 = 1_000_000;
