// The qualities and bases that the callers name.

// The lowest quality of a consensus base, which marks a base that was not called.
pub const MIN_PHRED: u8 = 2;

// The highest quality that a SAM record can hold.
pub const MAX_PHRED: u8 = 93;

pub const NO_CALL_BASE: u8 = b'N';

// What a strand is padded with.
pub const NO_CALL_BASE_LOWER: u8 = b'n';
