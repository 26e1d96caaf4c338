// What the calls accept. What a parish can hold stands in its ghost fields (specs/Limits.antt).

pub const MOST_HOUSEHOLDS: usize = 128;

pub const MOST_LINKS: usize = 1024;

pub const MOST_WEIGHT: u32 = 10_000;

// The least strength is 1.
pub const MOST_STRENGTH: u32 = 1_000;

// In thousandths.
pub const MOST_TOLERANCE: u32 = 1_000;
