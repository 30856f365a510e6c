//! The last values of the counts, and the greatest image.

/// How often an image can be made in one slot.
pub const LAST_GENERATION: u32 = u32::MAX;

/// The number of an image's last write.
pub const LAST_WRITE: u64 = (1 << 48) - 1;

/// How many claims a boot can begin.
pub const LAST_CLAIM: u64 = (1 << 40) - 1;

/// The most blocks that an image has.
pub const GREATEST_SIZE: u32 = 1 << 27;
