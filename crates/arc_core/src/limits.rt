//! The limits of a cache as a whole. (A limit of one thing stands beside that thing: `MAX_KEY_BYTES`, `MAX_VALUE_BYTES`,
//! `MAX_ELEMENT_BYTES`, `MAX_SHORT_BYTES`, `MAX_DIGITS`.)

/// The bytes of a mebibyte.
pub const MIB: u64 = 1_048_576;

/// The most mebibytes of accounted bytes that a cache may be given.
pub const MAX_LIMIT_MIB: u32 = 4_096;
