//! The limits of a restriction.

/// The most bytes of a text.
pub const MAX_BYTES: usize = 16_384;

/// The most literals.
pub const MAX_LITERALS: u32 = 1_024;

/// How deep the parentheses of groups and the NOTs before operands may stand in each other.
pub const MAX_DEPTH: u32 = 64;
