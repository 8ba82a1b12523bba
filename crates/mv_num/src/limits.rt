//! Limits on what an image may have, as `specs/Limits.antt` has them.

/// The sites of an image.
pub const SITE_LIMIT: usize = 16_384;
