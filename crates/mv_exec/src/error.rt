//! Why there is nothing to run.

use std::alloc::AllocError;
use thiserror::Error;

/// Why bytes and items give nothing to run.
#[derive(Debug, Drop, Error)]
pub enum LoadError {
    /// The bytes spell no image: 10 where a word or a byte of the names is missing, 11 where a field breaks a rule, 12 where a byte follows
    /// the end; and the offset in bytes of the first place that is wrong.
    #[error("bad image {0} {1}")]
    BadImage(u8, u64),
    /// The item with this number, counted from 1, is the first that names no switch of the image or has a value that isn't one of its type.
    #[error("item {0} names no switch, or its value isn't one of the type")]
    Refused(u64),
    /// There is no memory.
    #[error("out of memory")]
    Memory(AllocError),
}
