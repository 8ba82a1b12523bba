use std::alloc::AllocError;
use thiserror::Error;

/// Why parts have no image.
#[derive(Debug, Drop, Error)]
pub enum LinkError {
    /// There are more than 16,384 slots in all code, one of four words counted twice: how many.
    #[error("the code has {0} sites, more than 16384")]
    Sites(u64),
    /// There are more than 262,144 words of data: how many.
    #[error("the data has {0} words, more than 262144")]
    DataLimit(u64),
    /// There are more than 131,072 words of text: how many.
    #[error("the text has {0} words, more than 131072")]
    TextLimit(u64),
    /// There is no memory.
    #[error(transparent)]
    Memory(#[from(alloc)] AllocError),
}
