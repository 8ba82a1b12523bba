use std::alloc::AllocError;
use thiserror::Error;

/// Why a text is no code.
#[derive(Debug, Drop, Error)]
pub enum ScanError {
    /// The text has so many bytes, which are more than 16,777,216.
    #[error("{0} bytes are too many")]
    TooLong(u64),
    /// A line is at fault. Its code is 17 where it is no line or may not stand there, 18 where a number isn't in its range, and
    /// 19 where a label stands twice, nowhere or too far away.
    #[error("line {line} is refused with {code}")]
    Line { code: u8, line: u32 },
    /// There are so many words of text, which are more than 131,072.
    #[error("{0} words of text are too many")]
    TextLimit(u64),
    /// There are so many words of data, which are more than 262,144.
    #[error("{0} words of data are too many")]
    DataLimit(u64),
    /// There is no memory.
    #[error("out of memory")]
    Memory(AllocError),
}
