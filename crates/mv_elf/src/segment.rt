//! A segment of a file, and the regions of memory into which it may be loaded.

ghost use Rattle.std.specs.Prelude.{◌≡◌, ◌≤◌, ◌+◌, ◌*◌, ◌<◌, ◌^◌, length};
ghost use Rattle.mv_elf.specs.Segments.{region_start, region_end, segment_at, is_loaded, is_in_file, lies_in, is_right};

use crate::numbers::word_at;
use mv_num::regions::{DATA_LIMIT, DATA_START, TEXT_END, TEXT_START};

/// A region of memory that a file loads.
#[derive(Clone, Copy)]
pub(crate) enum Region {
    Text,
    Data,
}

impl Region {
    /// The address at which it begins.
    pub(crate) fn start(self) -> usize
        ensures value { result ≡ region_start self }
        ensures small { result < 2 ^ 21 }
    {
        match self {
            Region::Text => TEXT_START as usize,
            Region::Data => DATA_START as usize,
        }
    }

    /// Where it ends.
    pub(crate) fn end(self) -> usize
        ensures { result ≡ region_end self }
    {
        match self {
            Region::Text => TEXT_END as usize,
            Region::Data => DATA_START as usize + 4 * DATA_LIMIT,
        }
    }
}

/// What a program header says: the type of a segment, where its bytes stand in the file and in memory, and how many there
/// are in each.
#[derive(Clone, Copy)]
pub(crate) struct Segment {
    pub(crate) kind: u32,
    pub(crate) offset: u32,
    pub(crate) address: u32,
    pub(crate) file_size: u32,
    pub(crate) memory_size: u32,
}

impl Segment {
    /// The segment whose program header begins at an offset.
    #[tactic(auto, unfolding(crate::specs::Segments::segment_at))]
    pub(crate) fn read(bytes: &[u8], at: usize) -> Segment
        requires { at + 32 ≤ length bytes.now }
        ensures { result ≡ segment_at bytes.now at }
    {
        Segment {
            kind: word_at(bytes, at),
            offset: word_at(bytes, at + 4),
            address: word_at(bytes, at + 8),
            file_size: word_at(bytes, at + 16),
            memory_size: word_at(bytes, at + 20),
        }
    }

    /// Whether it is loaded, and takes memory.
    #[tactic(auto, unfolding(crate::specs::Segments::is_loaded))]
    pub(crate) fn is_loaded(self) -> bool
        ensures { result ≡ is_loaded self }
    {
        self.kind == 1 && 0 < self.memory_size
    }

    /// Where its memory ends.
    pub(crate) fn end(self) -> usize
        ensures { result ≡ self.address + self.memory_size }
    {
        self.address as usize + self.memory_size as usize
    }

    /// Whether its bytes are in the file, which a segment has that is loaded or a note.
    #[tactic(auto, unfolding(crate::specs::Segments::is_in_file))]
    pub(crate) fn is_in_file(self, bytes: &[u8]) -> bool
        ensures { result ≡ is_in_file bytes.now self }
    {
        !(self.kind == 1 || self.kind == 4)
            || self.offset as usize + self.file_size as usize <= bytes.len()
    }

    /// Whether it is loaded into a region.
    #[tactic(auto, unfolding(crate::specs::Segments::lies_in))]
    pub(crate) fn lies_in(self, region: Region) -> bool
        ensures { result ≡ lies_in region self }
    {
        self.is_loaded() && region.start() <= self.address as usize && self.end() <= region.end()
    }

    /// Whether it keeps the rules of segments that are loaded, where those before it reach up to an address.
    #[tactic(auto, unfolding(crate::specs::Segments::is_right))]
    pub(crate) fn is_right(self, reached: usize) -> bool
        ensures { result ≡ is_right reached self }
    {
        !self.is_loaded()
            || (self.file_size <= self.memory_size
                && (self.lies_in(Region::Text) || self.lies_in(Region::Data))
                && reached <= self.address as usize)
    }
}
