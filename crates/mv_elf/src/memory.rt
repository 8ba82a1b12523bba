//! The memory that a file loads.

ghost use Rattle.std.specs.Prelude.{◌≡◌, ◌≤◌, ◌<◌, ◌+◌, ◌*◌, ◌-◌, ◌^◌, ℕ, true, length, replicate, slice_index, IfOk};
ghost use Rattle.mv_num.specs.Bytes.{words_of};
ghost use Rattle.mv_elf.specs.Header.{HasHeader};
ghost use Rattle.mv_elf.specs.Segments.{region_start, region_end, count_of, lies_in, is_in_file, reach, AreRight};
ghost use Rattle.mv_elf.specs.Memory.{words_in, loaded_over, loaded_in, bytes_in};

use crate::programs::{count, segment};
use crate::segment::{Region, Segment};
use mv_num::bytes::words_of_bytes;
use mv_num::list::List;
use std::alloc::{AllocError, Global};

/// How many words of a region are loaded.
#[tactic(auto, unfolding(crate::specs::Memory::words_in))]
pub(crate) fn words_in(bytes: &[u8], region: Region) -> usize
    requires header { HasHeader bytes.now }
    requires segments { AreRight bytes.now (count_of bytes.now) }
    ensures value { result ≡ words_in bytes.now region }
    ensures small { result ≤ 2 ^ 18 }
{
    let mut reached: usize = 0;
    for i in 0..count(bytes) {
        let segment = segment(bytes, i);
        if segment.lies_in(region) {
            reached = reached.max(segment.end());
        }
    }
    reached.saturating_sub(region.start()).div_ceil(4)
}

/// Loads a segment into the memory of its region.
fn load_segment(memory: &mut [u8], region: Region, bytes: &[u8], segment: Segment)
    requires lies { lies_in region segment ≡ true }
    requires room { segment.address + segment.file_size ≤ region_start region + length memory.old }
    requires there { segment.offset + segment.file_size ≤ length bytes.now }
    ensures { (k : ℕ) → k < length memory.old → slice_index memory.new k ≡ loaded_over bytes.now segment (region_start region + k) (slice_index memory.old k) }
{
    let at = segment.address as usize - region.start();
    let from = segment.offset as usize;
    let size = segment.file_size as usize;
    memory[at..at + size].copy_from_slice(&bytes[from..from + size]);
}

fn zeros(alloc: Global, count: usize) -> Result<Vec<u8>, AllocError>
    ensures { IfOk result (λ zeros. zeros.items ≡ replicate count 0) }
{
    vec![in alloc; 0; count]
}

/// The bytes of a region, as they are loaded.
fn bytes_in(alloc: Global, bytes: &[u8], region: Region) -> Result<Vec<u8>, AllocError>
    requires header { HasHeader bytes.now }
    requires segments { AreRight bytes.now (count_of bytes.now) }
    ensures { IfOk result (λ memory. memory.items ≡ bytes_in bytes.now region) }
{
    let mut memory = zeros(alloc, 4 * words_in(bytes, region))?;
    for i in 0..count(bytes) {
        let segment = segment(bytes, i);
        if segment.lies_in(region) {
            load_segment(memory.as_mut_slice(), region, bytes, segment);
        }
    }
    Ok(memory)
}

/// The words of a region, as they are loaded.
pub(crate) fn load(alloc: Global, bytes: &[u8], region: Region) -> Result<List<u32>, AllocError>
    requires header { HasHeader bytes.now }
    requires segments { AreRight bytes.now (count_of bytes.now) }
    ensures { IfOk result (λ words. words ≡ loaded_in bytes.now region) }
{
    let memory = bytes_in(alloc, bytes, region)?;
    words_of_bytes(alloc, memory.as_slice())
}
