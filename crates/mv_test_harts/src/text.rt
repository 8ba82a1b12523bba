//! What is printed of a run of harts.

use mv_bindings::binding::Binding;
use mv_harts::{Committed, HartEnd, HartsEnd, Taken};
use mv_io::MemSink;
use std::alloc::{AllocError, Global};

// Puts lines at the end on what the polls of a hart took but skips.
fn push_taken(
    alloc: Global,
    text: &mut Vec<u8>,
    hart: usize,
    end: &HartEnd,
) -> Result<(), AllocError> {
    for taken in end.taken.as_slice() {
        let line = match taken {
            Taken::Skip => String::new(alloc),
            Taken::Flip { switch, value } => {
                format!(in alloc; "hart {hart} flips {switch}={value}\n")?
            }
            Taken::Adopt(commit) => format!(in alloc; "hart {hart} adopts {commit}\n")?,
        };
        text.extend_from_slice(line.as_bytes())?;
    }
    Ok(())
}

// Puts the line of a hart at the end as `mvharts` writes it, what the hart wrote, and what its polls took.
fn push_hart(
    alloc: Global,
    text: &mut Vec<u8>,
    hart: usize,
    end: &HartEnd,
    bytes: &[u8],
) -> Result<(), AllocError> {
    let line = format!(in alloc; "hart {hart} {} bytes {}\n", end.stop, bytes.len())?;
    text.extend_from_slice(line.as_bytes())?;
    text.extend_from_slice(bytes)?;
    text.push(b'\n')?;
    push_taken(alloc, text, hart, end)
}

// The lines of all harts.
fn lines_of(alloc: Global, ends: &HartsEnd, sinks: &[MemSink]) -> Result<Vec<u8>, AllocError> {
    let mut text = Vec::new(alloc);
    for (hart, (end, sink)) in ends.harts.as_slice().iter().zip(sinks).enumerate() {
        push_hart(alloc, &mut text, hart, end, sink.bytes())?;
    }
    Ok(text)
}

// Puts a binding at the end: `free`, or a value for each switch.
fn push_binding(alloc: Global, text: &mut Vec<u8>, binding: &Binding) -> Result<(), AllocError> {
    if !binding.bound {
        text.extend_from_slice(b" free")?;
    }
    for (value, _) in binding.values.iter().zip(0..binding.count) {
        text.extend_from_slice(format!(in alloc; " {value}")?.as_bytes())?;
    }
    Ok(text.push(b';')?)
}

// Puts a line at the end on what a commit left.
fn push_commit(alloc: Global, text: &mut Vec<u8>, commit: &Committed) -> Result<(), AllocError> {
    text.extend_from_slice(b"commit")?;
    for binding in commit.all.as_slice() {
        push_binding(alloc, text, binding)?;
    }
    Ok(text.push(b'\n')?)
}

/// The lines of all harts and of all commits.
pub(crate) fn text_of(
    alloc: Global,
    ends: &HartsEnd,
    sinks: &[MemSink],
) -> Result<Vec<u8>, AllocError> {
    let mut text = lines_of(alloc, ends, sinks)?;
    for commit in ends.commits.as_slice() {
        push_commit(alloc, &mut text, commit)?;
    }
    Ok(text)
}
