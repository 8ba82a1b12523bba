//! What the harts of `mvharts` read from and write to.

ghost use Rattle.std.specs.Prelude.{◌≡◌, ◌≤◌, [], All, IfOk, Some, vec_len};
ghost use Rattle.mv_harts.specs.Devices.{first_sources, left_of};

use mv_io::{Failed, Sink, Source};
use std::alloc::{AllocError, Global};

/// A source of one byte, which never fails.
#[derive(Debug, Drop)]
pub(crate) struct OneByte {
    byte: Option<u8>,
}

impl Source for OneByte {
    ghost left = { λ s. Some (left_of s) };

    ghost faults = { λ _. 0 };

    fn read_byte(&mut self) -> Result<Option<u8>, Failed> {
        Ok(self.byte.take())
    }
}

/// A sink that keeps its bytes, and fails only where the memory for more is refused.
#[derive(Debug, Drop)]
pub(crate) struct Keeping {
    bytes: Vec<u8>,
    faults: u64,
}

impl Keeping {
    /// The bytes that were written.
    pub(crate) fn bytes(&self) -> &[u8]
        ensures { result.now ≡ self.now.bytes.items }
    {
        self.bytes.as_slice()
    }
}

impl Sink for Keeping {
    ghost written = { λ s. Some s.bytes.items };

    ghost faults = { λ s. s.faults };

    fn write(&mut self, bytes: &[u8]) -> Result<usize, Failed> {
        match self.bytes.extend_from_slice(bytes) {
            Ok(()) => Ok(bytes.len()),
            Err(_) => {
                self.faults = self.faults.saturating_add(1);
                Err(Failed)
            }
        }
    }
}

/// For each hart a source of the digit that is its number.
pub(crate) fn sources_of(alloc: Global, count: u8) -> Result<Vec<OneByte>, AllocError>
    requires { count ≤ 4 }
    ensures { IfOk result (λ sources. sources.items ≡ first_sources count) }
{
    let mut sources = Vec::new(alloc);
    for hart in 0..count {
        sources.push(OneByte {
            byte: Some(b'0' + hart),
        })?;
    }
    Ok(sources)
}

/// For each hart an empty sink.
pub(crate) fn sinks_of(alloc: Global, count: u8) -> Result<Vec<Keeping>, AllocError>
    ensures count { IfOk result (λ sinks. vec_len sinks ≡ count) }
    ensures empty { IfOk result (λ sinks. All (λ sink. sink.bytes.items ≡ []) sinks.items) }
{
    let mut sinks = Vec::new(alloc);
    for _ in 0..count {
        sinks.push(Keeping {
            bytes: Vec::new(alloc),
            faults: 0,
        })?;
    }
    Ok(sinks)
}
