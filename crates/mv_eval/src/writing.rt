//! Writing to a sink that may take less than it is handed.

ghost use Rattle.mv_io.specs.Outside.{HasCause};
ghost use Rattle.mv_eval.specs.Grown.{WritesAll};

use mv_io::{Failed, Sink};

/// Writes all of the bytes, or a part of them from their start where a write fails.
pub fn write_all<S: Sink>(sink: &mut S, bytes: &[u8]) -> Result<(), Failed>
    ensures bytes { WritesAll (S.written sink.old) (S.written sink.new) bytes.now result }
    ensures cause { HasCause (S.faults sink.old) (S.faults sink.new) result }
{
    let mut done = 0;
    while done < bytes.len() {
        done += sink.write(&bytes[done..])?;
    }
    Ok(())
}
