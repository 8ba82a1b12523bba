//! Loading a command's file, and writing a text.

ghost use Rattle.std.specs.Prelude.{◌≡◌, Option};
ghost use Rattle.mv_io.specs.Outside.{CountAfter};
ghost use Rattle.mv_probe.specs.Ways.{Way};
ghost use Rattle.mv_refine.specs.Environment.{environment, reading, writing, Reading};
ghost use Rattle.mv_notes.specs.declared.status.Status.TheVariants.{Done};
ghost use Rattle.mv_top.specs.Saving.{status_of_shelf};
ghost use Rattle.mv_notes.specs.Lines.{names_output};
ghost use Rattle.mv_top.specs.Outside.{Writes};

use mv_eval::writing::write_all;
use mv_io::{ShelfError, Sink};
use mv_notes::Status;

/// The status of a load or a save that gave nothing.
pub(crate) fn status_of_shelf(error: ShelfError) -> Status
    ensures { result ≡ status_of_shelf error }
{
    match error {
        ShelfError::Failed => Status::ShelfFault,
        ShelfError::Memory(_) => Status::Memory,
    }
}

/// Writes a text, which is all that is done.
pub(crate) fn write_text<O: Sink>(text: &[u8], out: &mut O) -> Status
    ensures writes { (input : Reading) (way : Option Way) → Writes (environment input (writing (O.written out.old) (O.faults out.old)) way)
        (environment input (writing (O.written out.new) (O.faults out.new)) way) text.now Done result }
    ensures count { CountAfter (names_output result) (O.faults out.old) (O.faults out.new) }
{
    match write_all(out, text) {
        Ok(()) => Status::Done,
        Err(_) => Status::OutputFault,
    }
}
