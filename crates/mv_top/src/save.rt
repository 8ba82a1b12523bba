//! The commands that load a file, make another of it, and save that.

ghost use Rattle.std.specs.Prelude.{◌≡◌, MatchResult};
ghost use Rattle.mv_io.specs.Outside.{CountAfter};
ghost use Rattle.mv_io.specs.Shelves.{AsksFor, is_fault};
ghost use Rattle.mv_notes.specs.Lines.{names_shelf};
ghost use Rattle.mv_refine.specs.Environment.{Environment};
ghost use Rattle.mv_top.specs.Makers.{IsMade, IsUnmade};
ghost use Rattle.mv_top.specs.Outside.{outside, shelved};
ghost use Rattle.mv_top.specs.Saving.{SaveDoes, SavesFile, status_of_save};

use crate::build::built_image;
use crate::convert::converted;
use crate::files::status_of_shelf;
use mv_command::Conversion;
use mv_io::{Shelf, ShelfError};
use mv_notes::Status;
use std::alloc::Global;

/// What makes the file that is saved of the one that is loaded.
#[derive(Clone, Copy)]
pub(crate) enum Maker {
    /// The compiler.
    Build,
    /// A conversion.
    Convert(Conversion),
}

// The file that is made of another. An error is the status of one of which none is made, or want of memory.
fn made(alloc: Global, maker: Maker, bytes: &[u8]) -> Result<Vec<u8>, Status>
    ensures { MatchResult result (λ made. IsMade maker bytes.now made.items) (IsUnmade maker bytes.now) }
{
    match maker {
        Maker::Build => built_image(alloc, bytes),
        Maker::Convert(conversion) => converted(alloc, conversion, bytes),
    }
}

// The status of a save.
fn status_of_save(saved: Result<(), ShelfError>) -> Status
    ensures status { result ≡ status_of_save saved }
    ensures names { names_shelf result ≡ is_fault saved }
{
    match saved {
        Ok(()) => Status::Done,
        Err(error) => status_of_shelf(error),
    }
}

// Saves what is made of a file.
fn save_made<H: Shelf>(
    alloc: Global,
    maker: Maker,
    bytes: &[u8],
    name: &str,
    shelf: &mut H,
) -> Status
    ensures does { (e : Environment) → SaveDoes (outside (shelved (H.files shelf.old) (H.asked shelf.old) (H.faults shelf.old)) e)
        (outside (shelved (H.files shelf.new) (H.asked shelf.new) (H.faults shelf.new)) e) name.now (IsMade maker bytes.now) (IsUnmade maker bytes.now) result }
    ensures asks { H.asked shelf.new ≡ H.asked shelf.old }
    ensures count { CountAfter (names_shelf result) (H.faults shelf.old) (H.faults shelf.new) }
{
    match made(alloc, maker, bytes) {
        Ok(made) => status_of_save(shelf.save(alloc, name, made.as_slice())),
        Err(status) => status,
    }
}

/// Loads a file, and saves what is made of it under another name.
pub(crate) fn save_file<H: Shelf>(
    alloc: Global,
    maker: Maker,
    file: &str,
    name: &str,
    shelf: &mut H,
) -> Status
    ensures does { (e : Environment) → SavesFile (outside (shelved (H.files shelf.old) (H.asked shelf.old) (H.faults shelf.old)) e)
        (outside (shelved (H.files shelf.new) (H.asked shelf.new) (H.faults shelf.new)) e) file.now name.now (IsMade maker) (IsUnmade maker) result }
    ensures asks { AsksFor (H.asked shelf.old) (H.asked shelf.new) file.now }
    ensures count { CountAfter (names_shelf result) (H.faults shelf.old) (H.faults shelf.new) }
{
    match shelf.load(alloc, file) {
        Ok(bytes) => save_made(alloc, maker, bytes.as_slice(), name, shelf),
        Err(error) => status_of_shelf(error),
    }
}
