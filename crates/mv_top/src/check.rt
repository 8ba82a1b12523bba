//! `check`: a text is compiled, and its image compared with a file.

ghost use Rattle.std.specs.Prelude.{ℕ, ◌≡◌, ◌⊎◌, List};
ghost use Rattle.mv_io.specs.Outside.{CountAfter};
ghost use Rattle.mv_io.specs.Shelves.{AsksFor};
ghost use Rattle.mv_notes.specs.Lines.{names_shelf};
ghost use Rattle.mv_refine.specs.Environment.{Environment};
ghost use Rattle.mv_top.specs.Building.{IsBuiltAs};
ghost use Rattle.mv_top.specs.Checking.{AsksToCheck, CheckDoes, ChecksFile, CompareDoes};
ghost use Rattle.mv_top.specs.Outside.{outside, shelved, OfFile};

use crate::build::built_image;
use crate::files::status_of_shelf;
use mv_convert::first_difference;
use mv_io::Shelf;
use mv_notes::Status;
use std::alloc::Global;

// Compares bytes with those that are due.
fn compare(due: &[u8], bytes: &[u8]) -> Status
    ensures { CompareDoes due.now bytes.now result }
{
    match first_difference(due, bytes) {
        None => Status::Done,
        Some(offset) => Status::Differs(offset),
    }
}

// Loads a file, and compares it with the bytes that are due.
fn compare_file<H: Shelf>(alloc: Global, due: &[u8], name: &str, shelf: &mut H) -> Status
    ensures does { (e : Environment) → OfFile (outside (shelved (H.files shelf.old) (H.asked shelf.old) (H.faults shelf.old)) e)
        (outside (shelved (H.files shelf.new) (H.asked shelf.new) (H.faults shelf.new)) e) (Unit {0}) name.now (CompareDoes due.now) result }
    ensures files { H.files shelf.new ≡ H.files shelf.old }
    ensures asks { AsksFor (H.asked shelf.old) (H.asked shelf.new) name.now }
    ensures count { CountAfter (names_shelf result) (H.faults shelf.old) (H.faults shelf.new) }
{
    match shelf.load(alloc, name) {
        Ok(bytes) => compare(due, bytes.as_slice()),
        Err(error) => status_of_shelf(error),
    }
}

// Compiles a text, and compares its image with a file.
fn check_text<H: Shelf>(alloc: Global, text: &[u8], image: &str, shelf: &mut H) -> Status
    ensures does { (e : Environment) → CheckDoes (outside (shelved (H.files shelf.old) (H.asked shelf.old) (H.faults shelf.old)) e)
        (outside (shelved (H.files shelf.new) (H.asked shelf.new) (H.faults shelf.new)) e) image.now text.now result }
    ensures files { H.files shelf.new ≡ H.files shelf.old }
    ensures asks { (H.asked shelf.new ≡ H.asked shelf.old) ⊎ ((due : List ℕ) × IsBuiltAs text.now due × AsksFor (H.asked shelf.old) (H.asked shelf.new) image.now) }
    ensures count { CountAfter (names_shelf result) (H.faults shelf.old) (H.faults shelf.new) }
{
    match built_image(alloc, text) {
        Ok(due) => compare_file(alloc, due.as_slice(), image, shelf),
        Err(status) => status,
    }
}

/// Loads a text, and compares its image with the file of another name. Nothing is saved or written.
pub(crate) fn check_file<H: Shelf>(alloc: Global, file: &str, image: &str, shelf: &mut H) -> Status
    ensures does { (e : Environment) → ChecksFile (outside (shelved (H.files shelf.old) (H.asked shelf.old) (H.faults shelf.old)) e)
        (outside (shelved (H.files shelf.new) (H.asked shelf.new) (H.faults shelf.new)) e) file.now image.now result }
    ensures files { H.files shelf.new ≡ H.files shelf.old }
    ensures asks { (e : Environment) → AsksToCheck (outside (shelved (H.files shelf.old) (H.asked shelf.old) (H.faults shelf.old)) e)
        (outside (shelved (H.files shelf.new) (H.asked shelf.new) (H.faults shelf.new)) e) file.now image.now }
    ensures count { CountAfter (names_shelf result) (H.faults shelf.old) (H.faults shelf.new) }
{
    match shelf.load(alloc, file) {
        Ok(text) => check_text(alloc, text.as_slice(), image, shelf),
        Err(error) => status_of_shelf(error),
    }
}
