//! `list` and `disasm`: an image is loaded, and what stands in it is written, or the words that commits change, or its code as assembler text.

ghost use Rattle.std.specs.Prelude.{ℕ, ◌≡◌, IfOk, List, Option};
ghost use Rattle.mv_io.specs.Outside.{CountAfter};
ghost use Rattle.mv_io.specs.Shelves.{AsksFor};
ghost use Rattle.mv_image.specs.Faults.{Spells};
ghost use Rattle.mv_probe.specs.Ways.{Way};
ghost use Rattle.mv_refine.specs.Environment.{environment, writing, Reading};
ghost use Rattle.mv_notes.specs.Lines.{names_output, names_shelf};
ghost use Rattle.mv_top.specs.Listing.{ShowDoes, ShowsFile};
ghost use Rattle.mv_top.specs.Outside.{outside, shelved};
ghost use Rattle.mv_top.specs.Shown.{shown_by_list, text_shown};

use crate::exec::status_of_load;
use crate::files::{status_of_shelf, write_text};
use mv_convert::disassemble;
use mv_exec::read_image;
use mv_image::Image;
use mv_io::{Shelf, Sink};
use mv_list::listing;
use mv_notes::Status;
use mv_patch_view::patch_view;
use std::alloc::{AllocError, Global};

/// What is written of an image.
#[derive(Clone, Copy)]
pub(crate) enum Shown {
    /// What stands in it.
    Listing,
    /// The words that commits change.
    PatchView,
    /// Its code as assembler text.
    Assembler,
}

/// What `list` writes, and with `--words`.
pub(crate) fn shown_by_list(words: bool) -> Shown
    ensures { result ≡ shown_by_list words }
{
    if words {
        Shown::PatchView
    } else {
        Shown::Listing
    }
}

fn text_shown(alloc: Global, shown: Shown, image: &Image) -> Result<Vec<u8>, AllocError>
    ensures { IfOk result (λ text. text.items ≡ text_shown shown image.now) }
{
    match shown {
        Shown::Listing => listing(alloc, image),
        Shown::PatchView => patch_view(alloc, image),
        Shown::Assembler => disassemble(alloc, image),
    }
}

// Writes a text of an image.
fn list_image<O: Sink>(alloc: Global, shown: Shown, image: &Image, out: &mut O) -> Status
    ensures does { (bytes : List ℕ) (input : Reading) (way : Option Way) → Spells bytes image.now →
        ShowDoes (text_shown shown) (environment input (writing (O.written out.old) (O.faults out.old)) way)
        (environment input (writing (O.written out.new) (O.faults out.new)) way) bytes result }
    ensures writing { CountAfter (names_output result) (O.faults out.old) (O.faults out.new) }
{
    match text_shown(alloc, shown, image) {
        Ok(text) => write_text(text.as_slice(), out),
        Err(_) => Status::Memory,
    }
}

// Reads an image, and writes a text of it.
fn list_bytes<O: Sink>(alloc: Global, shown: Shown, bytes: &[u8], out: &mut O) -> Status
    ensures does { (input : Reading) (way : Option Way) →
        ShowDoes (text_shown shown) (environment input (writing (O.written out.old) (O.faults out.old)) way)
        (environment input (writing (O.written out.new) (O.faults out.new)) way) bytes.now result }
    ensures writing { CountAfter (names_output result) (O.faults out.old) (O.faults out.new) }
{
    match read_image(alloc, bytes) {
        Ok(image) => list_image(alloc, shown, &image, out),
        Err(error) => status_of_load(error),
    }
}

/// Loads an image, and writes a text of it.
pub(crate) fn list_file<H: Shelf, O: Sink>(
    alloc: Global,
    shown: Shown,
    file: &str,
    shelf: &mut H,
    out: &mut O,
) -> Status
    ensures comes { (input : Reading) (way : Option Way) → ShowsFile (text_shown shown)
        (outside (shelved (H.files shelf.old) (H.asked shelf.old) (H.faults shelf.old)) (environment input (writing (O.written out.old) (O.faults out.old)) way))
        (outside (shelved (H.files shelf.new) (H.asked shelf.new) (H.faults shelf.new)) (environment input (writing (O.written out.new) (O.faults out.new)) way)) file.now result }
    ensures files { H.files shelf.new ≡ H.files shelf.old }
    ensures asks { AsksFor (H.asked shelf.old) (H.asked shelf.new) file.now }
    ensures count { CountAfter (names_shelf result) (H.faults shelf.old) (H.faults shelf.new) }
    ensures writing { CountAfter (names_output result) (O.faults out.old) (O.faults out.new) }
{
    match shelf.load(alloc, file) {
        Ok(bytes) => list_bytes(alloc, shown, bytes.as_slice(), out),
        Err(error) => status_of_shelf(error),
    }
}
