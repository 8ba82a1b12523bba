//! `exec`: an image is loaded and run.

ghost use Rattle.std.specs.Prelude.{ℕ, ◌≡◌, List, All, IsTrue};
ghost use Rattle.mv_command.specs.Commands.{Executes};
ghost use Rattle.mv_command.specs.Items.{Ascend};
ghost use Rattle.mv_exec.specs.Loading.{IsLoaded};
ghost use Rattle.mv_machine.specs.Actions.{fits_rows};
ghost use Rattle.mv_probe.specs.Fates.{Fates};
ghost use Rattle.mv_probe.specs.Hearing.{hearing, object_at, Becomes, IsPatient};
ghost use Rattle.mv_refine.specs.Environment.{environment, reading, writing};
ghost use Rattle.mv_top.specs.Executing.{ExecComes, status_of_load};
ghost use Rattle.mv_top.specs.Outcomes.{Carries, Performs};
ghost use Rattle.mv_top.specs.Outside.{outside, shelved};

use crate::files::status_of_shelf;
use crate::run::finished;
use mv_command::RunOptions;
use mv_exec::{LoadError, Loaded, load};
use mv_front::Refusal;
use mv_io::{Shelf, Sink, Source};
use mv_notes::{Performed, Status};
use mv_probe::{FetchOracle, Probe};
use mv_refine::run_image;
use std::alloc::{AllocError, Global};

/// The status of bytes that are no image, or of items that are no actions of it.
pub(crate) fn status_of_load(error: LoadError) -> Status
    ensures { result ≡ status_of_load error }
{
    match error {
        LoadError::BadImage(code, offset) => Status::BadImage(code, offset),
        LoadError::Refused(item) => Status::Refused(Refusal::counted(15, 0, item)),
        LoadError::Memory(_) => Status::Memory,
    }
}

// Runs an image with the actions of the operator, and makes the lines that are asked for. An error is want of memory for these lines.
fn exec_loaded<I: Source, O: Sink>(
    alloc: Global,
    loaded: &Loaded,
    options: &RunOptions,
    input: &mut I,
    out: &mut O,
    oracle: &mut Box<dyn FetchOracle>,
    probes: &mut Vec<Box<dyn Probe>>,
) -> Result<Performed, AllocError>
    requires patient { All (λ probe. IsPatient (hearing (told probe) (patience probe))) probes.old.items }
    requires fit { All (λ action. IsTrue (fits_rows loaded.now.image.switches action)) loaded.now.actions.items }
    ensures { (bytes : List ℕ) → IsLoaded bytes options.now.items loaded.now → Performs (ExecComes
        (environment (reading (I.left input.old) (I.faults input.old)) (writing (O.written out.old) (O.faults out.old)) (way oracle.old))
        (environment (reading (I.left input.new) (I.faults input.new)) (writing (O.written out.new) (O.faults out.new)) (way oracle.new))
        (λ events. Fates (Becomes (λ probe. object_at probe.ptr probe.vtable) (λ probe. hearing (told probe) (patience probe)) events) probes.old.items probes.new.items)
        options.now bytes) result }
{
    let Loaded { image, actions } = loaded;
    let actions = actions.as_slice();
    match run_image(
        alloc,
        image,
        options.log,
        options.stats,
        options.steps,
        input,
        out,
        oracle,
        probes,
        actions,
    ) {
        Ok(execution) => finished(alloc, options, image, &execution),
        Err(_) => Ok(Performed::alone(alloc, Status::Memory)),
    }
}

// Reads an image and runs it. An error is want of memory for the lines that are asked for.
fn exec_bytes<I: Source, O: Sink>(
    alloc: Global,
    bytes: &[u8],
    options: &RunOptions,
    input: &mut I,
    out: &mut O,
    oracle: &mut Box<dyn FetchOracle>,
    probes: &mut Vec<Box<dyn Probe>>,
) -> Result<Performed, AllocError>
    requires patient { All (λ probe. IsPatient (hearing (told probe) (patience probe))) probes.old.items }
    requires ascend { Ascend 0 options.now.items }
    ensures { Performs (ExecComes
        (environment (reading (I.left input.old) (I.faults input.old)) (writing (O.written out.old) (O.faults out.old)) (way oracle.old))
        (environment (reading (I.left input.new) (I.faults input.new)) (writing (O.written out.new) (O.faults out.new)) (way oracle.new))
        (λ events. Fates (Becomes (λ probe. object_at probe.ptr probe.vtable) (λ probe. hearing (told probe) (patience probe)) events) probes.old.items probes.new.items)
        options.now bytes.now) result }
{
    match load(alloc, bytes, &options.items) {
        Ok(loaded) => exec_loaded(alloc, &loaded, options, input, out, oracle, probes),
        Err(error) => Ok(Performed::alone(alloc, status_of_load(error))),
    }
}

/// Loads an image and runs it. An error is want of memory for the lines that are asked for.
pub(crate) fn exec_file<H: Shelf, I: Source, O: Sink>(
    alloc: Global,
    file: &str,
    options: &RunOptions,
    shelf: &mut H,
    input: &mut I,
    out: &mut O,
    oracle: &mut Box<dyn FetchOracle>,
    probes: &mut Vec<Box<dyn Probe>>,
) -> Result<Performed, AllocError>
    requires patient { All (λ probe. IsPatient (hearing (told probe) (patience probe))) probes.old.items }
    requires ascend { Ascend 0 options.now.items }
    ensures { Performs (Carries
        (outside (shelved (H.files shelf.old) (H.asked shelf.old) (H.faults shelf.old)) (environment (reading (I.left input.old) (I.faults input.old)) (writing (O.written out.old) (O.faults out.old)) (way oracle.old)))
        (outside (shelved (H.files shelf.new) (H.asked shelf.new) (H.faults shelf.new)) (environment (reading (I.left input.new) (I.faults input.new)) (writing (O.written out.new) (O.faults out.new)) (way oracle.new)))
        (λ events. Fates (Becomes (λ probe. object_at probe.ptr probe.vtable) (λ probe. hearing (told probe) (patience probe)) events) probes.old.items probes.new.items)
        (Executes file.now options.now)) result }
{
    match shelf.load(alloc, file) {
        Ok(bytes) => exec_bytes(alloc, bytes.as_slice(), options, input, out, oracle, probes),
        Err(error) => Ok(Performed::alone(alloc, status_of_shelf(error))),
    }
}
