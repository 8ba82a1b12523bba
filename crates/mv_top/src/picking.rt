//! The top call under the oracle that its words name.

ghost use Rattle.std.specs.Prelude.{◌≡◌, All, Some, map};
ghost use Rattle.std.specs.String.{string_bytes};
ghost use Rattle.mv_io.specs.Outside.{CountAfter};
ghost use Rattle.mv_notes.specs.Lines.{names_output};
ghost use Rattle.mv_probe.specs.Fates.{Fates};
ghost use Rattle.mv_probe.specs.Hearing.{hearing, object_at, Becomes, IsPatient};
ghost use Rattle.mv_refine.specs.Environment.{environment, reading, writing};
ghost use Rattle.mv_top.specs.Named.{way_named};
ghost use Rattle.mv_top.specs.Outcomes.{IsCarriedOut};
ghost use Rattle.mv_top.specs.Outside.{outside, shelved};
ghost use Rattle.mv_top.specs.Picking.{way_of, ByWords};

use crate::top::multiverse;
use mv_command::{Oracle, oracle_of_words};
use mv_gen_accepted::counted_programs_pass_no_limit;
use mv_io::{Shelf, Sink, Source};
use mv_notes::Status;
use mv_probe::{FetchOracle, Fresh, Oldest, Probe, Table};
use std::alloc::Global;

/// An oracle that words name.
#[derive(Drop)]
enum Named {
    Fresh,
    Oldest,
    Table(Table),
}

impl FetchOracle for Named {
    ghost way = { way_named };

    fn pick(&mut self, address: u32, choices: u64) -> u64 {
        match self {
            Named::Fresh => Fresh.pick(address, choices),
            Named::Oldest => Oldest.pick(address, choices),
            Named::Table(table) => table.pick(address, choices),
        }
    }
}

// The oracle, before it has picked.
fn oracle_named(oracle: Oracle) -> Named
    ensures { way_named result ≡ Some (way_of oracle) }
{
    match oracle {
        Oracle::Fresh => Named::Fresh,
        Oracle::Oldest => Named::Oldest,
        Oracle::Table(numbers) => Named::Table(Table::new(numbers.into_vec())),
    }
}

/// Carries out the command that the words are, as `multiverse` does. What runs fetches by the oracle that the words name, which picks always the
/// oldest word where they name none.
pub fn multiverse_by_words<H: Shelf, I: Source, O: Sink, N: Sink>(
    alloc: Global,
    words: &[String],
    shelf: &mut H,
    input: &mut I,
    out: &mut O,
    notes: &mut N,
    probes: &mut Vec<Box<dyn Probe>>,
) -> Status
    requires { All (λ probe. IsPatient (hearing (told probe) (patience probe))) probes.old.items }
    ensures carried_out { ByWords (map string_bytes words.now) (λ way later. IsCarriedOut
        (outside (shelved (H.files shelf.old) (H.asked shelf.old) (H.faults shelf.old)) (environment (reading (I.left input.old) (I.faults input.old)) (writing (O.written out.old) (O.faults out.old)) way))
        (outside (shelved (H.files shelf.new) (H.asked shelf.new) (H.faults shelf.new)) (environment (reading (I.left input.new) (I.faults input.new)) (writing (O.written out.new) (O.faults out.new)) later))
        (λ events. Fates (Becomes (λ probe. object_at probe.ptr probe.vtable) (λ probe. hearing (told probe) (patience probe)) events) probes.old.items probes.new.items)
        (map string_bytes words.now) (writing (N.written notes.old) (N.faults notes.old)) (writing (N.written notes.new) (N.faults notes.new)) result) }
    ensures notes { CountAfter (names_output result) (N.faults notes.old) (N.faults notes.new) }
{
    counted_programs_pass_no_limit();
    let Ok(oracle) = oracle_of_words(alloc, words) else {
        return Status::Memory;
    };
    let Ok(boxed) = Box::new(alloc, oracle_named(oracle)) else {
        return Status::Memory;
    };
    let mut boxed: Box<dyn FetchOracle> = boxed;
    multiverse(alloc, words, shelf, input, out, notes, &mut boxed, probes)
}
