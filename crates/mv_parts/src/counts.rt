//! How many sites and labels the code of parts has, and how many words that of functions.

ghost use Rattle.std.specs.Prelude.{◌≡◌, ◌+◌, ◌↔◌, length, nat_lt, sum_by, IsTrue};
ghost use Rattle.mv_linker.specs.Linked.{stub_lines};
ghost use Rattle.mv_linker.specs.Tables.{site_count};
ghost use Rattle.mv_variants.specs.Sizes.{lines_words};
ghost use Rattle.mv_parts.specs.Counts.{up_to_greatest, count_in, count_in_variant, count_in_function, count_in_parts, HaveFewLabels};
ghost use Rattle.mv_parts.specs.Fronts.{IsSizeOf};

use mv_ast::program::Program;
use mv_isa::labelled::Labelled;
use mv_isa::labels::{ENTRIES, TRAPS};
use mv_linker::{PartFunction, PartVariant, Parts, site_weight};
use mv_variants::size::{Size, with_lines};

/// There are as many numbers from the label of the first entry to those of the stubs.
const LABELS: u64 = (TRAPS - ENTRIES) as u64;

/// How many words the stubs have without that of calls through pointer switches, and how many that has.
const STUB_WORDS: u64 = 33;

const CHECK_WORDS: u64 = 6;

/// What is counted of code.
#[derive(Clone, Copy, Debug, Drop)]
pub enum Counted {
    /// Its slots, those of four words counted twice.
    Sites,
    /// Its own labels, and the one of its entry.
    Labels,
}

/// How many sites there are in the code of parts, as far as a `u64` goes.
pub fn site_count(parts: &Parts) -> u64
    ensures { result ≡ up_to_greatest (site_count parts.now) }
{
    in_parts(Counted::Sites, parts)
}

/// The size of the code of a program's functions, behind the stubs.
pub fn size_of(program: &Program, functions: &[Labelled]) -> Size
    ensures { IsSizeOf program.now functions.now result }
{
    let mut size = Size {
        words: stub_words(program),
        sites: 0,
    };
    for code in functions {
        size = with_lines(size, code.items.as_slice());
    }
    size
}

/// How many words the stubs of a program have.
fn stub_words(program: &Program) -> u64
    ensures { result ≡ lines_words (stub_lines 0 (nat_lt 0 (length program.now.pointers))) }
{
    if program.pointers.len() == 0 {
        STUB_WORDS
    } else {
        STUB_WORDS + CHECK_WORDS
    }
}

/// Whether there are numbers for all labels of parts.
pub fn labels_fit(parts: &Parts) -> bool
    ensures { IsTrue result ↔ HaveFewLabels parts.now }
{
    in_parts(Counted::Labels, parts) < LABELS
}

fn in_parts(what: Counted, parts: &Parts) -> u64
    ensures { result ≡ up_to_greatest (count_in_parts what parts.now) }
{
    let own = in_codes(what, 0, parts.functions.as_slice());
    in_functions(what, own, parts.attributed.as_slice())
}

// In some code, and a count.
fn in_codes(what: Counted, count: u64, codes: &[Labelled]) -> u64
    ensures { result ≡ up_to_greatest (count + sum_by (count_in what) codes.now) }
{
    let mut count = count;
    for code in codes {
        count = count.saturating_add(in_code(what, code));
    }
    count
}

// In the variants of some functions, and a count.
fn in_functions(what: Counted, count: u64, attributed: &[PartFunction]) -> u64
    ensures { result ≡ up_to_greatest (count + sum_by (count_in_function what) attributed.now) }
{
    let mut count = count;
    for function in attributed {
        count = in_variants(what, count, function.variants.as_slice());
    }
    count
}

// In some variants, and a count.
fn in_variants(what: Counted, count: u64, variants: &[PartVariant]) -> u64
    ensures { result ≡ up_to_greatest (count + sum_by (count_in_variant what) variants.now) }
{
    let mut count = count;
    for variant in variants {
        count = count.saturating_add(in_code(what, &variant.code));
    }
    count
}

fn in_code(what: Counted, code: &Labelled) -> u64
    ensures { result ≡ count_in what code.now }
{
    match what {
        Counted::Sites => site_weight(code.items.as_slice()) as u64,
        Counted::Labels => u64::from(code.labels) + 1,
    }
}
