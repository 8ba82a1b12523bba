// The limits, by their numbers.

ghost use Rattle.std.specs.Prelude.{◌≡◌, None};
ghost use Rattle.mv_check_limits.specs.Limits.{reported, excess, values_limit, switches_of_function_limit, assignments_limit, pointers_limit, exceeded_by_counts};
ghost use Rattle.mv_check_limits.specs.Ordered.{ordered_elements, first_excess, exceeded_by_contents};

use crate::counts;
use crate::counts::{Counts, above};
use crate::elements::ordered_elements;
use crate::excess::Exceeded;
use mv_ast::program::Program;
use mv_syntax::unit::Unit;

fn reported(limit: u8, count: Option<u64>) -> Option<Exceeded>
    ensures { result ≡ reported limit count }
{
    match count {
        Some(count) => Some(Exceeded { limit, count }),
        None => None,
    }
}

#[tactic(auto, unfolding(crate::specs::Limits::excess))]
fn values(program: &Program) -> Option<Exceeded>
    ensures { result ≡ excess (values_limit program.now) }
{
    reported(5, counts::values(program))
}

#[tactic(auto, unfolding(crate::specs::Limits::excess))]
fn switches_of_functions(program: &Program) -> Option<Exceeded>
    ensures { result ≡ excess (switches_of_function_limit program.now) }
{
    reported(6, counts::switches_of_functions(program))
}

#[tactic(auto, unfolding(crate::specs::Limits::excess))]
fn assignments(program: &Program) -> Option<Exceeded>
    requires small { excess (values_limit program.now) ≡ None }
    requires few { excess (switches_of_function_limit program.now) ≡ None }
    ensures { result ≡ excess (assignments_limit program.now) }
{
    reported(7, counts::most_assignments(program))
}

#[tactic(auto, unfolding(crate::specs::Limits::excess))]
fn elements(unit: &Unit, program: &Program) -> Option<Exceeded>
    ensures { result ≡ excess (ordered_elements unit.now program.now) }
{
    reported(8, ordered_elements(unit, program))
}

#[tactic(auto, unfolding(crate::specs::Limits::excess))]
fn pointers(program: &Program) -> Option<Exceeded>
    ensures { result ≡ excess (pointers_limit program.now) }
{
    reported(9, above(64, program.pointers.len() as u64))
}

// The least of limits 5 to 9 that a program exceeds.
fn exceeded_by_contents(unit: &Unit, program: &Program) -> Option<Exceeded>
    ensures { result ≡ exceeded_by_contents unit.now program.now }
{
    if let Some(excess) = values(program) {
        return Some(excess);
    }
    if let Some(excess) = switches_of_functions(program) {
        return Some(excess);
    }
    if let Some(excess) = assignments(program) {
        return Some(excess);
    }
    if let Some(excess) = elements(unit, program) {
        return Some(excess);
    }
    pointers(program)
}

/// The least of limits 1 to 4 that a program with these counts exceeds. What it answers is what `exceeded` does of such a program.
pub fn exceeded_by_counts(counts: &Counts) -> Option<Exceeded>
    ensures { result ≡ exceeded_by_counts counts.now }
{
    if let Some(excess) = reported(1, above(1000, counts.functions)) {
        return Some(excess);
    }
    if let Some(excess) = reported(2, above(4096, counts.globals)) {
        return Some(excess);
    }
    if let Some(excess) = reported(3, counts.parameters) {
        return Some(excess);
    }
    reported(4, above(64, counts.switches))
}

/// The least limit that the program of a unit exceeds, with the count of the first part in order of declaration that exceeds it.
#[tactic(auto, using(crate::proofs::Firsts::by_counts))]
pub fn exceeded(unit: &Unit, program: &Program) -> Option<Exceeded>
    ensures { result ≡ first_excess unit.now program.now }
{
    match exceeded_by_counts(&counts::counts_of(unit, program)) {
        Some(excess) => Some(excess),
        None => exceeded_by_contents(unit, program),
    }
}
