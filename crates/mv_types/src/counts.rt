// The counts of a unit and the program that it comes to, before the program is made.

ghost use Rattle.std.specs.Prelude.{◌≡◌, ◌++◌, length, map, is_some, count_by};
ghost use Rattle.mv_check_limits.specs.Limits.{first_above};
ghost use Rattle.mv_check_limits.specs.Ordered.{counts_of, unit_parameters};
ghost use Rattle.mv_types.specs.Completed.{completed_program, params_or_none};

use crate::contents::{Completed, Object};
use mv_ast::program::{Function, Signature};
use mv_check_limits::counts::{Counts, are_too_many_parameters};
use mv_check_limits::parameters::parameters_of_unit;
use mv_syntax::unit::Unit;

fn count_defined(functions: &[Option<Function>]) -> u64
    ensures { result ≡ count_by (λ f. is_some f) functions.now }
{
    let mut count: u64 = 0;
    for function in functions {
        if function.is_some() {
            count += 1;
        }
    }
    count
}

fn count_switches(objects: &[Object]) -> u64
    ensures { result ≡ count_by (λ o. is_some o.domain) objects.now }
{
    objects.iter().filter(|o| o.domain.is_some()).count() as u64
}

// How many parameters a function has if it is defined, and else 0.
fn params_or_none(function: &Option<Function>) -> u64
    ensures { result ≡ params_or_none function.now }
{
    match function {
        Some(function) => u64::from(function.params),
        None => 0,
    }
}

// The first number of parameters of some types and functions that is too many.
fn parameters_of(signatures: &[Signature], functions: &[Option<Function>]) -> Option<u64>
    ensures { result ≡ first_above 8 (map (λ s. length s.params) signatures.now ++ map params_or_none functions.now) }
{
    let of_types = signatures.iter().map(|s| s.params.len() as u64);
    let of_functions = functions.iter().map(|f| params_or_none(f));
    of_types
        .chain(of_functions)
        .find(|count| are_too_many_parameters(*count))
}

// The first number of parameters that is too many, in the order of the text.
#[tactic(auto, using(mv_check_limits::proofs::Forms::in_both))]
fn parameters(unit: &Unit, signatures: &[Signature], functions: &[Option<Function>]) -> Option<u64>
    ensures { result ≡ first_above 8 (unit_parameters unit.now ++ (map (λ s. length s.params) signatures.now ++ map params_or_none functions.now)) }
{
    match parameters_of_unit(unit) {
        Some(count) => Some(count),
        None => parameters_of(signatures, functions),
    }
}

/// The counts of a unit and the program that it comes to.
#[tactic(auto, using(crate::proofs::Counted::counted))]
pub fn counts_of(unit: &Unit, completed: &Completed) -> Counts
    ensures { result ≡ counts_of unit.now (completed_program completed.now) }
{
    let contents = &completed.contents;
    let signatures = contents.scope.signatures.as_slice();
    let functions = contents.functions.as_slice();
    Counts {
        functions: count_defined(functions),
        globals: contents.objects.len() as u64,
        parameters: parameters(unit, signatures, functions),
        switches: count_switches(contents.objects.as_slice()),
    }
}
