// The first count of a program that exceeds a limit.

ghost use Rattle.std.specs.Prelude.{◌≡◌, ◌≤◌, [], ◌∷◌, None, map, IsTrue, length, nat_lt};
ghost use Rattle.mv_ast.specs.Counts.{assignments, product_of, elements_of};
ghost use Rattle.mv_ast.specs.Switches.{switch_domain};
ghost use Rattle.mv_check_limits.specs.Limits.{first_above, own_switches, global_sizes, local_sizes, parameters_limit, values_limit, switches_of_function_limit, assignments_limit, elements_limit};
ghost use Rattle.mv_check_limits.specs.Ordered.{counts_of, ordered_parameters};

use crate::parameters::parameters_of_unit;
use mv_ast::program::{Function, Local, Program};
use mv_syntax::unit::Unit;

/// The counts of a unit and its program that decide the first four limits.
#[derive(Clone, Copy, Debug, PartialEq, Eq)]
pub struct Counts {
    pub functions: u64,
    pub globals: u64,
    /// The first number of parameters, of a function or of the type of a function pointer, that is too many.
    pub parameters: Option<u64>,
    pub switches: u64,
}

/// Whether a function may not have so many parameters.
pub fn are_too_many_parameters(count: u64) -> bool
    ensures { result ≡ nat_lt 8 count }
{
    count > 8
}

/// A count, where it is above a bound.
pub fn above(greatest: u64, count: u64) -> Option<u64>
    ensures { result ≡ first_above greatest (count ∷ []) }
{
    if count > greatest { Some(count) } else { None }
}

fn parameters_of_program(program: &Program) -> Option<u64>
    ensures { result ≡ first_above 8 (parameters_limit program.now).counts }
{
    let of_types = program
        .signatures
        .as_slice()
        .iter()
        .map(|s| s.params.len() as u64);
    let of_functions = program
        .functions
        .as_slice()
        .iter()
        .map(|f| u64::from(f.params));
    of_types.chain(of_functions).find(|count| *count > 8)
}

#[tactic(auto, using(crate::proofs::Forms::in_both))]
fn parameters(unit: &Unit, program: &Program) -> Option<u64>
    ensures { result ≡ first_above 8 (ordered_parameters unit.now program.now).counts }
{
    match parameters_of_unit(unit) {
        Some(count) => Some(count),
        None => parameters_of_program(program),
    }
}

/// The counts of a unit and its program.
pub fn counts_of(unit: &Unit, program: &Program) -> Counts
    ensures { result ≡ counts_of unit.now program.now }
{
    Counts {
        functions: program.functions.len() as u64,
        globals: program.globals.len() as u64,
        parameters: parameters(unit, program),
        switches: program.switches.len() as u64,
    }
}

/// The first number of values of a switch's domain that is too many: above 16.
pub fn values(program: &Program) -> Option<u64>
    ensures { result ≡ first_above 16 (values_limit program.now).counts }
{
    program
        .switches
        .as_slice()
        .iter()
        .map(|s| s.values.len() as u64)
        .find(|count| *count > 16)
}

fn own_switches(function: &Function) -> u64
    ensures { result ≡ own_switches function.now }
{
    if function.attributed {
        function.switches.len() as u64
    } else {
        0
    }
}

/// The first number of switches of an attributed function that is too many: above 6.
pub fn switches_of_functions(program: &Program) -> Option<u64>
    ensures { result ≡ first_above 6 (switches_of_function_limit program.now).counts }
{
    let functions = program.functions.as_slice().iter();
    functions.map(|f| own_switches(f)).find(|count| *count > 6)
}

/// How many elements an array of this size has, and 0 for what is no array.
pub fn elements(size: Option<u32>) -> u64
    ensures { result ≡ elements_of size }
{
    match size {
        Some(size) => u64::from(size),
        None => 0,
    }
}

fn global_elements(program: &Program) -> Option<u64>
    ensures { result ≡ first_above 262144 (global_sizes program.now) }
{
    program
        .globals
        .as_slice()
        .iter()
        .map(|g| elements(g.size))
        .find(|count| *count > 262_144)
}

/// The first number of elements of some locals that is too many: above 262,144.
pub fn elements_of(locals: &[Local]) -> Option<u64>
    ensures { result ≡ first_above 262144 (map (λ l. elements_of l.size) locals.now) }
{
    locals
        .iter()
        .map(|l| elements(l.size))
        .find(|count| *count > 262_144)
}

fn local_elements(program: &Program) -> Option<u64>
    ensures { result ≡ first_above 262144 (local_sizes program.now) }
{
    for function in program.functions.as_slice() {
        if let Some(count) = elements_of(function.locals.as_slice()) {
            return Some(count);
        }
    }
    None
}

// How many values the domain of a switch has.
fn domain_size(program: &Program, switch: u32) -> u64
    ensures { result ≡ length (switch_domain program.now switch) }
{
    match program.switches.get(switch as usize) {
        Some(switch) => switch.values.len() as u64,
        None => 0,
    }
}

// The number of combinations of the values of some switches.
fn combinations(program: &Program, switches: &[u32]) -> u64
    requires small { first_above 16 (values_limit program.now).counts ≡ None }
    requires few { length switches.now ≤ 6 }
    ensures { result ≡ product_of (map (λ s. length (switch_domain program.now s)) switches.now) }
{
    let mut product: u64 = 1;
    for switch in switches {
        product *= domain_size(program, *switch);
    }
    product
}

fn assignments(program: &Program, function: &Function) -> u64
    requires small { first_above 16 (values_limit program.now).counts ≡ None }
    requires few { IsTrue function.now.attributed → length function.now.switches ≤ 6 }
    ensures { result ≡ assignments program.now function.now }
{
    if function.attributed {
        combinations(program, function.switches.as_slice())
    } else {
        0
    }
}

/// The first number of assignments of a function's switches that is too many: above 64. A function that isn't attributed has
/// none.
pub fn most_assignments(program: &Program) -> Option<u64>
    requires small { first_above 16 (values_limit program.now).counts ≡ None }
    requires few { first_above 6 (switches_of_function_limit program.now).counts ≡ None }
    ensures { result ≡ first_above 64 (assignments_limit program.now).counts }
{
    for function in program.functions.as_slice() {
        let count = assignments(program, function);
        if count > 64 {
            return Some(count);
        }
    }
    None
}

/// The first number of elements that is too many, above 262,144: of the globals, and then of the locals of each function.
pub fn all_elements(program: &Program) -> Option<u64>
    ensures { result ≡ first_above 262144 (elements_limit program.now).counts }
{
    match global_elements(program) {
        Some(count) => Some(count),
        None => local_elements(program),
    }
}
