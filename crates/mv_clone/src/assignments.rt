// All assignments of a function's switches.

ghost use Rattle.std.specs.Prelude.{◌≡◌, [], ◌∷◌, ◌++◌, true, length, map, slice_get, IfOk, OnOk};
ghost use Rattle.mv_ast.specs.Switches.{switch_domain};
ghost use Rattle.mv_ast.specs.Counts.{is_attributed, product_of};
ghost use Rattle.mv_ir.specs.Measures.{joined};
ghost use Rattle.mv_ir.specs.Combinations.{combinations, values_of, AreDomains, AreAllCombinations};
ghost use Rattle.mv_clone.specs.Assignments.{domains_of};

use mv_ast::program::Program;
use mv_ir::body::Assignment;
use mv_num::list::List;
use std::alloc::{AllocError, Global};

/// The assignments of an attributed function, by its index among the program's functions. The last switch changes
/// fastest. A function without switches has one, the empty one.
///
/// `every`: they are all combinations of the domains of its switches, each once, as no domain has a value twice.
pub fn assignments(
    alloc: Global,
    program: &Program,
    function: u32,
) -> Result<List<Assignment>, AllocError>
    requires { is_attributed (slice_get program.now.functions function) ≡ true }
    ensures order { IfOk result (λ all. values_of all ≡ combinations (domains_of program.now function)) }
    ensures every { AreDomains (domains_of program.now function) → IfOk result (λ all. AreAllCombinations (domains_of program.now function) (values_of all)) }
    ensures count { IfOk result (λ all. length all ≡ product_of (map (λ d. length d) (domains_of program.now function))) }
{
    match program.functions.get(function as usize) {
        Some(f) => combined(alloc, program, f.switches.as_slice()),
        None => Ok(List::new(alloc)),
    }
}

// The assignments of some switches.
fn combined(
    alloc: Global,
    program: &Program,
    switches: &[u32],
) -> Result<List<Assignment>, AllocError>
    ensures { IfOk result (λ all. values_of all ≡ combinations (map (switch_domain program.now) switches.now)) }
{
    if switches.len() == 0 {
        return none(alloc);
    }
    let rests = combined(alloc, program, &switches[1..])?;
    of_switch(alloc, program, switches[0], &rests)
}

// The one assignment of no switch.
fn none(alloc: Global) -> Result<List<Assignment>, AllocError>
    ensures { IfOk result (λ all. values_of all ≡ [] ∷ []) }
{
    let mut all = List::new(alloc);
    all.push(Assignment {
        values: List::new(alloc),
    })?;
    Ok(all)
}

// Each value of a switch before each of some assignments.
fn of_switch(
    alloc: Global,
    program: &Program,
    switch: u32,
    rests: &List<Assignment>,
) -> Result<List<Assignment>, AllocError>
    ensures { IfOk result (λ all. values_of all ≡ joined (map (λ v. map (λ rest. v ∷ rest) (values_of rests.now)) (switch_domain program.now switch))) }
{
    match program.switches.get(switch as usize) {
        Some(s) => spread(alloc, &s.values, rests),
        None => Ok(List::new(alloc)),
    }
}

// Each value of a domain before each of some assignments.
fn spread(
    alloc: Global,
    domain: &List<u32>,
    rests: &List<Assignment>,
) -> Result<List<Assignment>, AllocError>
    ensures { IfOk result (λ all. values_of all ≡ joined (map (λ v. map (λ rest. v ∷ rest) (values_of rests.now)) domain.now)) }
{
    let mut all = List::new(alloc);
    for value in domain.as_slice() {
        extend(alloc, &mut all, *value, rests)?;
    }
    Ok(all)
}

// Adds the value before each of some assignments.
fn extend(
    alloc: Global,
    all: &mut List<Assignment>,
    value: u32,
    rests: &List<Assignment>,
) -> Result<(), AllocError>
    ensures { OnOk result (values_of all.new ≡ values_of all.old ++ map (λ rest. value ∷ rest) (values_of rests.now)) }
{
    for rest in rests.as_slice() {
        all.push(with_first(alloc, value, rest)?)?;
    }
    Ok(())
}

fn with_first(alloc: Global, value: u32, rest: &Assignment) -> Result<Assignment, AllocError>
    ensures { IfOk result (λ a. a.values ≡ value ∷ rest.now.values) }
{
    let mut values = List::new(alloc);
    values.push(value)?;
    for v in rest.values.as_slice() {
        values.push(*v)?;
    }
    Ok(Assignment { values })
}
