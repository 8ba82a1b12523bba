//! The domains of a function's switches.

ghost use Rattle.std.specs.Prelude.{◌≡◌, ◌<◌, ◌^◌, All, map, slice_get, IfOk};
ghost use Rattle.mv_variants.specs.Domains as spec;

use mv_ast::program::{CType, Program};
use mv_merge::rows::Domain;
use mv_num::kind::Kind;
use mv_num::list::List;
use std::alloc::{AllocError, Global};

/// The integer type of the switch with a number, and `int` where there is none.
pub fn switch_kind(program: &Program, switch: u32) -> Kind
    ensures { result ≡ spec.switch_kind program.now switch }
{
    let global = match program.switches.get(switch as usize) {
        Some(switch) => switch.global,
        None => 0,
    };
    kind_of_global(program, global)
}

// The integer type of the global with a number.
fn kind_of_global(program: &Program, global: u32) -> Kind
    ensures { result ≡ spec.kind_or_int (slice_get program.now.globals global) }
{
    match program.globals.get(global as usize) {
        Some(global) => kind_of(global.ctype),
        None => Kind::Int,
    }
}

// An integer type, and `int` for any other.
fn kind_of(ctype: CType) -> Kind
    ensures { result ≡ spec.integer_kind ctype }
{
    match ctype {
        CType::Scalar(kind) => kind,
        CType::Void => Kind::Int,
        CType::Pointer(_) => Kind::Int,
    }
}

/// The domains of the switches of the function with a number, in their order.
pub(crate) fn domains_of(
    alloc: Global,
    program: &Program,
    function: u32,
) -> Result<List<Domain>, AllocError>
    ensures { IfOk result (spec.AreDomainsOf (spec.own_domains program.now function)) }
{
    match program.functions.get(function as usize) {
        Some(function) => domains(alloc, program, function.switches.as_slice()),
        None => Ok(List::new(alloc)),
    }
}

// The domains of some switches.
fn domains(alloc: Global, program: &Program, switches: &[u32]) -> Result<List<Domain>, AllocError>
    ensures { IfOk result (spec.AreDomainsOf (map (spec.domain program.now) switches.now)) }
{
    let mut domains = List::new(alloc);
    for switch in switches {
        domains.push(domain(alloc, program, *switch)?)?;
    }
    Ok(domains)
}

// The domain of a switch, which is empty where there is none.
fn domain(alloc: Global, program: &Program, switch: u32) -> Result<Domain, AllocError>
    ensures { IfOk result (spec.IsDomain (spec.domain program.now switch)) }
{
    let kind = switch_kind(program, switch);
    let values = match program.switches.get(switch as usize) {
        Some(switch) => switch.values.copied(alloc)?,
        None => List::new(alloc),
    };
    are_words(values.as_slice());
    Ok(Domain { kind, values })
}

// Words have 32 bits. The walk changes nothing; it is for the clause.
fn are_words(words: &[u32])
    ensures { All (λ w. w < 2 ^ 32) words.now }
{
    for word in words {
        let _read = *word;
    }
}
