// The program that a unit is, once all its declarations are judged.

ghost use Rattle.std.specs.Prelude.{◌≡◌, ◌++◌, IfOk, OnOk, codes, map, slice_get, [], if◌then◌else◌};
ghost use Rattle.mv_check_scope.specs.Spaces.{named};
ghost use Rattle.mv_check_uses.specs.Uses.{switches_named};
ghost use Rattle.mv_types.specs.Completed.{IsCompleted};
ghost use Rattle.mv_types.specs.Contents.{present, switch_of, switches_from};
ghost use Rattle.mv_types.specs.Units.{is_main_type, main_of, with_switches, program_of, program_judgement};

use crate::contents::{Completed, Contents, Object};
use crate::functions::is_plain_int;
use mv_ast::program::{Function, Global as Variable, Program, Signature, Switch};
use mv_check_expressions::error::RuleError;
use mv_check_expressions::rules;
use mv_check_scope::domain::Domain;
use mv_check_scope::meaning::Meaning;
use mv_check_scope::scope::Scope;
use mv_check_scope::signatures::SignatureList;
use mv_check_uses::uses::switches_named;
use mv_num::list::List;
use mv_num::results::both;
use mv_syntax::place::Place;
use std::alloc::{AllocError, Global};
use std::mem;

// Whether the signature with a number is that of `main`.
fn is_main_type(signatures: &[Signature], number: u32) -> bool
    ensures { result ≡ is_main_type (slice_get signatures.now number) }
{
    match signatures.get(number as usize) {
        None => false,
        Some(signature) => is_plain_int(signature),
    }
}

// The number of `main`.
fn main_of(scope: &Scope) -> Option<u32>
    ensures { result ≡ main_of scope.now.signatures (named (codes "main") scope.now.names.here) }
{
    match scope.names.find_here(b"main".as_slice()) {
        Some(Meaning::Function(routine)) => {
            if is_main_type(scope.signatures.as_slice(), routine.signature) {
                routine.number
            } else {
                None
            }
        }
        _ => None,
    }
}

// What the objects of a unit come to.
#[derive(Drop)]
struct Globals {
    globals: List<Variable>,
    switches: List<Switch>,
}

// The switch that a global is, if it has a domain.
fn add_switch(
    alloc: Global,
    switches: &mut List<Switch>,
    number: usize,
    domain: Option<Domain>,
) -> Result<(), AllocError>
    ensures { OnOk result (switches.new ≡ switches.old ++ switch_of number domain) }
{
    match domain {
        None => Ok(()),
        Some(domain) => {
            let global = number_of(number)?;
            let values = domain.to_list(alloc)?;
            drop(domain);
            switches.push(Switch { global, values })?;
            Ok(())
        }
    }
}

// A number of 32 bits. There is no memory for a 2^32nd global.
fn number_of(number: usize) -> Result<u32, AllocError>
    ensures { IfOk result (λ n. n ≡ number) }
{
    match u32::try_from(number) {
        Ok(number) => Ok(number),
        Err(_) => Err(AllocError),
    }
}

// The globals, and those of them that are switches.
#[tactic(auto, using(crate::proofs::Ends::objects))]
fn globals_of(alloc: Global, objects: List<Object>) -> Result<Globals, AllocError>
    ensures globals { IfOk result (λ g. g.globals ≡ map (λ o. o.global) objects) }
    ensures switches { IfOk result (λ g. g.switches ≡ switches_from 0 objects) }
{
    let mut globals = List::new(alloc);
    let mut switches = List::new(alloc);
    for object in objects.into_vec() {
        let Object {
            global,
            given: _,
            domain,
        } = object;
        add_switch(alloc, &mut switches, globals.len(), domain)?;
        globals.push(global)?;
    }
    Ok(Globals { globals, switches })
}

fn own_switches(
    alloc: Global,
    switches: &List<Switch>,
    function: &Function,
) -> Result<List<u32>, AllocError>
    ensures { IfOk result (λ own. own ≡ (if function.now.attributed then switches_named switches.now function.now.body else [])) }
{
    if function.attributed {
        switches_named(alloc, switches, &function.body)
    } else {
        Ok(List::new(alloc))
    }
}

fn with_switches(
    alloc: Global,
    switches: &List<Switch>,
    function: Function,
) -> Result<Function, AllocError>
    ensures { IfOk result (λ f. f ≡ with_switches switches.now function) }
{
    let own = own_switches(alloc, switches, &function);
    let (mut function, own) = both(function, own)?;
    function.switches = own;
    Ok(function)
}

// The functions that are defined, each with its switches.
#[tactic(auto, using(crate::proofs::Ends::functions))]
fn functions_of(
    alloc: Global,
    switches: &List<Switch>,
    functions: List<Option<Function>>,
) -> Result<List<Function>, AllocError>
    ensures { IfOk result (λ fs. fs ≡ map (with_switches switches.now) (present functions)) }
{
    let mut done = List::new(alloc);
    for function in functions.into_vec() {
        match function {
            None => {}
            Some(function) => done.push(with_switches(alloc, switches, function)?)?,
        }
    }
    Ok(done)
}

/// The program that declarations come to, with these pointer switches and this `main`. Each function's own switches are looked for among all of them, and each
/// switch has a list of its own of its values: call it only once there are known to be few.
#[tactic(auto, unfolding(crate::specs::Units::program_of))]
pub fn program_of(
    alloc: Global,
    contents: Contents,
    pointers: List<u32>,
    main: u32,
) -> Result<Program, AllocError>
    ensures { IfOk result (λ p. p ≡ program_of contents pointers main) }
{
    let Contents {
        mut scope,
        objects,
        functions,
    } = contents;
    let signatures = mem::replace(&mut scope.signatures, SignatureList::new(alloc)).into_list();
    drop(scope);
    let ((signatures, functions, pointers), made) = both(
        (signatures, functions, pointers),
        globals_of(alloc, objects),
    )?;
    let Globals { globals, switches } = made;
    let functions = functions_of(alloc, &switches, functions);
    let ((signatures, globals, switches, pointers), functions) = both(
        (signatures, globals, switches, pointers),
        functions,
    )?;
    Ok(Program {
        signatures,
        globals,
        functions,
        switches,
        pointers,
        main,
    })
}

/// What a unit that ends at a place comes to, by what its declarations do. The rule of `main` is broken where it has no `main`.
#[tactic(auto, unfolding(crate::specs::Units::program_judgement))]
pub fn complete(
    place: Place,
    contents: Contents,
    pointers: List<u32>,
) -> Result<Completed, RuleError>
    ensures { IsCompleted (program_judgement place pointers contents) result }
{
    match main_of(&contents.scope) {
        None => {
            drop(contents);
            drop(pointers);
            Err(RuleError::Rule(place, rules::MAIN))
        }
        Some(main) => Ok(Completed {
            contents,
            pointers,
            main,
        }),
    }
}
