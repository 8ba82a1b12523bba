// The first number of elements of an array that is too many, in the order of the text.

ghost use Rattle.std.specs.Prelude.{◌≡◌, map};
ghost use Rattle.std.specs.List.{concat};
ghost use Rattle.mv_check_limits.specs.Limits.{first_above};
ghost use Rattle.mv_check_limits.specs.Ordered.{has_name, global_elements, local_elements, declarator_elements, item_elements, unit_elements, ordered_elements};

use crate::counts::{all_elements, elements, elements_of};
use mv_ast::program::{Function, Global, Program};
use mv_num::text::Text;
use mv_syntax::unit::{Declarator, Item, Line, Unit};

fn has_name(name: &Text, declared: &Option<Text>) -> bool
    ensures { result ≡ has_name name.now declared.now }
{
    match declared {
        None => false,
        Some(declared) => name.bytes() == declared.bytes(),
    }
}

// The names of all globals are compared with each declared name: only those that are too long are looked at.
fn of_global(name: &Option<Text>, global: &Global) -> Option<u64>
    ensures { result ≡ first_above 262144 (global_elements name.now global.now) }
{
    let count = elements(global.size);
    if count > 262_144 && has_name(&global.name, name) {
        Some(count)
    } else {
        None
    }
}

fn of_globals(name: &Option<Text>, globals: &[Global]) -> Option<u64>
    ensures { result ≡ first_above 262144 (concat (map (global_elements name.now) globals.now)) }
{
    for global in globals {
        if let Some(count) = of_global(name, global) {
            return Some(count);
        }
    }
    None
}

fn of_function(name: &Option<Text>, function: &Function) -> Option<u64>
    ensures { result ≡ first_above 262144 (local_elements name.now function.now) }
{
    if has_name(&function.name, name) {
        elements_of(function.locals.as_slice())
    } else {
        None
    }
}

fn of_functions(name: &Option<Text>, functions: &[Function]) -> Option<u64>
    ensures { result ≡ first_above 262144 (concat (map (local_elements name.now) functions.now)) }
{
    for function in functions {
        if let Some(count) = of_function(name, function) {
            return Some(count);
        }
    }
    None
}

fn of_declarator(program: &Program, body: &Option<Line>, declarator: &Declarator) -> Option<u64>
    ensures { result ≡ first_above 262144 (declarator_elements program.now body.now declarator.now) }
{
    match body {
        None => of_globals(&declarator.name, program.globals.as_slice()),
        Some(_) => of_functions(&declarator.name, program.functions.as_slice()),
    }
}

fn of_declarators(program: &Program, body: &Option<Line>, declarators: &[Declarator]) -> Option<u64>
    ensures { result ≡ first_above 262144 (concat (map (declarator_elements program.now body.now) declarators.now)) }
{
    for declarator in declarators {
        if let Some(count) = of_declarator(program, body, declarator) {
            return Some(count);
        }
    }
    None
}

fn of_item(program: &Program, item: &Item) -> Option<u64>
    ensures { result ≡ first_above 262144 (item_elements program.now item.now) }
{
    of_declarators(program, &item.body, item.names.as_slice())
}

fn of_items(program: &Program, items: &[Item]) -> Option<u64>
    ensures { result ≡ first_above 262144 (concat (map (item_elements program.now) items.now)) }
{
    for item in items {
        if let Some(count) = of_item(program, item) {
            return Some(count);
        }
    }
    None
}

/// The first array that is too long. The text is looked at only where the program has one.
#[tactic(auto, using(crate::proofs::Told::ordered))]
pub fn ordered_elements(unit: &Unit, program: &Program) -> Option<u64>
    ensures { result ≡ first_above 262144 (ordered_elements unit.now program.now).counts }
{
    let count = all_elements(program);
    if count.is_none() {
        return None;
    }
    match of_items(program, unit.items.as_slice()) {
        Some(first) => Some(first),
        None => count,
    }
}
