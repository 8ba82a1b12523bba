ghost use Rattle.std.specs.Prelude.{◌≡◌, IfOk, OnOk};
ghost use Rattle.mv_check_outline.specs.Names.{with_names, among};
ghost use Rattle.mv_check_outline.specs.Outlined as spec;
ghost use Rattle.mv_check_outline.specs.Outlined.{IsOutlineOf};

use crate::names::Names;
use mv_syntax::unit::{Declarator, Item, Shape, Unit};
use std::alloc::{AllocError, Global};

/// Which of the declared names are looked for.
#[derive(Clone, Copy, PartialEq, Eq, Debug)]
pub enum Wanted {
    Functions,
    DefinedFunctions,
    MarkedFunctions,
    Objects,
    MarkedSwitches,
    MarkedPointers,
}

/// The functions that a unit defines and its objects, each in order of first declaration, and those of
/// them of which any declaration has the attribute: pointers apart from other objects. A name's place is its number.
#[derive(Drop)]
pub struct Outline {
    pub functions: Names,
    pub attributed: Names,
    pub objects: Names,
    pub switches: Names,
    pub pointers: Names,
}

/// Whether a declarator declares a function.
pub fn is_function(declarator: &Declarator) -> bool
    ensures { result ≡ spec.is_function declarator.now }
{
    match declarator.shape {
        Shape::Function(_) => true,
        _ => false,
    }
}

/// Whether a declarator declares a pointer to a function, and no array of them.
pub fn declares_pointer(declarator: &Declarator) -> bool
    ensures { result ≡ spec.declares_pointer declarator.now }
{
    match declarator.shape {
        Shape::Pointer(_, _) => true,
        _ => false,
    }
}

/// Whether a declarator has the attribute: among the specifiers of its item, or behind it.
pub fn is_marked(item: &Item, declarator: &Declarator) -> bool
    ensures { result ≡ spec.is_marked item.now declarator.now }
{
    item.specs.marks.len() > 0 || declarator.marks.len() > 0
}

/// The name of a declarator, empty where it has none.
pub fn name_of(declarator: &Declarator) -> &[u8]
    ensures { result.now ≡ spec.name_of declarator.now }
{
    match &declarator.name {
        Some(name) => name.bytes(),
        None => &[],
    }
}

fn is_wanted(wanted: Wanted, item: &Item, declarator: &Declarator) -> bool
    ensures { result ≡ spec.is_wanted wanted item.now declarator.now }
{
    match wanted {
        Wanted::Functions => is_function(declarator),
        Wanted::DefinedFunctions => is_function(declarator) && item.body.is_some(),
        Wanted::MarkedFunctions => is_function(declarator) && is_marked(item, declarator),
        Wanted::Objects => !is_function(declarator),
        Wanted::MarkedSwitches => {
            !is_function(declarator) && !declares_pointer(declarator) && is_marked(item, declarator)
        }
        Wanted::MarkedPointers => declares_pointer(declarator) && is_marked(item, declarator),
    }
}

// Adds the wanted names of one item.
fn add_names(
    alloc: Global,
    wanted: Wanted,
    item: &Item,
    names: &mut Names,
) -> Result<(), AllocError>
    ensures { OnOk result (names.new ≡ with_names names.old (spec.names_in wanted item.now)) }
{
    for declarator in item.names.as_slice() {
        if is_wanted(wanted, item, declarator) {
            names.add(alloc, name_of(declarator))?;
        }
    }
    Ok(())
}

fn all_names(alloc: Global, wanted: Wanted, items: &[Item]) -> Result<Names, AllocError>
    ensures { IfOk result (λ names. names ≡ spec.names wanted items.now) }
{
    let mut names = Names::new(alloc);
    for item in items {
        add_names(alloc, wanted, item, &mut names)?;
    }
    Ok(names)
}

// Those of some names that are wanted too.
fn names_among(
    alloc: Global,
    names: &Names,
    wanted: Wanted,
    items: &[Item],
) -> Result<Names, AllocError>
    ensures { IfOk result (λ found. found ≡ among (spec.names wanted items.now) names.now) }
{
    let others = all_names(alloc, wanted, items)?;
    names.among(alloc, &others)
}

// The functions that a unit defines.
fn functions_of(alloc: Global, items: &[Item]) -> Result<Names, AllocError>
    ensures { IfOk result (λ names. names ≡ spec.functions items.now) }
{
    let declared = all_names(alloc, Wanted::Functions, items)?;
    names_among(alloc, &declared, Wanted::DefinedFunctions, items)
}

/// What a unit declares at file scope.
pub fn outline_of(alloc: Global, unit: &Unit) -> Result<Outline, AllocError>
    ensures { IfOk result (λ o. IsOutlineOf unit.now.items o) }
{
    let items = unit.items.as_slice();
    let functions = functions_of(alloc, items)?;
    let attributed = names_among(alloc, &functions, Wanted::MarkedFunctions, items)?;
    let objects = all_names(alloc, Wanted::Objects, items)?;
    let switches = names_among(alloc, &objects, Wanted::MarkedSwitches, items)?;
    let pointers = names_among(alloc, &objects, Wanted::MarkedPointers, items)?;
    Ok(Outline {
        functions,
        attributed,
        objects,
        switches,
        pointers,
    })
}
