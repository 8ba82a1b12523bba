// What is known of a unit's names before its first declaration is judged.

ghost use Rattle.std.specs.Prelude.{◌≡◌, IfOk, OnOk};
ghost use Rattle.mv_check_outline.specs.Names.{with_names, place_of, place_behind};
ghost use Rattle.mv_types.specs.Foreknown as spec;

use crate::contents::Foreknown;
use mv_check_declarations::attributes;
use mv_check_outline::names::Names;
use mv_check_outline::outline::{is_function, is_marked, name_of, outline_of};
use mv_num::list::List;
use mv_num::results::both;
use mv_syntax::unit::{Declarator, Item, Unit};
use std::alloc::{AllocError, Global};

/// What a declaration may say of a name for its uses further up: that it is a `const` object, or that it is an attributed function.
#[derive(Clone, Copy, PartialEq, Eq, Debug)]
pub enum Said {
    Constant,
    Attributed,
}

fn is_constant(item: &Item, declarator: &Declarator) -> bool
    ensures { result ≡ spec.is_constant item.now declarator.now }
{
    attributes::is_constant(item.specs.fixed, &declarator.shape)
}

fn is_said(said: Said, item: &Item, declarator: &Declarator) -> bool
    ensures { result ≡ spec.is_said said item.now declarator.now }
{
    match said {
        Said::Constant => is_constant(item, declarator),
        Said::Attributed => is_function(declarator) && is_marked(item, declarator),
    }
}

fn add_names(alloc: Global, said: Said, item: &Item, names: &mut Names) -> Result<(), AllocError>
    ensures { OnOk result (names.new ≡ with_names names.old (spec.names_in said item.now)) }
{
    for declarator in item.names.as_slice() {
        if is_said(said, item, declarator) {
            names.add(alloc, name_of(declarator))?;
        }
    }
    Ok(())
}

fn all_names(alloc: Global, said: Said, items: &[Item]) -> Result<Names, AllocError>
    ensures { IfOk result (λ names. names ≡ spec.names said items.now) }
{
    let mut names = Names::new(alloc);
    for item in items {
        add_names(alloc, said, item, &mut names)?;
    }
    Ok(names)
}

/// What is known of a unit's names before its first declaration is judged.
#[tactic(auto, unfolding(crate::specs::Foreknown::foreknown), using(crate::proofs::Outlines::outlined_as))]
pub fn foreknown_of(alloc: Global, unit: &Unit) -> Result<Foreknown, AllocError>
    ensures { IfOk result (λ known. known ≡ spec.foreknown unit.now.items) }
{
    let items = unit.items.as_slice();
    let attributed = all_names(alloc, Said::Attributed, items)?;
    let (attributed, constants) = both(attributed, all_names(alloc, Said::Constant, items))?;
    let ((attributed, constants), outline) = both(
        (attributed, constants),
        outline_of(alloc, unit),
    )?;
    Ok(Foreknown {
        outline,
        attributed,
        constants,
    })
}

/// The number of a name among some. There is no memory for a 2^32nd name.
pub fn number_among(names: &Names, name: &[u8]) -> Result<Option<u32>, AllocError>
    ensures { IfOk result (λ number. number ≡ place_of name.now names.now) }
{
    match names.number_of(name) {
        None => Ok(None),
        Some(number) => {
            if number > 0xFFFF_FFFF {
                Err(AllocError)
            } else {
                Ok(Some(number as u32))
            }
        }
    }
}

/// The number of an object that has the attribute among these: the switches come first, and behind them the pointer switches.
#[tactic(auto, using(mv_check_outline::proofs::Places::place_of_both))]
pub fn switch_number(known: &Foreknown, name: &[u8]) -> Result<Option<u32>, AllocError>
    ensures { IfOk result (λ number. number ≡ spec.switch_number known.now name.now) }
{
    let switch = number_among(&known.outline.switches, name)?;
    let pointer = number_among(&known.outline.pointers, name)?;
    let behind = number_behind(known.outline.switches.len(), pointer)?;
    Ok(switch.or(behind))
}

// A number behind so many others. There is no memory for 2^32 names.
fn number_behind(count: usize, number: Option<u32>) -> Result<Option<u32>, AllocError>
    ensures { IfOk result (λ behind. behind ≡ place_behind count number) }
{
    match number {
        None => Ok(None),
        Some(number) => match u32::try_from(count) {
            Err(_) => Err(AllocError),
            Ok(count) => match count.checked_add(number) {
                None => Err(AllocError),
                Some(number) => Ok(Some(number)),
            },
        },
    }
}

/// The pointer switches, by their numbers among the objects.
pub fn pointers_of(alloc: Global, known: &Foreknown) -> Result<List<u32>, AllocError>
    ensures { IfOk result (λ pointers. pointers ≡ spec.pointers_of known.now) }
{
    known
        .outline
        .pointers
        .numbers_in(alloc, &known.outline.objects)
}

/// The number of a function among the attributed ones, if it is one. One that isn't defined has the number 0.
pub fn attributed_number(known: &Foreknown, name: &[u8]) -> Result<Option<u32>, AllocError>
    ensures { IfOk result (λ number. number ≡ spec.attributed_number known.now name.now) }
{
    let number = number_among(&known.outline.attributed, name)?;
    if known.attributed.has(name) {
        Ok(Some(number.unwrap_or(0)))
    } else {
        Ok(None)
    }
}
