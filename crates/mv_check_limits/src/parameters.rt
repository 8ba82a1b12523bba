// The first number of parameters that is too many, in the order of the text.

ghost use Rattle.std.specs.Prelude.{◌≡◌, ◌∷◌, length, map};
ghost use Rattle.std.specs.List.{concat};
ghost use Rattle.mv_check_limits.specs.Limits.{first_above};
ghost use Rattle.mv_check_limits.specs.Ordered.{shape_parameters, declarator_parameters, line_parameters, act_parameters, optional_parameters, item_parameters, unit_parameters};

use crate::counts::are_too_many_parameters;
use mv_num::boxed::Boxed;
use mv_syntax::unit::{Act, Declarator, Item, Line, Param, Shape, Unit};

// ---- declarators

#[cycle(declarators)]
#[tactic(auto, using(crate::proofs::Forms::shapes))]
fn of_shape(shape: &Shape) -> Option<u64>
    ensures { result ≡ first_above 8 (shape_parameters shape.now) }
{
    match shape {
        Shape::Plain => None,
        Shape::Array(_) => None,
        Shape::Function(params) => of_type(params.as_slice()),
        Shape::Pointer(_, params) => of_type(params.as_slice()),
        Shape::PointerArray(_, _, params) => of_type(params.as_slice()),
    }
}

#[cycle(declarators)]
fn of_type(params: &[Param]) -> Option<u64>
    ensures { result ≡ first_above 8 (length params.now ∷ concat (map (λ p. declarator_parameters p.name) params.now)) }
{
    let count = params.len() as u64;
    if are_too_many_parameters(count) {
        Some(count)
    } else {
        of_params(params)
    }
}

#[cycle(declarators)]
fn of_params(params: &[Param]) -> Option<u64>
    ensures { result ≡ first_above 8 (concat (map (λ p. declarator_parameters p.name) params.now)) }
{
    for param in params {
        if let Some(count) = of_declarator(&param.name) {
            return Some(count);
        }
    }
    None
}

#[cycle(declarators)]
#[tactic(auto, using(crate::proofs::Forms::declarator_is))]
fn of_declarator(declarator: &Declarator) -> Option<u64>
    ensures { result ≡ first_above 8 (declarator_parameters declarator.now) }
{
    of_shape(&declarator.shape)
}

fn of_declarators(declarators: &[Declarator]) -> Option<u64>
    ensures { result ≡ first_above 8 (concat (map declarator_parameters declarators.now)) }
{
    for declarator in declarators {
        if let Some(count) = of_declarator(declarator) {
            return Some(count);
        }
    }
    None
}

// ---- statements

#[cycle(lines)]
#[tactic(auto, using(crate::proofs::Forms::line_is))]
fn of_line(line: &Line) -> Option<u64>
    ensures { result ≡ first_above 8 (line_parameters line.now) }
{
    of_act(&line.what)
}

#[cycle(lines)]
fn of_lines(lines: &[Line]) -> Option<u64>
    ensures { result ≡ first_above 8 (concat (map line_parameters lines.now)) }
{
    for line in lines {
        if let Some(count) = of_line(line) {
            return Some(count);
        }
    }
    None
}

#[cycle(lines)]
fn of_optional(line: &Option<Boxed<Line>>) -> Option<u64>
    ensures { result ≡ first_above 8 (optional_parameters line.now) }
{
    match line {
        Some(line) => of_line(line.get()),
        None => None,
    }
}

#[cycle(lines)]
#[tactic(auto, using(crate::proofs::Forms::acts))]
fn of_act(act: &Act) -> Option<u64>
    ensures { result ≡ first_above 8 (act_parameters act.now) }
{
    match act {
        Act::Block(lines) => of_lines(lines.as_slice()),
        Act::Declare(_, names) => of_declarators(names.as_slice()),
        Act::Express(_) => None,
        Act::If(_, first, second) => match of_line(first.get()) {
            Some(count) => Some(count),
            None => of_optional(second),
        },
        Act::While(_, body) => of_line(body.get()),
        Act::Do(body, _) => of_line(body.get()),
        Act::For(first, _, _, body) => match of_optional(first) {
            Some(count) => Some(count),
            None => of_line(body.get()),
        },
        Act::Switch(_, body) => of_line(body.get()),
        Act::Case(_) => None,
        Act::Default => None,
        Act::Break => None,
        Act::Continue => None,
        Act::Return(_) => None,
    }
}

// ---- units

fn of_body(body: &Option<Line>) -> Option<u64>
    ensures { result ≡ first_above 8 (optional_parameters body.now) }
{
    match body {
        Some(body) => of_line(body),
        None => None,
    }
}

#[tactic(auto, using(crate::proofs::Forms::in_both))]
fn of_item(item: &Item) -> Option<u64>
    ensures { result ≡ first_above 8 (item_parameters item.now) }
{
    match of_declarators(item.names.as_slice()) {
        Some(count) => Some(count),
        None => of_body(&item.body),
    }
}

fn of_items(items: &[Item]) -> Option<u64>
    ensures { result ≡ first_above 8 (concat (map item_parameters items.now)) }
{
    for item in items {
        if let Some(count) = of_item(item) {
            return Some(count);
        }
    }
    None
}

/// The first number of parameters in a unit that is too many.
pub fn parameters_of_unit(unit: &Unit) -> Option<u64>
    ensures { result ≡ first_above 8 (unit_parameters unit.now) }
{
    of_items(unit.items.as_slice())
}
