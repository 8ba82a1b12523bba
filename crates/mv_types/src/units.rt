// The declarations of a unit in their order (C11 6.9).

ghost use Rattle.std.specs.Prelude.{◌≡◌, IfOk, OnOk, None, replicate, true};
ghost use Rattle.std.specs.List.{list_any};
ghost use Rattle.mv_check_expressions.specs.Judged.{and_then, IsJudged};
ghost use Rattle.mv_check_declarations.specs.declared.attributes.Position.TheVariants as position;
ghost use Rattle.mv_check_outline.specs.Outlined.{declares_pointer};
ghost use Rattle.mv_check_declarations.specs.Specifiers.{specifiers};
ghost use Rattle.mv_check_declarations.specs.Turns.{through, IsBehind};
ghost use Rattle.mv_types.specs.Completed.{IsCompleted};
ghost use Rattle.mv_types.specs.Contents.{nothing_declared, IsContinued};
ghost use Rattle.mv_types.specs.Foreknown.{is_fixed, pointers_of};
ghost use Rattle.mv_types.specs.Objects.{object_judgement, domain_by};
ghost use Rattle.mv_types.specs.Repeated.{is_bare, AreSettled};
ghost use Rattle.mv_types.specs.Units.{base_of, by_entity, nameless_values, named_declarator, declarator_judgement, declares_constant, holders, declares_nothing, names_judgement, item_judgement, program_judgement, unit_judgement};

use crate::contents::{Completed, Contents, Foreknown};
use crate::foreknown::{foreknown_of, pointers_of};
use crate::program::complete;
use crate::{functions, objects};
use mv_ast::program::{Function, Local};
use mv_check_declarations::attributes::{Attribute, Position, shared};
use mv_check_declarations::declarators::Entity;
use mv_check_declarations::globals::{Designated, file_declarator, global_words};
use mv_check_declarations::initials::{array_size, check_plain_values};
use mv_check_declarations::objects::{scalar, sized};
use mv_check_declarations::specifiers::{Specified, specifiers};
use mv_check_expressions::error::RuleError;
use mv_check_expressions::rules;
use mv_check_outline::names::Names;
use mv_check_outline::outline::{declares_pointer, is_function, name_of};
use mv_check_scope::scope::Scope;
use mv_num::list::List;
use mv_num::results::both;
use mv_syntax::unit::{Declarator, Initial, Item, Line, Shape, Unit};
use std::alloc::{AllocError, Global};

fn is_fixed(known: &Foreknown, name: &[u8]) -> bool
    ensures { result ≡ is_fixed known.now name.now }
{
    known.constants.has(name)
}

// ---- declarators

// Declares an object, with the domain that its attribute gives it.
fn declare_object(
    alloc: Global,
    known: &Foreknown,
    enumeration: Option<u32>,
    block: bool,
    declarator: &Declarator,
    name: &[u8],
    local: Local,
    attribute: Option<Attribute>,
    contents: &mut Contents,
) -> Result<(), RuleError>
    ensures { IsContinued (object_judgement known.now declarator.now name.now local (domain_by (declares_pointer declarator.now) contents.old.scope enumeration attribute) block contents.old) result contents.new }
{
    let pointer = declares_pointer(declarator);
    let domain = objects::domain_by(alloc, pointer, &contents.scope, enumeration, attribute)?;
    objects::declare(
        alloc, known, declarator, name, local, domain, block, contents,
    )
}

// Declares what a declarator designates under its name.
fn by_entity(
    alloc: Global,
    known: &Foreknown,
    base: &Specified,
    body: &Option<Line>,
    declarator: &Declarator,
    name: &[u8],
    designated: Designated,
    contents: &mut Contents,
) -> Result<(), RuleError>
    ensures { IsContinued (by_entity known.now base.now body.now declarator.now name.now designated.entity designated.attribute contents.old) result contents.new }
{
    let Designated { entity, attribute } = designated;
    let local = match entity {
        Entity::Function(signature) => {
            return functions::declare(
                alloc, known, declarator, name, base.ctype, signature, body, contents,
            );
        }
        Entity::Scalar(ctype, _) => scalar(ctype),
        Entity::Array(ctype, _, size) => sized(ctype, array_size(size, &declarator.initial)?),
    };
    let enumeration = base.enumeration;
    let block = body.is_some();
    declare_object(
        alloc,
        known,
        enumeration,
        block,
        declarator,
        name,
        local,
        attribute,
        contents,
    )
}

// Judges the initial value of a declarator without a name.
fn check_nameless_values(
    alloc: Global,
    entity: Entity,
    initial: &Option<Initial>,
    scope: &Scope,
) -> Result<(), RuleError>
    ensures { IsJudged (nameless_values entity initial.now scope.now) result }
{
    let local = match entity {
        Entity::Function(_) => return check_plain_values(alloc, initial, scope),
        Entity::Scalar(ctype, _) => scalar(ctype),
        Entity::Array(ctype, _, size) => sized(ctype, array_size(size, initial)?),
    };
    drop(global_words(alloc, local, initial, scope)?);
    Ok(())
}

#[tactic(auto, unfolding(crate::specs::Units::named_declarator))]
fn named_declarator(
    alloc: Global,
    known: &Foreknown,
    base: &Specified,
    body: &Option<Line>,
    declarator: &Declarator,
    designated: Designated,
    contents: &mut Contents,
) -> Result<(), RuleError>
    ensures { IsContinued (named_declarator known.now base.now body.now declarator.now declarator.now.name designated contents.old) result contents.new }
{
    match &declarator.name {
        None => {
            let initial = &declarator.initial;
            check_nameless_values(alloc, designated.entity, initial, &contents.scope)?;
            Err(RuleError::Rule(declarator.place, rules::DECLARATIONS))
        }
        Some(name) => by_entity(
            alloc,
            known,
            base,
            body,
            declarator,
            name.bytes(),
            designated,
            contents,
        ),
    }
}

// What the specifiers say of a declarator: one of a `const` object has the word `const`, in whatever declaration it stands.
fn base_of(
    known: &Foreknown,
    declarator: &Declarator,
    base: &Specified,
) -> Result<Specified, AllocError>
    ensures { IfOk result (λ b. b ≡ base_of known.now declarator.now base.now) }
{
    let attribute = shared(&base.attribute)?;
    Ok(Specified {
        ctype: base.ctype,
        fixed: is_fixed(known, name_of(declarator)),
        enumeration: base.enumeration,
        attribute,
    })
}

#[tactic(auto, unfolding(crate::specs::Units::declarator_judgement))]
fn declare(
    alloc: Global,
    known: &Foreknown,
    base: &Specified,
    body: &Option<Line>,
    declarator: &Declarator,
    contents: &mut Contents,
) -> Result<(), RuleError>
    ensures { IsContinued (declarator_judgement known.now base.now body.now declarator.now contents.old) result contents.new }
{
    functions::check_parameters(alloc, &mut contents.scope, declarator, body)?;
    let own = base_of(known, declarator, base)?;
    let designated = file_declarator(alloc, &mut contents.scope, &own, declarator)?;
    named_declarator(alloc, known, base, body, declarator, designated, contents)
}

// Whether a declarator is the name of a scalar alone.
fn is_bare(body: &Option<Line>, declarator: &Declarator) -> bool
    ensures { result ≡ is_bare body.now declarator.now }
{
    matches!(&declarator.shape, Shape::Plain)
        && declarator.name.is_some()
        && declarator.marks.len() == 0
        && declarator.initial.is_none()
        && body.is_none()
}

// Declares a bare name, unless it is settled already: its domain isn't compared with that of its object again, however many values it has.
#[tactic(auto, using(crate::proofs::Repeated::settled_again, crate::proofs::Repeated::one_settled))]
fn declare_bare(
    alloc: Global,
    known: &Foreknown,
    base: &Specified,
    body: &Option<Line>,
    declarator: &Declarator,
    settled: &mut Names,
    contents: &mut Contents,
) -> Result<(), RuleError>
    requires bare { is_bare body.now declarator.now ≡ true }
    requires settled { AreSettled base.now contents.old settled.old }
    ensures judged { IsContinued (declarator_judgement known.now base.now body.now declarator.now contents.old) result contents.new }
    ensures settled { OnOk result (AreSettled base.now contents.new settled.new) }
{
    let name = name_of(declarator);
    if settled.has(name) {
        return Ok(());
    }
    declare(alloc, known, base, body, declarator, contents)?;
    settled.add(alloc, name)?;
    Ok(())
}

// Declares what a declarator says, where some names are settled, and these and its own are behind it.
#[tactic(auto, using(crate::proofs::Repeated::none_settled))]
fn declare_once(
    alloc: Global,
    known: &Foreknown,
    base: &Specified,
    body: &Option<Line>,
    declarator: &Declarator,
    settled: &mut Names,
    contents: &mut Contents,
) -> Result<(), RuleError>
    requires { AreSettled base.now contents.old settled.old }
    ensures judged { IsContinued (declarator_judgement known.now base.now body.now declarator.now contents.old) result contents.new }
    ensures settled { OnOk result (AreSettled base.now contents.new settled.new) }
{
    if base.attribute.is_some() && is_bare(body, declarator) {
        return declare_bare(alloc, known, base, body, declarator, settled, contents);
    }
    *settled = Names::new(alloc);
    declare(alloc, known, base, body, declarator, contents)
}

fn declare_all(
    alloc: Global,
    known: &Foreknown,
    base: &Specified,
    body: &Option<Line>,
    names: &[Declarator],
    contents: &mut Contents,
) -> Result<(), RuleError>
    ensures { IsContinued (through (declarator_judgement known.now base.now body.now) names.now contents.old) result contents.new }
{
    let mut settled = Names::new(alloc);
    for declarator in names {
        declare_once(alloc, known, base, body, declarator, &mut settled, contents)?;
    }
    Ok(())
}

// ---- declarations

fn declares_constant(known: &Foreknown, declarator: &Declarator) -> bool
    ensures { result ≡ declares_constant known.now declarator.now }
{
    !is_function(declarator) && is_fixed(known, name_of(declarator))
}

fn any_constant(known: &Foreknown, names: &[Declarator]) -> bool
    ensures { result ≡ list_any (declares_constant known.now) names.now }
{
    for declarator in names {
        if declares_constant(known, declarator) {
            return true;
        }
    }
    false
}

fn holders<'a>(known: &Foreknown, names: &'a [Declarator]) -> &'a [Declarator]
    ensures { result.now ≡ holders known.now names.now }
{
    if any_constant(known, names) {
        &[]
    } else {
        names
    }
}

fn declares_nothing(item: &Item) -> bool
    ensures { result ≡ declares_nothing item.now }
{
    item.names.len() == 0 && item.specs.tags.len() == 0
}

// What the specifiers of a declaration say.
fn specified(
    alloc: Global,
    known: &Foreknown,
    item: &Item,
    scope: &mut Scope,
) -> Result<Specified, RuleError>
    ensures { IsBehind (specifiers position.File (holders known.now item.now.names) item.now.specs scope.old) result scope.new }
{
    let holders = holders(known, item.names.as_slice());
    specifiers(alloc, scope, Position::File, holders, &item.specs)
}

// Declares the names of a declaration.
fn declare_names(
    alloc: Global,
    known: &Foreknown,
    base: &Specified,
    item: &Item,
    contents: &mut Contents,
) -> Result<(), RuleError>
    ensures { IsContinued (names_judgement known.now base.now item.now contents.old) result contents.new }
{
    if declares_nothing(item) {
        return Err(RuleError::Rule(item.specs.place, rules::DECLARATIONS));
    }
    let names = item.names.as_slice();
    declare_all(alloc, known, base, &item.body, names, contents)
}

#[tactic(auto, unfolding(crate::specs::Units::item_judgement))]
fn judge_item(
    alloc: Global,
    known: &Foreknown,
    item: &Item,
    contents: &mut Contents,
) -> Result<(), RuleError>
    ensures { IsContinued (item_judgement known.now item.now contents.old) result contents.new }
{
    let base = specified(alloc, known, item, &mut contents.scope)?;
    declare_names(alloc, known, &base, item, contents)
}

fn judge_items(
    alloc: Global,
    known: &Foreknown,
    items: &[Item],
    contents: &mut Contents,
) -> Result<(), RuleError>
    ensures { IsContinued (through (item_judgement known.now) items.now contents.old) result contents.new }
{
    for item in items {
        judge_item(alloc, known, item, contents)?;
    }
    Ok(())
}

// ---- units

fn undefined(alloc: Global, count: usize) -> Result<List<Option<Function>>, AllocError>
    ensures { IfOk result (λ functions. functions ≡ replicate count None) }
{
    let mut functions = List::new(alloc);
    for _ in 0..count {
        functions.push(None)?;
    }
    Ok(functions)
}

fn nothing_declared(alloc: Global, known: &Foreknown) -> Result<Contents, AllocError>
    ensures { IfOk result (λ contents. contents ≡ nothing_declared known.now) }
{
    let functions = undefined(alloc, known.outline.functions.len())?;
    Ok(Contents {
        scope: Scope::new(alloc),
        objects: List::new(alloc),
        functions,
    })
}

fn judge_known(alloc: Global, known: &Foreknown, unit: &Unit) -> Result<Completed, RuleError>
    ensures { IsCompleted (and_then (through (item_judgement known.now) unit.now.items (nothing_declared known.now)) (program_judgement unit.now.end (pointers_of known.now))) result }
{
    let mut contents = nothing_declared(alloc, known)?;
    let judged = judge_items(alloc, known, unit.items.as_slice(), &mut contents);
    let (contents, ()) = both(contents, judged)?;
    let (contents, pointers) = both(contents, pointers_of(alloc, known))?;
    complete(unit.end, contents, pointers)
}

/// What a unit comes to, or the first place in it at which a rule is broken.
#[tactic(auto, unfolding(crate::specs::Units::unit_judgement))]
pub fn judge(alloc: Global, unit: &Unit) -> Result<Completed, RuleError>
    ensures { IsCompleted (unit_judgement unit.now) result }
{
    let known = foreknown_of(alloc, unit)?;
    let completed = judge_known(alloc, &known, unit);
    drop(known);
    completed
}
