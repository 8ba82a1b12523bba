// Objects at file scope (C11 6.7, 6.9.2).

ghost use Rattle.std.specs.Prelude.{◌≡◌, IfOk, OnOk, slice_get};
ghost use Rattle.mv_check_scope.specs.Spaces.{named};
ghost use Rattle.mv_check_expressions.specs.Judged.{IsJudged};
ghost use Rattle.mv_types.specs.Contents.{IsContinued};
ghost use Rattle.mv_types.specs.Objects as spec;

use crate::contents::{Contents, Foreknown, Object};
use crate::foreknown::switch_number;
use mv_ast::program;
use mv_ast::program::Local;
use mv_check_declarations::attributes::Attribute;
use mv_check_declarations::globals::{Words, domain_of, global_words};
use mv_check_declarations::objects::{Breaches, breaks_extents, is_unconverted, least};
use mv_check_expressions::error::RuleError;
use mv_check_scope::convert::{is_void, same_type};
use mv_check_scope::domain::Domain;
use mv_check_scope::meaning::{Elements, Meaning, Storage, Variable};
use mv_check_scope::scope::Scope;
use mv_num::list::List;
use mv_num::text::Text;
use mv_syntax::unit::{Declarator, Initial};
use std::alloc::{AllocError, Global};
use std::mem;

fn global_at(storage: Storage) -> Option<u32>
    ensures { result ≡ spec.global_at storage }
{
    match storage {
        Storage::Global(number) => Some(number),
        Storage::Local(_) => None,
    }
}

// The number of the global that a name means.
fn number_of(meaning: Meaning) -> Option<u32>
    ensures { result ≡ spec.number_of meaning }
{
    match meaning {
        Meaning::Object(variable) => global_at(variable.storage),
        Meaning::Array(elements) => global_at(elements.storage),
        _ => None,
    }
}

fn same_size(a: Option<u32>, b: Option<u32>) -> bool
    ensures { result ≡ spec.same_size a b }
{
    match (a, b) {
        (None, None) => true,
        (Some(a), Some(b)) => a == b,
        _ => false,
    }
}

fn same_domain(a: &Option<Domain>, b: &Option<Domain>) -> bool
    ensures { result ≡ spec.same_domain a.now b.now }
{
    match a {
        None => true,
        Some(a) => match b {
            None => true,
            Some(b) => a.as_slice() == b.as_slice(),
        },
    }
}

// Whether an object may be declared once more as this.
fn agrees(object: &Object, local: Local, given: bool, domain: &Option<Domain>) -> bool
    ensures { result ≡ spec.agrees object.now local given domain.now }
{
    same_type(object.global.ctype, local.ctype)
        && same_size(object.global.size, local.size)
        && !(object.given && given)
        && same_domain(&object.domain, domain)
}

fn may_declare(
    before: Option<Meaning>,
    objects: &List<Object>,
    local: Local,
    given: bool,
    domain: &Option<Domain>,
) -> bool
    ensures { result ≡ spec.may_declare before objects.now local given domain.now }
{
    match before {
        None => true,
        Some(meaning) => match number_of(meaning) {
            None => false,
            Some(number) => match objects.get(number as usize) {
                None => false,
                Some(object) => agrees(object, local, given, domain),
            },
        },
    }
}

// The rules that a declared object breaks.
fn breaches(
    before: Option<Meaning>,
    objects: &List<Object>,
    local: Local,
    initial: &Option<Initial>,
    words: &Words,
    domain: &Option<Domain>,
    block: bool,
) -> Breaches
    ensures { result ≡ spec.breaches before objects.now local initial.now words.now domain.now block }
{
    Breaches {
        redeclared: !may_declare(before, objects, local, initial.is_some(), domain),
        unconverted: is_unconverted(local, initial, words.all),
        void: is_void(local.ctype),
        extents: breaks_extents(true, local, initial, words.words.len()),
        block,
    }
}

fn object_meaning(
    known: &Foreknown,
    name: &[u8],
    number: u32,
    local: Local,
) -> Result<Meaning, AllocError>
    ensures { IfOk result (λ meaning. meaning ≡ spec.object_meaning known.now name.now number local local.size) }
{
    let storage = Storage::Global(number);
    let ctype = local.ctype;
    let fixed = known.constants.has(name);
    let switch = switch_number(known, name)?;
    match local.size {
        None => Ok(Meaning::Object(Variable {
            storage,
            ctype,
            fixed,
            switch,
        })),
        Some(_) => Ok(Meaning::Array(Elements {
            storage,
            ctype,
            fixed,
        })),
    }
}

// Declares the name of an object that has this number if it is new.
#[tactic(auto, unfolding(crate::specs::Objects::object_scope))]
fn declare_name(
    alloc: Global,
    known: &Foreknown,
    scope: &mut Scope,
    name: &[u8],
    before: Option<Meaning>,
    local: Local,
    number: usize,
) -> Result<(), AllocError>
    requires { before ≡ named name.now scope.old.names.here }
    ensures { OnOk result (scope.new ≡ spec.object_scope known.now name.now before local number scope.old) }
{
    match before {
        Some(_) => Ok(()),
        None => {
            if number > 0xFFFF_FFFF {
                return Err(AllocError);
            }
            let meaning = object_meaning(known, name, number as u32, local)?;
            scope.declare(alloc, name, meaning)
        }
    }
}

fn add_object(
    alloc: Global,
    objects: &mut List<Object>,
    name: &[u8],
    local: Local,
    first: List<u32>,
    given: bool,
    domain: Option<Domain>,
) -> Result<(), AllocError>
    ensures { OnOk result (objects.new ≡ spec.with_new objects.old name.now local first given domain) }
{
    let name = Text::new(alloc, name)?;
    let global = program::Global {
        name,
        ctype: local.ctype,
        size: local.size,
        first,
    };
    objects.push(Object {
        global,
        given,
        domain,
    })?;
    Ok(())
}

// What one more declaration says of an object.
fn say_again(object: &mut Object, words: List<u32>, given: bool, domain: Option<Domain>)
    ensures { object.new ≡ spec.again object.old words given domain }
{
    if given {
        object.global.first = words;
        object.given = true;
    }
    if object.domain.is_none() {
        object.domain = domain;
    }
}

fn replace_object(
    alloc: Global,
    objects: &mut List<Object>,
    number: usize,
    words: List<u32>,
    given: bool,
    domain: Option<Domain>,
)
    ensures { objects.new ≡ spec.replaced objects.old number (slice_get objects.old number) words given domain }
{
    let mut items = mem::replace(objects, List::new(alloc)).into_vec();
    if let Some(object) = items.get_mut(number) {
        say_again(object, words, given, domain);
    }
    *objects = List::from_vec(items);
}

// The objects behind a declaration.
#[tactic(auto, unfolding(crate::specs::Objects::objects_behind))]
fn put_object(
    alloc: Global,
    objects: &mut List<Object>,
    name: &[u8],
    before: Option<Meaning>,
    local: Local,
    words: List<u32>,
    given: bool,
    domain: Option<Domain>,
) -> Result<(), AllocError>
    ensures { OnOk result (objects.new ≡ spec.objects_behind objects.old name.now before local words given domain) }
{
    match before {
        None => add_object(alloc, objects, name, local, words, given, domain),
        Some(meaning) => {
            if let Some(number) = number_of(meaning) {
                replace_object(alloc, objects, number as usize, words, given, domain);
            }
            Ok(())
        }
    }
}

/// The domain of a switch that a declaration gives it, if it has the attribute. A pointer has none.
pub fn domain_by(
    alloc: Global,
    pointer: bool,
    scope: &Scope,
    enumeration: Option<u32>,
    attribute: Option<Attribute>,
) -> Result<Option<Domain>, AllocError>
    ensures { IfOk result (λ domain. domain ≡ spec.domain_by pointer scope.now enumeration attribute) }
{
    match attribute {
        None => Ok(None),
        Some(attribute) => {
            if pointer {
                drop(attribute);
                return Ok(None);
            }
            let domain = domain_of(alloc, scope, enumeration, attribute)?;
            Ok(Some(domain))
        }
    }
}

// The words that an object is given, which are judged before its declarator.
fn object_words(
    alloc: Global,
    declarator: &Declarator,
    before: Option<Meaning>,
    objects: &List<Object>,
    local: Local,
    domain: &Option<Domain>,
    block: bool,
    scope: &Scope,
) -> Result<List<u32>, RuleError>
    ensures { IsJudged (spec.object_words declarator.now before objects.now local domain.now block scope.now) result }
{
    let initial = &declarator.initial;
    let words = global_words(alloc, local, initial, scope)?;
    match least(breaches(before, objects, local, initial, &words, domain, block)) {
        None => Ok(words.words),
        Some(rule) => {
            drop(words);
            Err(RuleError::Rule(declarator.place, rule))
        }
    }
}

// Declares an object under a name, which means this before it, behind its initial value, in which a name that is new means it already.
fn declare_behind(
    alloc: Global,
    known: &Foreknown,
    declarator: &Declarator,
    name: &[u8],
    local: Local,
    domain: Option<Domain>,
    block: bool,
    before: Option<Meaning>,
    contents: &mut Contents,
) -> Result<(), RuleError>
    requires { before ≡ named name.now contents.old.scope.names.here }
    ensures { IsContinued (spec.object_behind known.now declarator.now name.now local domain block contents.old before) result contents.new }
{
    let objects = &mut contents.objects;
    let scope = &mut contents.scope;
    declare_name(alloc, known, scope, name, before, local, objects.len())?;
    let words = object_words(
        alloc, declarator, before, objects, local, &domain, block, scope,
    )?;
    let given = declarator.initial.is_some();
    put_object(alloc, objects, name, before, local, words, given, domain)?;
    Ok(())
}

/// Declares an object under a name, with the domain that this declaration gives it and whether a block follows.
#[tactic(auto, unfolding(crate::specs::Objects::object_judgement))]
pub fn declare(
    alloc: Global,
    known: &Foreknown,
    declarator: &Declarator,
    name: &[u8],
    local: Local,
    domain: Option<Domain>,
    block: bool,
    contents: &mut Contents,
) -> Result<(), RuleError>
    ensures { IsContinued (spec.object_judgement known.now declarator.now name.now local domain block contents.old) result contents.new }
{
    let before = contents.scope.names.find_here(name);
    declare_behind(
        alloc, known, declarator, name, local, domain, block, before, contents,
    )
}
