// Objects at file scope (C11 6.7.9, 6.9.2).

ghost use Rattle.std.specs.Prelude.{◌≡◌, ◌++◌, [], ◌∷◌, map, IfOk, OnOk};
ghost use Rattle.mv_ast.specs.declared.program.Form.{out-Form};
ghost use Rattle.mv_ast.specs.Operators.{converted};
ghost use Rattle.mv_check_expressions.specs.Judged.{IsJudged};
ghost use Rattle.mv_check_declarations.specs.Turns.{IsBehind};
ghost use Rattle.mv_check_declarations.specs.Globals.{file_declarator, constant_word, with_word, no_words, first_word, first_words, room_behind, string_words, global_words, values_of_enumeration, default_domain, domain_of};

use crate::attributes::{Attribute, Position, attributes, holder_of, shared};
use crate::declarators::{Entity, designated};
use crate::specifiers::{Specified, scalar_kind};
use mv_ast::operators::converted;
use mv_ast::program::{CType, Expr, Form, Local};
use mv_check_expressions::error::RuleError;
use mv_check_expressions::judge::value;
use mv_check_expressions::rules;
use mv_check_scope::constant::{constant_value, converts};
use mv_check_scope::domain::Domain;
use mv_check_scope::scope::Scope;
use mv_num::list::List;
use mv_syntax::unit::{Declarator, Initial, Node};
use std::alloc::{AllocError, Global};

/// What a declarator at file scope designates, and its attribute.
#[derive(Drop)]
pub struct Designated {
    pub entity: Entity,
    pub attribute: Option<Attribute>,
}

/// What a declarator at file scope designates, with the attribute that it has of its own or of its specifiers.
pub fn file_declarator(
    alloc: Global,
    scope: &mut Scope,
    base: &Specified,
    declarator: &Declarator,
) -> Result<Designated, RuleError>
    ensures { IsBehind (file_declarator base.now declarator.now scope.old) result scope.new }
{
    let entity = designated(alloc, scope, base.ctype, base.fixed, &declarator.shape)?;
    let holder = holder_of(Position::File, base.fixed, declarator);
    let before = shared(&base.attribute)?;
    let kind = scalar_kind(base.ctype);
    let marks = declarator.marks.as_slice();
    let attribute = attributes(alloc, holder, kind, scope, marks, before)?;
    Ok(Designated { entity, attribute })
}

/// The first words of an object, and whether the values that they are of all convert to its type.
#[derive(Drop)]
pub struct Words {
    pub all: bool,
    pub words: List<u32>,
}

// The word of a constant: one more than a function's number, or the value of an integer constant expression. There is no memory for
// the number of a 2^32nd function.
fn constant_word(e: &Expr) -> Result<Option<u32>, AllocError>
    ensures { IfOk result (λ word. word ≡ constant_word e.now) }
{
    match &e.what {
        Form::Function(number) => {
            if *number == 0xFFFF_FFFF {
                Err(AllocError)
            } else {
                Ok(Some(*number + 1))
            }
        }
        _ => Ok(constant_value(e)),
    }
}

fn no_words(alloc: Global) -> Words
    ensures { result ≡ no_words }
{
    Words {
        all: true,
        words: List::new(alloc),
    }
}

fn first_word(
    alloc: Global,
    ctype: CType,
    scope: &Scope,
    node: &Node,
    done: Words,
) -> Result<Words, RuleError>
    ensures { IsJudged (first_word ctype scope.now node.now done) result }
{
    let Words { all, mut words } = done;
    let e = value(alloc, scope, node)?;
    let word = constant_word(&e);
    let all = all && converts(&e, ctype);
    drop(e);
    match word? {
        None => Err(RuleError::Rule(node.place, rules::CONSTANTS)),
        Some(word) => {
            words.push(converted(ctype, word))?;
            Ok(Words { all, words })
        }
    }
}

fn first_words(
    alloc: Global,
    ctype: CType,
    scope: &Scope,
    nodes: &[Node],
) -> Result<Words, RuleError>
    ensures { IsJudged (first_words ctype scope.now nodes.now) result }
{
    let mut done = no_words(alloc);
    for node in nodes {
        done = first_word(alloc, ctype, scope, node, done)?;
    }
    Ok(done)
}

fn room_behind(size: Option<u32>, count: usize) -> bool
    ensures { result ≡ room_behind size count }
{
    match size {
        None => false,
        Some(size) => count < size as usize,
    }
}

fn converted_bytes(alloc: Global, ctype: CType, bytes: &[u8]) -> Result<List<u32>, AllocError>
    ensures { IfOk result (λ words. words ≡ map (converted ctype) bytes.now) }
{
    let mut words = List::new(alloc);
    for byte in bytes {
        words.push(converted(ctype, u32::from(*byte)))?;
    }
    Ok(words)
}

// The characters of a string, and its 0 where there is room for it.
fn string_words(alloc: Global, local: Local, bytes: &[u8]) -> Result<Words, AllocError>
    ensures { IfOk result (λ words. words ≡ string_words local bytes.now) }
{
    let mut words = converted_bytes(alloc, local.ctype, bytes)?;
    if room_behind(local.size, bytes.len()) {
        words.push(0)?;
    }
    Ok(Words { all: true, words })
}

/// The words that a global of a type and size is given.
pub fn global_words(
    alloc: Global,
    local: Local,
    initial: &Option<Initial>,
    scope: &Scope,
) -> Result<Words, RuleError>
    ensures { IsJudged (global_words local initial.now scope.now) result }
{
    match initial {
        None => Ok(no_words(alloc)),
        Some(Initial::Value(node)) => first_word(alloc, local.ctype, scope, node, no_words(alloc)),
        Some(Initial::Values(nodes)) => first_words(alloc, local.ctype, scope, nodes.as_slice()),
        Some(Initial::Chars(bytes)) => {
            let words = string_words(alloc, local, bytes.as_slice())?;
            Ok(words)
        }
    }
}

// 0 and 1, or all values of the enumeration that the declared type is.
fn default_domain(
    alloc: Global,
    scope: &Scope,
    enumeration: Option<u32>,
) -> Result<Domain, AllocError>
    ensures { IfOk result (λ domain. domain ≡ default_domain scope.now enumeration) }
{
    match enumeration {
        None => {
            let values = Vec::from_slice(alloc, &[0, 1])?;
            Domain::of(alloc, List::from_vec(values))
        }
        Some(number) => match scope.enumerations.get(number as usize) {
            None => Domain::of(alloc, List::new(alloc)),
            Some(enumerated) => enumerated.domain(),
        },
    }
}

/// The domain of a switch, by its attribute and the enumeration that its declared type is.
pub fn domain_of(
    alloc: Global,
    scope: &Scope,
    enumeration: Option<u32>,
    attribute: Attribute,
) -> Result<Domain, AllocError>
    ensures { IfOk result (λ domain. domain ≡ domain_of scope.now enumeration attribute) }
{
    match attribute.values {
        Some(domain) => Ok(domain),
        None => default_domain(alloc, scope, enumeration),
    }
}
