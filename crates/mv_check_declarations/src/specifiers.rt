// Declaration specifiers (C11 6.7, 6.7.2).

ghost use Rattle.std.specs.Prelude.{◌≡◌, ◌≤◌, length, IfOk, MatchResult};
ghost use Rattle.mv_check_expressions.specs.Judged.{IsJudged, Good};
ghost use Rattle.mv_check_expressions.specs.declared.error.RuleError.TheVariants.{Memory};
ghost use Rattle.mv_check_expressions.specs.TypeNames.{undeclared_enum, type_of};
ghost use Rattle.mv_check_declarations.specs.Turns.{IsBehind};
ghost use Rattle.mv_check_declarations.specs.Specifiers.{named_enumeration, tagged, enumeration_of, is_before, count_before, count_before_list, enum_specifier, enum_specifiers, scalar_kind, kind_of, at_file, type_by_rules, specifiers};

use crate::attributes::{Attribute, Holder, Position, attributes, holder_of_all};
use crate::enumerated::enumerated;
use crate::enumerators::enumerators;
use mv_ast::program::CType;
use mv_check_expressions::error::RuleError;
use mv_check_expressions::rules;
use mv_check_expressions::type_names::type_of;
use mv_check_scope::enumerated::EnumeratedType;
use mv_check_scope::meaning::Meaning;
use mv_check_scope::scope::Scope;
use mv_num::kind::Kind;
use mv_num::list::List;
use mv_num::text::Text;
use mv_syntax::place::Place;
use mv_syntax::unit::{Declarator, EnumSpec, Mark, Member, Specs};
use std::alloc::Global;

/// An enumeration: its number among those of the scope, and whether its tag was declared in the same scope before.
#[derive(Clone, Copy, PartialEq, Eq, Debug)]
pub struct Enumeration {
    pub number: Option<u32>,
    pub again: bool,
}

/// What some enums and the attributes before them say: how many attributes stood before them, the attribute that holds, the number of
/// the last enumeration, whether a tag is declared again, and whether an enum names one that isn't declared before it.
#[derive(Drop)]
pub struct Said {
    pub used: usize,
    pub attribute: Option<Attribute>,
    pub number: Option<u32>,
    pub again: bool,
    pub undeclared: bool,
}

/// What specifiers say of the declarators behind them: the type, whether `const` stands among them, the number of the enumeration that
/// the type is, and an attribute.
#[derive(Drop)]
pub struct Specified {
    pub ctype: CType,
    pub fixed: bool,
    pub enumeration: Option<u32>,
    pub attribute: Option<Attribute>,
}

fn named_enumeration(scope: &Scope, tag: &Option<Text>) -> Option<u32>
    ensures { result ≡ named_enumeration scope.now tag.now }
{
    match tag {
        None => None,
        Some(tag) => match scope.tag_of(tag.bytes()) {
            Some(Meaning::Tag(number)) => Some(number),
            _ => None,
        },
    }
}

// Declares an enumeration. There is no memory for a 2^32nd.
#[tactic(auto, unfolding(crate::specs::Specifiers::tagged))]
fn declare_enumeration(
    alloc: Global,
    scope: &mut Scope,
    tag: &Option<Text>,
    enumerated: EnumeratedType,
) -> Result<Enumeration, RuleError>
    ensures { IsBehind (Good (tagged tag.now scope.old enumerated)) result scope.new }
{
    let count = scope.enumerations.len();
    if count > 0xFFFF_FFFF {
        return Err(RuleError::Memory);
    }
    let number = Some(count as u32);
    match tag {
        None => {
            scope.enumerations.push(enumerated)?;
            Ok(Enumeration {
                number,
                again: false,
            })
        }
        Some(tag) => {
            if scope.tags.find_here(tag.bytes()).is_some() {
                return Ok(Enumeration {
                    number: None,
                    again: true,
                });
            }
            scope.enumerations.push(enumerated)?;
            scope.declare_tag(alloc, tag.bytes(), Meaning::Tag(count as u32))?;
            Ok(Enumeration {
                number,
                again: false,
            })
        }
    }
}

fn enumeration_of(
    alloc: Global,
    scope: &mut Scope,
    tag: &Option<Text>,
    members: &Option<List<Member>>,
) -> Result<Enumeration, RuleError>
    ensures { IsBehind (enumeration_of scope.old tag.now members.now) result scope.new }
{
    match members {
        None => Ok(Enumeration {
            number: named_enumeration(scope, tag),
            again: false,
        }),
        Some(members) => {
            let values = enumerators(alloc, scope, members.as_slice())?;
            let enumerated = enumerated(alloc, values)?;
            declare_enumeration(alloc, scope, tag, enumerated)
        }
    }
}

fn is_before(p: Place, q: Place) -> bool
    ensures { result ≡ is_before p q }
{
    p.line < q.line || (p.line == q.line && p.column < q.column)
}

fn count_before(place: Place, marks: &[Mark]) -> usize
    ensures count { result ≡ count_before place marks.now }
    ensures bound { result ≤ length marks.now }
{
    let mut count = 0;
    for mark in marks {
        if !is_before(mark.place, place) {
            return count;
        }
        count += 1;
    }
    count
}

fn count_before_list(members: &Option<List<Member>>, marks: &[Mark]) -> usize
    ensures count { result ≡ count_before_list members.now marks.now }
    ensures bound { result ≤ length marks.now }
{
    match members {
        None => 0,
        Some(members) => match members.as_slice() {
            [] => 0,
            [first, ..] => count_before(first.place, marks),
        },
    }
}

// An enum behind what was said before it, and the attributes before its list.
fn enum_specifier(
    alloc: Global,
    scope: &mut Scope,
    holder: Holder,
    kind: Option<Kind>,
    marks: &[Mark],
    tag: &EnumSpec,
    said: Said,
) -> Result<Said, RuleError>
    requires { said.used ≤ length marks.now }
    ensures behind { IsBehind (enum_specifier holder kind marks.now tag.now (scope.old, said)) result scope.new }
    ensures used { IfOk result (λ next. next.used ≤ length marks.now) }
{
    let Said {
        used,
        attribute,
        number: _,
        again,
        undeclared,
    } = said;
    let undeclared = undeclared || is_undeclared(scope, tag);
    let rest = &marks[used..];
    let count = count_before_list(&tag.members, rest);
    let attribute = attributes(alloc, holder, kind, scope, &rest[..count], attribute)?;
    let enumeration = enumeration_of(alloc, scope, &tag.tag, &tag.members)?;
    Ok(Said {
        used: used + count,
        attribute,
        number: enumeration.number,
        again: again || enumeration.again,
        undeclared,
    })
}

fn enum_specifiers(
    alloc: Global,
    scope: &mut Scope,
    holder: Holder,
    kind: Option<Kind>,
    marks: &[Mark],
    tags: &[EnumSpec],
) -> Result<Said, RuleError>
    ensures behind { IsBehind (enum_specifiers holder kind marks.now tags.now scope.old) result scope.new }
    ensures used { IfOk result (λ said. said.used ≤ length marks.now) }
{
    let mut said = Said {
        used: 0,
        attribute: None,
        number: None,
        again: false,
        undeclared: false,
    };
    for tag in tags {
        said = enum_specifier(alloc, scope, holder, kind, marks, tag, said)?;
    }
    Ok(said)
}

/// The integer type that a type is, if it is one.
pub fn scalar_kind(ctype: CType) -> Option<Kind>
    ensures { result ≡ scalar_kind ctype }
{
    match ctype {
        CType::Scalar(kind) => Some(kind),
        CType::Void | CType::Pointer(_) => None,
    }
}

fn kind_of(scope: &Scope, specs: &Specs) -> Result<Option<Kind>, RuleError>
    ensures { MatchResult result (λ kind. kind ≡ kind_of (type_of scope.now specs.now)) (λ e. e ≡ Memory) }
{
    match type_of(scope, specs) {
        Ok(ctype) => Ok(scalar_kind(ctype)),
        Err(RuleError::Rule(_, _)) => Ok(None),
        Err(RuleError::Memory) => Err(RuleError::Memory),
    }
}

fn is_undeclared(scope: &Scope, tag: &EnumSpec) -> bool
    ensures { result ≡ undeclared_enum scope.now tag.now }
{
    match &tag.tag {
        None => false,
        Some(name) => tag.members.is_none() && scope.tag_of(name.bytes()).is_none(),
    }
}

fn at_file(position: Position) -> bool
    ensures { result ≡ at_file position }
{
    matches!(position, Position::File)
}

#[tactic(auto, unfolding(crate::specs::Specifiers::type_by_rules))]
fn type_by_rules(
    position: Position,
    undeclared: bool,
    again: bool,
    specs: &Specs,
    scope: &Scope,
) -> Result<CType, RuleError>
    ensures { IsJudged (type_by_rules position undeclared again specs.now scope.now) result }
{
    if undeclared {
        return Err(RuleError::Rule(specs.place, rules::NAMES));
    }
    if again {
        return Err(RuleError::Rule(specs.place, rules::REDECLARATIONS));
    }
    if specs.hidden && !at_file(position) {
        return Err(RuleError::Rule(specs.place, rules::DECLARATIONS));
    }
    type_of(scope, specs)
}

/// What specifiers say of the declarators behind them. Their enums are declared.
pub fn specifiers(
    alloc: Global,
    scope: &mut Scope,
    position: Position,
    names: &[Declarator],
    specs: &Specs,
) -> Result<Specified, RuleError>
    ensures { IsBehind (specifiers position names.now specs.now scope.old) result scope.new }
{
    let holder = holder_of_all(position, specs.fixed, names);
    let kind = kind_of(scope, specs)?;
    let marks = specs.marks.as_slice();
    let said = enum_specifiers(alloc, scope, holder, kind, marks, specs.tags.as_slice())?;
    let Said {
        used,
        attribute,
        number,
        again,
        undeclared,
    } = said;
    let attribute = attributes(alloc, holder, kind, scope, &marks[used..], attribute)?;
    let ctype = type_by_rules(position, undeclared, again, specs, scope)?;
    Ok(Specified {
        ctype,
        fixed: specs.fixed,
        enumeration: number,
        attribute,
    })
}
