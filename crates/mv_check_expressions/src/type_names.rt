// The types that specifiers name (C11 6.7.2).

ghost use Rattle.std.specs.Prelude.{◌≡◌, map};
ghost use Rattle.mv_check_expressions.specs.Judged.{IsJudged};
ghost use Rattle.mv_check_expressions.specs.TypeNames.{stands_in, are, all_stand_in, named_kind, named_type, undeclared_enum, type_of};
ghost use Rattle.mv_ast.specs.Names.{any_of};

use crate::error::RuleError;
use crate::rules;
use mv_ast::program::CType;
use mv_check_scope::scope::Scope;
use mv_num::kind::Kind;
use mv_syntax::keywords::{BOOL, CHAR, INT, SHORT, SIGNED, UNSIGNED, VOID};
use mv_syntax::unit::{EnumSpec, Specs};

fn stands_in(words: &[u8], word: u8) -> bool
    ensures { result ≡ stands_in words.now word }
{
    for w in words {
        if *w == word {
            return true;
        }
    }
    false
}

fn all_stand_in(words: &[u8], these: &[u8]) -> bool
    ensures { result ≡ all_stand_in words.now these.now }
{
    for w in these {
        if !stands_in(words, *w) {
            return false;
        }
    }
    true
}

// Whether the words are these different ones, each once and in any order.
fn are(words: &[u8], these: &[u8]) -> bool
    ensures { result ≡ are words.now these.now }
{
    words.len() == these.len() && all_stand_in(words, these)
}

// The integer type that type words name.
#[tactic(auto, unfolding(crate::specs::TypeNames::named_kind))]
fn named_kind(words: &[u8]) -> Option<Kind>
    ensures { result ≡ named_kind words.now }
{
    if are(words, &[BOOL]) {
        Some(Kind::Bool)
    } else if are(words, &[SIGNED, CHAR]) {
        Some(Kind::SChar)
    } else if are(words, &[CHAR]) || are(words, &[UNSIGNED, CHAR]) {
        Some(Kind::UChar)
    } else if are(words, &[SHORT])
        || are(words, &[SIGNED, SHORT])
        || are(words, &[SHORT, INT])
        || are(words, &[SIGNED, SHORT, INT])
    {
        Some(Kind::Short)
    } else if are(words, &[UNSIGNED, SHORT]) || are(words, &[UNSIGNED, SHORT, INT]) {
        Some(Kind::UShort)
    } else if are(words, &[INT]) || are(words, &[SIGNED]) || are(words, &[SIGNED, INT]) {
        Some(Kind::Int)
    } else if are(words, &[UNSIGNED]) || are(words, &[UNSIGNED, INT]) {
        Some(Kind::UInt)
    } else {
        None
    }
}

// The type that some enums and type words name.
fn named_type(enums: usize, words: &[u8]) -> Option<CType>
    ensures { result ≡ named_type enums words.now }
{
    if enums == 0 {
        if are(words, &[VOID]) {
            return Some(CType::Void);
        }
        match named_kind(words) {
            None => None,
            Some(kind) => Some(CType::Scalar(kind)),
        }
    } else if enums == 1 && words.is_empty() {
        Some(CType::Scalar(Kind::Int))
    } else {
        None
    }
}

// Whether an enum has no list of its own and its tag isn't declared.
fn is_undeclared(scope: &Scope, e: &EnumSpec) -> bool
    ensures { result ≡ undeclared_enum scope.now e.now }
{
    match &e.tag {
        None => false,
        Some(tag) => e.members.is_none() && scope.tag_of(tag.bytes()).is_none(),
    }
}

fn any_undeclared(scope: &Scope, enums: &[EnumSpec]) -> bool
    ensures { result ≡ any_of (map (undeclared_enum scope.now) enums.now) }
{
    for e in enums {
        if is_undeclared(scope, e) {
            return true;
        }
    }
    false
}

/// The type that specifiers name in a scope in which the enums that they declare themselves are declared already. It is broken at the
/// specifiers where a tag isn't declared (the rule of names), and else where their words and enums name no type (that of declarations). Whether `static`,
/// `const` or an attribute stand among them makes no difference.
pub fn type_of(scope: &Scope, specs: &Specs) -> Result<CType, RuleError>
    ensures { IsJudged (type_of scope.now specs.now) result }
{
    if any_undeclared(scope, specs.tags.as_slice()) {
        return Err(RuleError::Rule(specs.place, rules::NAMES));
    }
    match named_type(specs.tags.len(), specs.words.as_slice()) {
        Some(t) => Ok(t),
        None => Err(RuleError::Rule(specs.place, rules::DECLARATIONS)),
    }
}
