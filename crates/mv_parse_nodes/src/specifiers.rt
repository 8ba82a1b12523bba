//! The specifiers of a declaration or a cast, which are put together part by part.
ghost use Rattle.std.specs.Prelude.{◌≡◌, IfOk, OnOk};
ghost use Rattle.mv_parse_grammar.specs.Expressions as grammar;
ghost use Rattle.mv_parse_grammar.specs.Declarations as declarations;
ghost use Rattle.mv_parse_grammar.specs.Terminals.{terminal};

use crate::tokens::text_of;
use mv_num::list::List;
use mv_syntax::place::Place;
use mv_syntax::token::Token;
use mv_syntax::unit::{EnumSpec, Mark, Specs};
use std::alloc::{AllocError, Global};

/// No specifiers.
pub fn no_specs(alloc: Global) -> Specs
    ensures { result ≡ grammar.no_specs }
{
    Specs {
        place: Place { line: 0, column: 0 },
        hidden: false,
        fixed: false,
        words: List::new(alloc),
        tags: List::new(alloc),
        marks: List::new(alloc),
    }
}

/// Gives them a place.
pub fn put_at(specs: &mut Specs, place: Place)
    ensures { specs.new ≡ grammar.specs_at place specs.old }
{
    specs.place = place;
}

/// `const`
pub fn add_const(specs: &mut Specs)
    ensures { specs.new ≡ grammar.with_const specs.old }
{
    specs.fixed = true;
}

/// `static`
pub fn add_static(specs: &mut Specs)
    ensures { specs.new ≡ declarations.with_static specs.old }
{
    specs.hidden = true;
}

/// A word of a type.
pub fn add_word(specs: &mut Specs, word: u8) -> Result<(), AllocError>
    ensures { OnOk result (specs.new ≡ grammar.with_word specs.old word) }
{
    specs.words.push(word)?;
    Ok(())
}

/// An enum.
pub fn add_tag(specs: &mut Specs, tag: EnumSpec) -> Result<(), AllocError>
    ensures { OnOk result (specs.new ≡ grammar.with_tag specs.old tag) }
{
    specs.tags.push(tag)?;
    Ok(())
}

/// An attribute.
pub fn add_mark(specs: &mut Specs, mark: Mark) -> Result<(), AllocError>
    ensures { OnOk result (specs.new ≡ declarations.with_mark specs.old mark) }
{
    specs.marks.push(mark)?;
    Ok(())
}

/// An enum by its tag alone, which this token is.
pub fn tag_of(alloc: Global, text: &[u8], token: &Token) -> Result<EnumSpec, AllocError>
    ensures { IfOk result (λ tag. tag ≡ grammar.tag_of (terminal text.now token.now)) }
{
    let name = text_of(alloc, text, token)?;
    Ok(EnumSpec {
        tag: Some(name),
        members: None,
    })
}
