// Declarations of locals.
ghost use Rattle.std.specs.Prelude.{◌≡◌, ◌+◌, ◌*◌, ◌-◌, ◌++◌, ◌∷◌, [], ◌<◌, ◌≤◌, ◌^◌, Bool, IfOk, OnOk, map, length, slice_get};
ghost use Rattle.mv_ast.specs.Counts.{words_of_size};
ghost use Rattle.mv_lower_spec.specs.Statements.{store_word, clear_words, store_zeros};
ghost use Rattle.mv_source_forms.specs.Names.{size_in};
ghost use Rattle.mv_lower_expressions.specs.Values.{seen, given};
ghost use Rattle.mv_lower.specs.Statements.{seen_code};
ghost use Rattle.mv_lower.specs.Declarations.{values_stored, values_top_of, clears_first, clear_of};

use crate::code::Code;
use mv_ast::program::Local;
use mv_ir::stm::{Array, Stm};
use mv_ir::tree::Tree;
use mv_lower_expressions::value::Value;
use mv_num::list::List;
use std::alloc::{AllocError, Global};

/// The size of a local, by its number, where it is an array.
pub fn size_of(locals: &List<Local>, local: u32) -> Option<u32>
    ensures { result ≡ size_in locals.now local }
{
    match locals.get(local as usize) {
        Some(l) => l.size,
        None => None,
    }
}

// A value into a word of a local.
#[tactic(auto, using(mv_lower_expressions::proofs::Emitting::emitted))]
fn store_word(size: Option<u32>, local: u32, i: u32, value: Tree) -> Stm
    ensures { result ≡ store_word size local i value }
{
    match size {
        None => Stm::Set(local, value),
        Some(_) => Stm::Write(Array::Local(local), Tree::Number(i), value),
    }
}

// All words of a local become 0.
#[tactic(auto, using(mv_lower_expressions::proofs::Emitting::emitted))]
fn clear_words(size: Option<u32>, local: u32) -> Stm
    ensures { result ≡ clear_words size local }
{
    match size {
        None => Stm::Set(local, Tree::Number(0)),
        Some(_) => Stm::Zero(local),
    }
}

/// How many words a local of this size has: 1 where it is no array.
pub fn words(size: Option<u32>) -> u32
    ensures { result ≡ words_of_size size }
{
    match size {
        None => 1,
        Some(n) => n,
    }
}

// Given values, from the first word on.
#[tactic(auto, using(crate::proofs::Declaring::stores))]
fn store_values(
    code: &mut List<Stm>,
    size: Option<u32>,
    local: u32,
    values: List<Value>,
) -> Result<(), AllocError>
    requires { length values < 2 ^ 32 }
    ensures { OnOk result (code.new ≡ code.old ++ values_stored size local 0 (map seen values)) }
{
    let mut i = 0;
    for value in values.into_vec() {
        code.append(value.code)?;
        code.push(store_word(size, local, i, value.tree))?;
        i += 1;
    }
    Ok(())
}

#[tactic(auto, using(crate::proofs::Declaring::tops))]
fn values_top(values: &List<Value>, n: u32) -> u32
    ensures { result ≡ values_top_of (map seen values.now) n }
{
    let mut top = n;
    for value in values.as_slice() {
        top = top.max(value.top);
    }
    top
}

// A 0 for each word from one on, up to another.
#[tactic(auto, using(crate::proofs::Declaring::zeros, mv_lower_expressions::proofs::Emitting::emitted))]
fn store_zeros(
    code: &mut List<Stm>,
    size: Option<u32>,
    local: u32,
    from: u32,
    to: u32,
) -> Result<(), AllocError>
    ensures { OnOk result (code.new ≡ code.old ++ store_zeros size local from (to - from)) }
{
    for i in from..to {
        code.push(store_word(size, local, i, Tree::Number(0)))?;
    }
    Ok(())
}

// Whether the words become 0 before the given values are stored: where a value names the local, or where this costs no
// more than the words without a value pay for.
fn clears_first(names_itself: bool, words: u32, given: u32) -> bool
    ensures { result ≡ clears_first names_itself words given }
{
    names_itself || 8 * u64::from(words) <= 92 * u64::from(words.saturating_sub(given))
}

/// A local is declared, with some values (C11 6.7.9).
#[tactic(auto, using(crate::proofs::Declaring::clear_by))]
pub fn declare(
    alloc: Global,
    size: Option<u32>,
    local: u32,
    names_itself: bool,
    values: List<Value>,
    n: u32,
) -> Result<Code, AllocError>
    requires { length values < 2 ^ 32 }
    ensures { IfOk result (λ c. seen_code c ≡ clear_of size local names_itself (map seen values) n) }
{
    let words = words(size);
    let given = values.len() as u32;
    let top = values_top(&values, n);
    let mut code = List::new(alloc);
    if clears_first(names_itself, words, given) {
        code.push(clear_words(size, local))?;
        store_values(&mut code, size, local, values)?;
    } else {
        store_values(&mut code, size, local, values)?;
        store_zeros(&mut code, size, local, given, words)?;
    }
    Ok(Code { code, top })
}
