// The words of globals and locals.

ghost use Rattle.std.specs.Prelude.{◌≡◌, ◌+◌, ◌-◌, ◌++◌, ◌∷◌, [], if◌then◌else◌, length, map, drop, replicate, slice_set, OnOk, IfOk};
ghost use Rattle.mv_ast.specs.Counts.{words_of_size};
ghost use Rattle.mv_ast.specs.Names.{any_of, names_local};
ghost use Rattle.mv_ast.specs.Starts.{first_words};
ghost use Rattle.mv_meaning.specs.Meaning.{frame_of, size_of};
ghost use Rattle.mv_meaning.specs.Growth.{capped};

use crate::arguments::Arguments;
use crate::state::{State, count, size_at};
use mv_ast::program::{Expr, Function, Global as Object, Local, Program};
use mv_meaning::state::Frame;
use mv_num::list::List;
use mv_source_forms::names::any_names;
use std::alloc::{AllocError, Global};

// The number of words of an object: one for a scalar.
fn words_of_size(size: Option<u32>) -> usize
    ensures { result ≡ words_of_size size }
{
    match size {
        None => 1,
        Some(n) => n as usize,
    }
}

// So many words that are 0.
fn zeros(alloc: Global, n: usize) -> Result<List<u32>, AllocError>
    ensures { IfOk result (λ words. words ≡ replicate n 0) }
{
    let words = vec![in alloc; 0; n]?;
    Ok(List::from_vec(words))
}

// The words of the locals from their parameters on: each argument is one word.
fn push_arguments(
    alloc: Global,
    arguments: &Arguments,
    locals: &mut List<List<u32>>,
) -> Result<(), AllocError>
    ensures { OnOk result (locals.new ≡ locals.old ++ map (λ v. v ∷ []) arguments.now) }
{
    for v in arguments.as_slice() {
        let mut words = List::new(alloc);
        words.push(*v)?;
        locals.push(words)?;
    }
    Ok(())
}

// The words of further locals, which are 0.
fn push_zeros(
    alloc: Global,
    declared: &[Local],
    locals: &mut List<List<u32>>,
) -> Result<(), AllocError>
    ensures { OnOk result (locals.new ≡ locals.old ++ map (λ l. replicate (words_of_size l.size) 0) declared.now) }
{
    for local in declared {
        let words = zeros(alloc, words_of_size(local.size))?;
        locals.push(words)?;
    }
    Ok(())
}

// The locals of a function that are no parameters.
fn declared_locals(g: &Function) -> &[Local]
    ensures { result.now ≡ drop g.now.params g.now.locals }
{
    let all = g.locals.as_slice();
    let params = g.params as usize;
    if params < all.len() {
        &all[params..]
    } else {
        &[]
    }
}

/// The frame of a function that is called with some arguments.
pub fn frame_of(
    alloc: Global,
    g: &Function,
    f: u32,
    arguments: &Arguments,
) -> Result<Frame, AllocError>
    ensures { IfOk result (λ frame. frame ≡ frame_of f g.now arguments.now) }
{
    let mut locals = List::new(alloc);
    push_arguments(alloc, arguments, &mut locals)?;
    push_zeros(alloc, declared_locals(g), &mut locals)?;
    Ok(Frame {
        function: f,
        locals,
    })
}

// The same number of words, all 0.
fn zeroed(words: List<u32>) -> List<u32>
    ensures { result ≡ replicate (length words) 0 }
{
    let mut items = words.into_vec();
    items.fill(0);
    List::from_vec(items)
}

// Sets all words of an object to 0.
fn clear_words(alloc: Global, objects: &mut List<List<u32>>, which: u32)
    ensures { objects.new ≡ slice_set objects.old which (replicate (size_of objects.old which) 0) }
{
    let which = which as usize;
    if which < objects.len() {
        let words = objects.set(which, List::new(alloc));
        objects.set(which, zeroed(words));
    }
}

/// Sets all words of a local that is declared to 0. Counted are all of them where one of its given values names the local itself,
/// and else those that have no value of their own.
pub fn clear_local(l: u32, values: &List<Expr>, frame: &mut Frame, state: &mut State)
    ensures locals { frame.new ≡ record frame.old { locals = slice_set frame.old.locals l (replicate (size_of frame.old.locals l) 0) } }
    ensures counted { state.new ≡ record state.old {
      work = capped (state.old.work +
          (if any_of (map (names_local l) values.now) then size_of frame.old.locals l else size_of frame.old.locals l - length values.now));
    } }
{
    let size = size_at(&frame.locals, l);
    clear_words(state.alloc, &mut frame.locals, l);
    let cleared = if any_names(values, l) {
        size
    } else {
        size.saturating_sub(values.len())
    };
    count(state, cleared as u64);
}

// The first words of a global: its given values, and then 0.
fn first_words(alloc: Global, global: &Object) -> Result<List<u32>, AllocError>
    ensures { IfOk result (λ words. words ≡ first_words global.now) }
{
    let mut words = global.first.copied(alloc)?;
    let size = words_of_size(global.size);
    for _ in global.first.len()..size {
        words.push(0)?;
    }
    Ok(words)
}

/// The first words of all globals.
pub fn first_globals(alloc: Global, program: &Program) -> Result<List<List<u32>>, AllocError>
    ensures { IfOk result (λ globals. globals ≡ map first_words program.now.globals) }
{
    let mut globals = List::new(alloc);
    for global in program.globals.as_slice() {
        let words = first_words(alloc, global)?;
        globals.push(words)?;
    }
    Ok(globals)
}
