// What an evaluation works on.

ghost use Rattle.std.specs.Prelude.{◌≡◌, ◌+◌, length, slice_get, slice_set, alloc_error};
ghost use Rattle.mv_ast.specs.Switches.{word_at, with_word, words_or_none};
ghost use Rattle.mv_meaning.specs.Growth.{capped};
ghost use Rattle.mv_interpret.specs.Runs.{stored_globals, stored_locals};

use mv_bindings::action::Action;
use mv_bindings::binding::{Binding, Event};
use mv_bindings::stop::Stop;
use mv_meaning::state::{Frame, Lvalue};
use mv_num::list::List;
use std::alloc::{AllocError, AllocFailed, Global};

/// Where an evaluation stands: the bound that is left, the number of frames above that of `main`, the number of frames of
/// attributed functions, and the work of a commit or a revert.
#[derive(Clone, Copy, Debug)]
pub struct Here {
    pub bound: u32,
    pub depth: u32,
    pub live: u32,
    pub plan_work: u64,
}

/// What all frames share. The work stops at its greatest number.
#[derive(Drop)]
pub struct State {
    pub alloc: Global,
    pub globals: List<List<u32>>,
    pub input: List<u8>,
    pub taken: usize,
    pub output: List<u8>,
    pub bindings: List<Binding>,
    pub actions: List<Action>,
    pub acted: usize,
    pub log: List<Event>,
    pub work: u64,
}

/// Why an evaluation comes to no value.
#[derive(Debug, Drop)]
pub enum Halt {
    Stopped(Stop),
    Memory(AllocError),
}

impl From<AllocError> for Halt {
    ghost use Rattle.mv_interpret.specs.declared.state.Halt.{Halt};

    ghost from_gives = { λ _ h. h ≡ Halt.Memory alloc_error };

    fn from(e: AllocError) -> Halt {
        Halt::Memory(e)
    }
}

impl<T: Drop> From<AllocFailed<T>> for Halt {
    ghost use Rattle.mv_interpret.specs.declared.state.Halt.{Halt};

    ghost from_gives = { λ _ h. h ≡ Halt.Memory alloc_error };

    fn from(e: AllocFailed<T>) -> Halt {
        Halt::Memory(AllocError::from(e))
    }
}

/// Counts some work.
pub fn count(state: &mut State, n: u64)
    ensures { state.new ≡ record state.old { work = capped (state.old.work + n) } }
{
    state.work = state.work.saturating_add(n);
}

/// A word of one of some objects, and 0 where there is none.
pub fn word_at(objects: &List<List<u32>>, which: u32, i: u32) -> u32
    ensures { result ≡ word_at objects.now which i }
{
    match objects.get(which as usize) {
        Some(words) => match words.get(i as usize) {
            Some(word) => *word,
            None => 0,
        },
        None => 0,
    }
}

/// The number of words of one of some objects.
pub fn size_at(objects: &List<List<u32>>, which: u32) -> usize
    ensures { result ≡ length (words_or_none (slice_get objects.now which)) }
{
    match objects.get(which as usize) {
        Some(words) => words.len(),
        None => 0,
    }
}

// Changes a word, where there is one.
fn set_word(words: &mut List<u32>, i: usize, value: u32)
    ensures { words.new ≡ slice_set words.old i value }
{
    if i < words.len() {
        words.set(i, value);
    }
}

/// Changes a word of one of some objects.
pub fn put_word(alloc: Global, objects: &mut List<List<u32>>, which: u32, i: usize, value: u32)
    ensures { objects.new ≡ with_word objects.old which i value }
{
    let which = which as usize;
    if which < objects.len() {
        let mut words = objects.set(which, List::new(alloc));
        set_word(&mut words, i, value);
        objects.set(which, words);
    }
}

/// Writes the value in a lvalue.
pub fn store_lvalue(lvalue: Lvalue, value: u32, frame: &mut Frame, state: &mut State)
    ensures globals { state.new ≡ record state.old { globals = stored_globals lvalue value state.old.globals } }
    ensures locals { frame.new ≡ record frame.old { locals = stored_locals lvalue value frame.old.locals } }
{
    match lvalue {
        Lvalue::Global(g, i) => put_word(state.alloc, &mut state.globals, g, i as usize, value),
        Lvalue::Local(l, i) => put_word(state.alloc, &mut frame.locals, l, i as usize, value),
    }
}
