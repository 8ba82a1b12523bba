//! By which oracle the words are picked that fetches give.

ghost use Rattle.std.specs.Prelude.{ℕ, ◌≡◌, ◌≢◌, ◌≤◌, List, map, All, IfOk, MatchOption};
ghost use Rattle.std.specs.Fmt.{decimal};
ghost use Rattle.mv_command.specs.Spelled.{most_pick};
ghost use Rattle.mv_command.specs.Oracles.{Names};

use crate::items::pieces_of;
use crate::number::number;
use crate::options::{FRESH, MOST_PICK, OLDEST};
use mv_num::list::List;
use std::alloc::{AllocError, Global};

/// What picks among the words that a fetch may give.
#[derive(Drop)]
pub enum Oracle {
    /// Always the present word.
    Fresh,
    /// Always the oldest word.
    Oldest,
    /// By these numbers in turn, from the first to the last and again.
    Table(List<u32>),
}

// The numbers that texts are, where each is one.
fn numbers_of(alloc: Global, texts: &[&str]) -> Result<Option<List<u32>>, AllocError>
    ensures { IfOk result (λ found. MatchOption found ((numbers : List ℕ) → All (λ n. n ≤ most_pick) numbers → map decimal numbers ≢ map (λ text. text.now) texts.now)
        (λ numbers. All (λ n. n ≤ most_pick) numbers × (map decimal numbers ≡ map (λ text. text.now) texts.now))) }
{
    let mut numbers = List::new(alloc);
    for text in texts {
        let Some(number) = number(text.as_bytes(), MOST_PICK) else {
            return Ok(None);
        };
        numbers.push(number as u32)?;
    }
    Ok(Some(numbers))
}

/// The oracle that a text names, where it names one.
pub fn named(alloc: Global, text: &str) -> Result<Option<Oracle>, AllocError>
    ensures { IfOk result (λ found. MatchOption found ((oracle : Oracle) → Names text.now oracle → ⊥) (Names text.now)) }
{
    if text == FRESH {
        return Ok(Some(Oracle::Fresh));
    }
    if text == OLDEST {
        return Ok(Some(Oracle::Oldest));
    }
    let pieces = pieces_of(alloc, text)?;
    match numbers_of(alloc, pieces.as_slice())? {
        Some(numbers) => Ok(Some(Oracle::Table(numbers))),
        None => Ok(None),
    }
}
