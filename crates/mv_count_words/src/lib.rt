//! How many words of an image's text a run has changed, by the source of the program.
//!
//! - `images_show_bindings`: where the text of a program's image is that of the bindings in a state of a run, as many words
//!   are others than the image's as these bindings owe (`specs/Owed.antt`): at least one for the entry of each bound function
//!   and one for each direct call of it in the program, and four for each call through each bound pointer switch; and none
//!   where that is none (`counts`).
//!   So many lines are written of them (`shows`).
//! - `runs_are_bound`: in each state of a run, one of its variants fits the values to which a function is bound.
//!   `lines_are_words`: the words that are others than the image's have a line each.
//! - A crate of laws, without a test.
#![tactic(auto)]

ghost use Rattle.mv_count_words.specs.Bound.{RunsAreBound};
ghost use Rattle.mv_count_words.specs.Laws.{ImagesCountWords, ImagesShowBindings};
ghost use Rattle.mv_count_words.specs.Lines.{LinesAreWords};

use mv_count_slots::each_call_has_a_slot;
use mv_link_changes::{slots_are_sites, text_shows_bindings};
use mv_link_text::linked_text_law;
use mv_list::loads_give_the_text;

/// In each state of a run, one of its variants fits the values to which a function is bound. The call does nothing: its contract
/// is the law.
pub fn runs_are_bound()
    ensures { RunsAreBound }
{}

/// Where a memory holds the text under bindings, the words that are others than the image's have a line each. The call does
/// nothing: its contract is the law.
pub fn lines_are_words()
    ensures { LinesAreWords }
{
    loads_give_the_text();
}

/// Of the image of a program. `counts`: bindings by which each bound function has a variant change as many words of text as they
/// owe: at least one for the entry of each bound function, one for each direct call of it, and four for each call through each
/// bound pointer switch; and none where that is none. `shows`: so the bindings in any state of a run, and the changed words have a line each. The call does
/// nothing: its contract is the law.
pub fn images_show_bindings()
    ensures counts { ImagesCountWords }
    ensures shows { ImagesShowBindings }
{
    each_call_has_a_slot();
    text_shows_bindings();
    slots_are_sites();
    linked_text_law();
    runs_are_bound();
    lines_are_words();
}
