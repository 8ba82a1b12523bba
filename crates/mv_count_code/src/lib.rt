//! How large the code of a program's functions and their frames are, by counts over the source.
//!
//! - `code_is_short`, of the functions of a well-formed program, each lowered, made ready or not, bound to values of its
//!   switches or not, folded or not, and renamed: its code has at most `40 * (1 + nodes)` words (`code`, `lines`), with its variants at
//!   most that once and once more for each assignment (`variants`); its frame is small enough where the declared words
//!   and 8 for each level of depth are at most 480 (`frames`, `passes`); so where the text of a program is too long, more
//!   than 131,072 are `400 + 40 * (1 + nodes) * (1 + assignments)`, summed over the functions (`text`); and the sites are
//!   at most the call sites, once and once more for each assignment (`sites`). Both hold of the functions with any of
//!   their variants (`fronts`).
//! - A crate of one law, without a test.
#![tactic(auto)]

ghost use Rattle.mv_count_code.specs.Sizes.{CodeIsShort, FramesFit, FramesPass, LinesAreShort, LoweredFramesPass, VariantsAreShort};
ghost use Rattle.mv_count_code.specs.Fronts.{FrontsAreCounted};
ghost use Rattle.mv_count_code.specs.Texts.{SitesAreFew, SlotsAreCounted, TextsPass};

use mv_lower_spec::shape::lowered_forms_are_right;
use mv_select::selection_law;
use mv_variants::bound::{made_bodies_are_variants, rows_lead_to_variants, slots_are_counted};

/// The code of the functions of a well-formed program is bounded by counts over the source, so a refusal of a frame, of text or of sites never comes
/// below these counts. The call does nothing: its contract is the law.
///
/// `code`: of each body of a function, its own or a variant, the statements and trees take, with entry and return, at most forty words for each node and
/// forty more. `lines`: so do the lines of its code, each branch taken for two. `variants`: a function's own body and its variants take together no more
/// than that once, and once more for each assignment. `frames`: the frame of each body is small enough where the declared words and eight for each level
/// of the depth are at most 480; `passes`: so where a frame passes the limit these are more, and also where one for all that the lowered code has in use
/// at one place would (`lowered`). `text`: where the text of a program passes its limit, so does its count over the source. `sites`: all sites are no
/// more than the call sites, once and once more for each assignment. `slots`: so are those of the code of all functions and
/// variants, and with the entries they are no more than a plan can patch. `fronts`: the words of all functions and of the first variants, and their sites, are
/// no more than the counts either.
pub fn code_is_short()
    ensures code { CodeIsShort }
    ensures lines { LinesAreShort }
    ensures variants { VariantsAreShort }
    ensures frames { FramesFit }
    ensures passes { FramesPass }
    ensures lowered { LoweredFramesPass }
    ensures text { TextsPass }
    ensures sites { SitesAreFew }
    ensures slots { SlotsAreCounted }
    ensures fronts { FrontsAreCounted }
{
    lowered_forms_are_right();
    made_bodies_are_variants();
    rows_lead_to_variants();
    slots_are_counted();
    selection_law();
}
