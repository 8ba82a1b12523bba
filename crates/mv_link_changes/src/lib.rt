//! How many words of an image's text are others under bindings.
//!
//! - `text_shows_bindings`: where all functions are free, and each bound pointer switch has no site, none is. For each function that is bound to a variant at least one
//!   is for its entry, and one for each of its sites, where the variant can be told from the function by the words
//!   (`CanBeTold`): no jump to it stands at the entry, it stands elsewhere, and its inline body begins with no JAL.
//!   For each pointer switch that is bound to a target the four words of each of its sites are.
//! - `slots_are_sites`: a linked image has at least one site of a function for each slot of it in the code of the functions,
//!   and at least one pointer site for each slot of four words of a pointer switch.
#![tactic(auto)]

ghost use Rattle.mv_link_changes.specs.Changed.{FreeTextIsUnchanged, TextShowsBindings};
ghost use Rattle.mv_link_changes.specs.Linked.{PointsAreSites, SlotsAreSites};

/// How many words of an image's text are others under bindings. `bound`: at least one for the entry of each function that is
/// bound to a variant, one for each of its sites, and four for each site of a bound pointer switch. `free`: none where all are free. The call does nothing: its
/// contract is the law.
pub fn text_shows_bindings()
    ensures bound { TextShowsBindings }
    ensures free { FreeTextIsUnchanged }
{}

/// A linked image has at least one site of a function for each slot of it in the code of the functions (`slots`), and at least one
/// pointer site of a pointer switch for each slot of four words of it, and none where there is none (`points`). The call does
/// nothing: its contract is the law.
pub fn slots_are_sites()
    ensures slots { SlotsAreSites }
    ensures points { PointsAreSites }
{}
