//! What holds of the bodies of attributed functions under values of their switches: which of them a table's rows lead to, and what they mean.
//!
//! Laws on bodies of attributed functions that are made ready, bound to values of their switches, with numbers carried, folded, renamed and merged.
//!
//! - `rows_lead_to_variants`: the guard rows of an image, grouped by variant, lead from a combination of the domains to
//!   the body that came with it, and from other values to none.
//! - `made_bodies_are_variants`: a body that is made so means under these values what the function means, over callees that do what the short bodies
//!   do, and reads none of the switches.
//! - `passes_name_no_more`, `variants_can_be_selected`: it names no function and no known function that the first
//!   doesn't, calls none more often, and code can be selected for it where it can for the first, but for the number of
//!   temporaries.
//! - `slots_are_counted`: the code of a function has one slot for each direct call of an attributed function and one of
//!   four words for each call through a pointer switch, and all code together has no more than a plan can patch.

ghost use Rattle.mv_variants.specs.Bound.Led.{BodiesAreMade, CombinationsAreLed};
ghost use Rattle.mv_variants.specs.Bound.Meant.{LoweredAreVariants, MadeAreVariants, RenamingKeepsForm};
ghost use Rattle.mv_variants.specs.Bound.Names.{BindingNamesNoMore, CarryingNamesNoMore, FoldingNamesNoMore};
ghost use Rattle.mv_variants.specs.Bound.Reads.{VariantsReadNoSwitch};
ghost use Rattle.mv_variants.specs.Bound.Rows.{FittingIsLed, GroupedIsLed};
ghost use Rattle.mv_variants.specs.Bound.Slots.{AllSlotsAreFew, GeneralSlotsAreFew, OwnSlotsAreFew, PointsAreCalls, SlotsAreCalls, SlotsAreFew, SlotsArePatchable, SlotsWeighAsCalls, VariantSlotsAreFew};
ghost use Rattle.mv_variants.specs.Bound.Switches.{FunctionsAreLed};
ghost use Rattle.mv_variants.specs.Bound.Tables.{GroupsFit, VariantsAreLed};
ghost use Rattle.mv_variants.specs.Bound.Variants.{MadeAreInProgram, MadeCallNoMore, MadeFramesFit, MadeNameNoMore};

/// The rows that a merge gives, grouped by the bodies that they lead to, lead from the values of the switches to the body that came with them.
/// The call does nothing: its contract is the law.
///
/// `leads`: of a function's own rows, with others behind. `grouped`: of these alone. `tables`: of an image whose rows are those of all functions, one after the
/// other. `combinations`: there each combination leads to a body that is made of the function's under it. `functions`: of a program's function, with the domains
/// of its switches. `groups`: no group is empty, and all together have no more rows than there are assignments. `bodies`: each body that a merge keeps is made
/// of the function's.
pub fn rows_lead_to_variants()
    ensures leads { FittingIsLed }
    ensures grouped { GroupedIsLed }
    ensures tables { VariantsAreLed }
    ensures combinations { CombinationsAreLed }
    ensures functions { FunctionsAreLed }
    ensures groups { GroupsFit }
    ensures bodies { BodiesAreMade }
{}

/// A body that is made ready, bound to values of its switches, with numbers carried through its temporaries, folded and renamed means under
/// these values what the first means, over callees that do what the short bodies do, reads none of the switches, and has the folded form. There is room for its
/// temporaries. The call does nothing: its contract is the law.
pub fn made_bodies_are_variants()
    ensures form { RenamingKeepsForm }
    ensures all { MadeAreVariants }
    ensures lowered { LoweredAreVariants }
{}

/// Code whose switches are bound, code with numbers carried through its temporaries, and folded code name no functions and known functions that the code before
/// doesn't, and constants stay words. The call does nothing: its contract is the law.
pub fn passes_name_no_more()
    ensures bind { BindingNamesNoMore }
    ensures carry { CarryingNamesNoMore }
    ensures fold { FoldingNamesNoMore }
{}

/// A body that is made ready, bound to words, with numbers carried, folded and renamed names no more than the first and has no more calls
/// of each function; and it is one that code can be selected for, where the first is but for its temporaries. Its frame is small enough where that of the first
/// body renamed alone is. The call does nothing: its contract is the law.
pub fn variants_can_be_selected()
    ensures names { MadeNameNoMore }
    ensures calls { MadeCallNoMore }
    ensures selected { MadeAreInProgram }
    ensures frames { MadeFramesFit }
{}

/// A variant of a function of a well-formed program reads none of the function's switches, neither as a scalar nor as an array, and calls through none. The call
/// does nothing: its contract is the law.
pub fn variants_read_no_switch()
    ensures { VariantsReadNoSwitch }
{}

/// The lines of a function have one slot for each direct call of an attributed function in its code, which is a slot of the callee (`weights`), and one of four
/// words for each call through a pointer switch, and it goes through that (`points`); these counted twice, the slots of its own code and those of a variant's are
/// no more than its call sites in the source, its variants' together no more than that for each assignment, and those of all functions together no more than a
/// plan can patch. The call does nothing: its contract is the law.
pub fn slots_are_counted()
    ensures code { SlotsAreCalls }
    ensures points { PointsAreCalls }
    ensures weights { SlotsWeighAsCalls }
    ensures few { SlotsAreFew }
    ensures own { OwnSlotsAreFew }
    ensures general { GeneralSlotsAreFew }
    ensures all { AllSlotsAreFew }
    ensures variants { VariantSlotsAreFew }
    ensures patchable { SlotsArePatchable }
{}
