//! That all functions of a program keep the calling convention, and that its main function does what the program means.
//!
//! `specs/Programs/Hosts.antt` says what a machine has to be for a program, and what it is for the code of a function to stand on it. What the functions do is
//! told by the source's meaning (`mv_lower_spec::calls`), so the induction over calls needs nothing of what a callee's frame holds.
//!
//! - `programs_keep`: where the code of each function of a well-formed program stands on a
//!   machine, made from a body that means what the lowered one means at no greater cost, all functions keep the calling
//!   convention at every bound, called at their entries or at slots, and do what they do by the source's meaning. Of an
//!   attributed function there is a variant for each combination of its switches' values, and its entry and its slots
//!   show what it is bound to: a jump to the variant, a call of it, or its inline body; and the slots of a pointer switch
//!   load it while it is free, and call the function that it is bound to. The machine may close addresses
//!   to what stands at a place, if none is closed that the code there may load. And `main`, begun in the first world of a
//!   hart, does at every bound what a call means that comes to what the program means, in at most 64 instructions and 100
//!   for one of work. `programs_keep_openly`: the same on a machine of which nothing is known of the worlds in which it
//!   is calm, where the stub serves orders and polls in fit ones.

ghost use Rattle.mv_refine_images.specs.Programs.Laws.{FunctionsKeepConvention, HostsAreNarrowed, MainFollows, MainFollowsOpenly};

use mv_ir_worlds::{fit_frames_law, fit_worlds_law};
use mv_lower_spec::calls::{bodies_are_right, calls_keep_bindings, main_ends_alike, main_is_right};
use mv_select::functions::function_code_law;
use mv_select::inline::inline_law;
use mv_select::slots::narrow_runs_law;

/// The code of a well-formed program does what the program means, over any memory `M`, where the code of each function stands on a machine for the program.
/// Its attributed functions may be bound and freed: text shows the bindings, at entries and at slots. The call does nothing: its contract is the law.
///
/// `functions`: at every bound all functions keep the calling convention: called at its entry or at a slot, each does what it does by the source's meaning
/// (C11 6.5.2.2), whatever it is bound to. `main`: in each hart, under each numbering of the functions, on each input, with all that polls take and fits, and at
/// each bound, the main function, begun in the program's first world, does what some call means that comes to the output, bytes taken, end, bindings and log
/// of the program (C11 5.1.2.3), and ends as the lowered program does, with a value where it returns. It takes at most 44 instructions more than the call
/// costs, which is at most 20 and 100 for one of work.
pub fn programs_keep<M>()
    ensures functions { FunctionsKeepConvention M }
    ensures main { MainFollows M }
{
    function_code_law::<M>();
    narrow_runs_law::<M>();
    inline_law::<M>();
    fit_frames_law();
    bodies_are_right();
    calls_keep_bindings();
    main_is_right();
    main_ends_alike();
}

/// So it does on a machine of which nothing is known of the worlds in which it is calm, where the stub serves orders and polls in fit ones: each binding is to
/// values of the domains, and the actions that are left fit. The call does nothing: its contract is the law.
///
/// `narrowed`: where only fit worlds count as calm, it is such a machine. `main`: so the main function does on it what `programs_keep` says.
pub fn programs_keep_openly<M>()
    ensures narrowed { HostsAreNarrowed M }
    ensures main { MainFollowsOpenly M }
{
    programs_keep::<M>();
    fit_worlds_law();
    narrow_runs_law::<M>();
}
