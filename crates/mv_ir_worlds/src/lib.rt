//! Worlds in which each attributed function is free, or bound to values of its switches' domains, each pointer switch free or bound to a
//! function, and in which what polls take fits.
//!
//! A world is fit where each attributed function is free or bound to one value of each of its switches' domains, each pointer switch is free or
//! bound to a function of the program, and all that polls are still to take fits the hart.
//!
//! - `fit_worlds_law`: a test holds exactly in the fit worlds; a commit binds a function to the words of its switches
//!   where they are in the domains, and else frees it; commits, reverts, polls, `getchar` and `putchar` leave a fit world
//!   where they find one, carried out or refused; and a program starts in a fit world where all actions fit.
//! - `fit_frames_law`: in a fit world a call of an attributed function finds it free, and then reads no switch as bound,
//!   or bound to values of its domains, and then reads each of its switches, at most 6, as its value; and a pointer switch is free, or bound to a
//!   function.
#![tactic(auto)]

ghost use Rattle.mv_ir_worlds.specs.Laws.{BindingsAreTold, CommitsAreToWords, FirstIsFit, FitIsTold, FramesOfBound, FramesOfFree, FunctionsAreFreeOrBound, KnownsKeepFit, OrdersKeepFit, PointersAreFreeOrBound};

/// What commits, reverts and polls leave of a fit world is fit. The call does nothing: its contract is the law.
///
/// `told` and `bindings`: a test tells the fit worlds, and another one the lists of bindings that may be. `committed`: a commit binds a function to the words
/// of its switches where they are in the domains, and else frees it. `orders`: of such a list a commit or a revert leaves such a list, whatever the globals
/// are. `knowns`: a known function leaves a fit world where it finds one, so also each order and each poll, carried out or refused. `first`: a program
/// starts in a fit world where all actions fit.
pub fn fit_worlds_law()
    ensures told { FitIsTold }
    ensures bindings { BindingsAreTold }
    ensures committed { CommitsAreToWords }
    ensures orders { OrdersKeepFit }
    ensures knowns { KnownsKeepFit }
    ensures first { FirstIsFit }
{}

/// In a fit world a call of an attributed function finds it free, or bound to a value of each of its switches' domains. The call does nothing: its contract
/// is the law.
///
/// `functions`: it is one of the two. `pointers`: a pointer switch is free, or bound to a function. `free` and `bound`: what the switches are read as in
/// the frame of a function then.
pub fn fit_frames_law()
    ensures functions { FunctionsAreFreeOrBound }
    ensures pointers { PointersAreFreeOrBound }
    ensures free { FramesOfFree }
    ensures bound { FramesOfBound }
{}
