//! What several harts on one text do is what their program means in each of them.
//!
//! - `specs/Runnable.antt`: what an image of a program has to be (`IsRunnable`), as `build` of `mv_build` gives each, and what the polls of a hart may
//!   take (`fits_in`).
//! - `fitting_law`: each hart of such an image, run alone, is right for all acts that fit it; and what hart 0 is bound to at any time, each other hart may
//!   adopt: functions bound to values of their switches' domains, and pointer switches to functions of their types. This is what `harts_are_right` of
//!   `mv_harts_runs` asks for. Actions of the operator that fit the image fit hart 0.
//! - `harts_mean`: in each run of harts, by any schedule, picks and failing devices, each hart has done what the program means in that hart with what its
//!   polls took (`specs/Laws.antt`): its output is a beginning of the meaning's at the bound of its instructions; it ends only as that does, with all that
//!   it writes; and it has done all of the meaning at each bound for which there was time. The run is the same by all picks.
#![tactic(auto)]

mod laws;

pub use laws::{fitting_law, harts_mean};
