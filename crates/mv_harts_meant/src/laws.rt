//! The laws of what harts mean. The calls do nothing: their contracts are the laws.

ghost use Rattle.mv_harts_meant.specs.Laws.{ActionsPass, FittingLaw, MeansLaw, PicksDontMatter};

use mv_harts_runs::harts_are_right;
use mv_image::facts::format_law;
use mv_ir_worlds::fit_worlds_law;
use mv_meaning_numbering::pointer_types_law;
use mv_refine_machine::stores::{text_between_law, texts_of_images_law};

/// Each hart of a program's image, run alone, is right for all acts that fit it, and what hart 0 is bound to at any time fits each other hart.
///
/// `fitting`: on each input of bytes. `actions`: actions of the operator that fit the image, and whose values are words, are acts that fit hart 0.
pub fn fitting_law()
    ensures fitting { FittingLaw }
    ensures actions { ActionsPass }
{
    format_law();
    fit_worlds_law();
    pointer_types_law();
    text_between_law();
    texts_of_images_law();
}

/// Each hart of a run of harts on a program's image has done what the program means in it with what its polls took.
///
/// `means`: whatever the schedule, the picks and the failing devices are; and what `harts_are_right` of `mv_harts_runs` says of the run holds of it.
/// `picks`: the run is the same by all picks.
pub fn harts_mean()
    ensures means { MeansLaw }
    ensures picks { PicksDontMatter }
{
    fitting_law();
    harts_are_right();
}
