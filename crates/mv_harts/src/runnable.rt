//! What is built may be run in several harts.

ghost use Rattle.mv_harts.specs.Runnable.{BuiltAreRunnable};

use mv_accepts_programs::programs_of_texts_are_well_formed;
use mv_refine_images::tables::images_have_tables;

/// What `build` gives of a text is an image that several harts may run, as `run_harts` asks for. The call does nothing: its contract is the law.
pub fn built_programs_are_runnable()
    ensures { BuiltAreRunnable }
{
    images_have_tables();
    programs_of_texts_are_well_formed();
}
