ghost use Rattle.mv_refine_images.specs.Laws.{BuiltProgramsBehave};
ghost use Rattle.mv_refine_images.specs.Patched.{PatchedFunctionsStand};

use crate::bodies::bodies_are_in_program;
use crate::tables::{images_have_tables, rows_lead_on};
use mv_image::facts::format_law;
use mv_ir::laws::ends_are_reached;
use mv_ir_worlds::{fit_frames_law, fit_worlds_law};
use mv_link_data::data_law;
use mv_link_text::linked_text_law;
use mv_lower_spec::calls::{bodies_are_right, calls_keep_bindings, main_ends_alike, main_is_right};
use mv_lower_spec::shape::lowered_forms_are_right;
use mv_parts::parts_law;
use mv_refine_machine::commits::{
    tabled_orders_are_served, watched_ends_law, watched_machine_law, watched_runs_law,
};
use mv_refine_machine::runs::images_behave;
use mv_refine_machine::stubs::checks_stand;
use mv_refine_machine::{functions_show, packed_is_laid_out};
use mv_select::bodies::bodies_are_functions;
use mv_select::selection_law;

/// The run of an image that is built of a well-formed program does, in each hart, what the program means, on
/// each input of bytes, with any acts of its polls that fit there, and by any picks of the fetches: `Behaves` of `mv_refine_machine::runs` says
/// how. `IsBuilt` says what a compiler has to give: a body for each function that means what the function is lowered to, and variants
/// for each attributed one; the code that is selected for them; the first words of the globals; and the image that is linked of them,
/// with its tables. And no instruction loads a data word of a global that is closed to what stands at its place (`closed`): a
/// function's code loads from no global that the function doesn't read. So no word that stands in a variant, at a site or not, loads a
/// switch of the variant's function, and no word at a site any switch. The call does nothing: its contract is the law.
pub fn built_programs_behave()
    ensures { BuiltProgramsBehave }
{
    linked_text_law();
    functions_show();
    checks_stand();
    rows_lead_on();
    images_have_tables();
    bodies_are_in_program();
    bodies_are_functions();
    selection_law();
    lowered_forms_are_right();
    data_law();
    parts_law();
    packed_is_laid_out();
    format_law();
    watched_runs_law();
    watched_machine_law();
    tabled_orders_are_served();
    watched_ends_law();
    images_behave();
    bodies_are_right();
    main_is_right();
    main_ends_alike();
    calls_keep_bindings();
    fit_worlds_law();
    fit_frames_law();
    ends_are_reached();
}

/// The code of an attributed function stands on the machine, at its entry, at its slots and in its variants, where an image has it in its tables: its entry, its
/// sites, and for each combination of its switches' values a row that is a variant's. The call does nothing: its contract is the law.
pub fn patched_functions_stand()
    ensures { PatchedFunctionsStand }
{
    functions_show();
}
