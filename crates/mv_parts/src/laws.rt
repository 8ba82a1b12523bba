ghost use Rattle.mv_parts.specs.Laws.{SwitchesAreThere, DataIsCounted, PartsCanBeLinked, PartsAreCounted, SizesAreCounted};

use mv_count_code::code_is_short;
use mv_link_data::data_law;
use mv_lower_names::lowered_names_are_there;
use mv_lower_spec::shape::lowered_forms_are_right;
use mv_select::bodies::lines_are_named;
use mv_select::selection_law;
use mv_variants::bound::{
    made_bodies_are_variants, rows_lead_to_variants, variants_can_be_selected,
};

/// The code of a well-formed program can be linked, and counts over the source bound it. The call does nothing: its contract is the law.
///
/// `switches`: its switches and pointer switches are globals, and the words of its data have numbers. `data`: there are as many of these as its globals have.
/// `parts`: where its tables can be made, and there are numbers for all labels and room for its data, its code, its switches and pointer switches and its data
/// are what the linker asks for. `counts`: it has no more slots, those of four words counted twice, than calls of attributed functions and twice those through
/// pointer switches, once and once more for each assignment; with the entries a plan can patch these; and where its text passes the limit, so does the count
/// over the source. `sizes`: the size of the functions' code, and that with which a limit is passed by their first variants, are within these counts too.
pub fn parts_law()
    ensures switches { SwitchesAreThere }
    ensures data { DataIsCounted }
    ensures parts { PartsCanBeLinked }
    ensures counts { PartsAreCounted }
    ensures sizes { SizesAreCounted }
{
    code_is_short();
    data_law();
    lines_are_named();
    lowered_forms_are_right();
    lowered_names_are_there();
    made_bodies_are_variants();
    rows_lead_to_variants();
    selection_law();
    variants_can_be_selected();
}
