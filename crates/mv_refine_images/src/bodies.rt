//! What holds of the bodies that are linked of a program: what they mean and read, and that their code stands as the program's layout has it.
//!
//! - `bodies_are_in_program`: the code of each function is that of a body that means what the function is lowered to, and the
//!   code of each variant that of a body that does so wherever the function's switches are read as values that lead to it
//!   (`functions`, `variants`). Both are written from the addresses of the program's globals, ask for known functions that the
//!   program has, name functions that it has, and read no global that the lowered code doesn't read; a variant reads no switch
//!   of its function.
//! - One law, without a test.

ghost use Rattle.mv_refine_images.specs.Bodies.Laws.{FunctionsHaveOwnCode, VariantsHaveCode};

use mv_lower_names::lowered_names_are_there;
use mv_lower_spec::shape::lowered_forms_are_right;
use mv_select::bodies::{code_is_the_same, rooms_stand};
use mv_select::inline::inline_law;
use mv_variants::bound::{
    rows_lead_to_variants, variants_can_be_selected, variants_read_no_switch,
};

/// What is linked of a well-formed program is the code of bodies of the program. The call does nothing: its contract is the law.
///
/// `functions`: of each function, attributed or not, the code of a body that means what the function is lowered to. `variants`: of each variant, under all
/// values of the switches under which its body means what the function is lowered to, with the two words that stand for a call of it.
pub fn bodies_are_in_program()
    ensures functions { FunctionsHaveOwnCode }
    ensures variants { VariantsHaveCode }
{
    code_is_the_same();
    inline_law::<()>();
    lowered_forms_are_right();
    lowered_names_are_there();
    rooms_stand();
    rows_lead_to_variants();
    variants_can_be_selected();
    variants_read_no_switch();
}
