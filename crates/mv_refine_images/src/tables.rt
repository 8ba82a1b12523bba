//! The tables of the image that is linked of a program: what they have of the program, and where their rows lead.
//!
//! - `rows_lead_on`: an attributed function's rows lead from each assignment of its switches to the variant that means
//!   what the function means under it (`LeadsToVariants`), and from no other words anywhere. The row of that variant has
//!   the address of its code, and its inline body (`HasRowOf`).
//! - `images_have_tables`: the rows of switches, functions and pointer switches stand in the program's order, the targets are
//!   all functions where there is a pointer switch, each order that a program may give is one that the machine knows, a plan patches no more places than are
//!   counted over the source, the same actions fit, and in each hart the program and the machine start with the same bindings.
//! - Laws alone, without a test.

ghost use Rattle.mv_refine_images.specs.Tables.Laws.{AttributedAreTabled, ImagesHaveTables, RowsLeadToVariants, VariantsHaveRows};

use mv_parts::parts_law;
use mv_select::inline::inline_law;
use mv_variants::bound::{made_bodies_are_variants, rows_lead_to_variants};

/// From each assignment of an attributed function's switches, the rows of the linked image lead to the variant that means what the function means under it.
/// The call does nothing: its contract is the law.
///
/// `tables`: each attributed function has its variants at its place among these functions. `leads`: there its rows lead from the assignments, and from no other
/// words. `rows`: the variant that values lead to has a row with the address of its code and with its inline body, if it has one.
pub fn rows_lead_on()
    ensures tables { AttributedAreTabled }
    ensures leads { RowsLeadToVariants }
    ensures rows { VariantsHaveRows }
{
    inline_law::<()>();
    made_bodies_are_variants();
    rows_lead_to_variants();
}

/// The tables of the linked image have of a program what orders and polls ask for. The call does nothing: its contract is the law.
pub fn images_have_tables()
    ensures { ImagesHaveTables }
{
    parts_law();
    rows_lead_on();
}
