//! The statements that put a value into a temporary or a global, and that return one.

ghost use Rattle.std.specs.Prelude.{◌≡◌, ◌<◌, ◌≤◌, ◌++◌, OnOk};
ghost use Rattle.mv_ir.specs.Trees.{depth};
ghost use Rattle.mv_select_code.specs.Trees.TreeCode.{seats_at, temps_of, literal};
ghost use Rattle.mv_select_code.specs.Statements.StatementCode.{set_lines, set_global_lines, divisor_lines, divide_by, divide_lines, result_lines};

use crate::statements::elements::push_store;
use crate::statements::instructions::{
    FIRST, SECOND, division, is_seat, power_division, power_of, push_keep, target,
};
use crate::trees::places::Places;
use crate::trees::{
    literal, operand_register, own_register, place_of, push_into, push_one, push_operand,
};
use mv_bindings::traps::DIVISION_BY_ZERO;
use mv_ir::tree::Tree;
use mv_isa::labelled::Line;
use mv_isa::labels::TRAPS;
use mv_num::list::List;
use std::alloc::AllocError;

/// The register of a function's result, a0.
const RESULT: u8 = 10;

/// Puts a value into a temporary: no lines where it stands in the temporary's register already.
pub fn push_set(
    code: &mut List<Line>,
    places: Places<'_>,
    temp: u32,
    value: &Tree,
) -> Result<(), AllocError>
    requires temp { temp < 507 }
    requires depth { depth value.now ≤ 4 }
    requires temps { temps_of value.now ≤ 507 }
    ensures { OnOk result (code.new ≡ code.old ++ set_lines (seats_at places.entry.rooms.now places.entry.keeping places.entry.pins.now) temp value.now) }
{
    if is_seat(places.keeping.register(temp), own_register(places, value)) {
        return Ok(());
    }
    push_into(code, places, value, target(places, temp), FIRST)?;
    push_keep(code, places, temp)
}

/// Puts a value into a global.
pub fn push_set_global(
    code: &mut List<Line>,
    places: Places<'_>,
    global: u32,
    value: &Tree,
) -> Result<(), AllocError>
    requires depth { depth value.now ≤ 4 }
    requires temps { temps_of value.now ≤ 507 }
    ensures { OnOk result (code.new ≡ code.old ++ set_global_lines (seats_at places.entry.rooms.now places.entry.keeping places.entry.pins.now)
        global value.now) }
{
    push_operand(code, places, value, FIRST)?;
    let register = operand_register(places, value, FIRST);
    push_store(code, place_of(places.rooms, global), register)
}

// A test of a divisor in a register: trap 1 where it is 0. A number that is written needs none where it is another.
fn push_divisor(code: &mut List<Line>, divisor: &Tree, register: u8) -> Result<(), AllocError>
    ensures { OnOk result (code.new ≡ code.old ++ divisor_lines (literal divisor.now) register) }
{
    match literal(divisor) {
        Some(n) if n != 0 => Ok(()),
        _ => {
            code.push(Line::Branch(0, register, 0, TRAPS + u32::from(DIVISION_BY_ZERO)))?;
            Ok(())
        }
    }
}

// A quotient or a remainder by an instruction on two registers.
fn push_division(
    code: &mut List<Line>,
    places: Places<'_>,
    temp: u32,
    operator: u8,
    dividend: &Tree,
    divisor: &Tree,
) -> Result<(), AllocError>
    requires temp { temp < 507 }
    requires dividend_depth { depth dividend.now ≤ 4 }
    requires dividend_temps { temps_of dividend.now ≤ 507 }
    requires divisor_depth { depth divisor.now ≤ 4 }
    requires divisor_temps { temps_of divisor.now ≤ 507 }
    ensures { OnOk result (code.new ≡ code.old ++ divide_by (seats_at places.entry.rooms.now places.entry.keeping places.entry.pins.now)
        None temp operator dividend.now divisor.now) }
{
    push_operand(code, places, dividend, FIRST)?;
    push_operand(code, places, divisor, SECOND)?;
    let left = operand_register(places, dividend, FIRST);
    let right = operand_register(places, divisor, SECOND);
    push_divisor(code, divisor, right)?;
    push_one(code, division(operator, target(places, temp), left, right))?;
    push_keep(code, places, temp)
}

/// Puts a quotient or a remainder into a temporary. A divisor of 0 is trap 1. By one that is written as a power of two a division
/// without signs is a shift or an AND.
pub fn push_divide(
    code: &mut List<Line>,
    places: Places<'_>,
    temp: u32,
    operator: u8,
    dividend: &Tree,
    divisor: &Tree,
) -> Result<(), AllocError>
    requires temp { temp < 507 }
    requires dividend_depth { depth dividend.now ≤ 4 }
    requires dividend_temps { temps_of dividend.now ≤ 507 }
    requires divisor_depth { depth divisor.now ≤ 4 }
    requires divisor_temps { temps_of divisor.now ≤ 507 }
    ensures { OnOk result (code.new ≡ code.old ++ divide_lines (seats_at places.entry.rooms.now places.entry.keeping places.entry.pins.now)
        temp operator dividend.now divisor.now) }
{
    match power_of(operator, literal(divisor)) {
        Some(k) => {
            push_operand(code, places, dividend, FIRST)?;
            let left = operand_register(places, dividend, FIRST);
            push_one(
                code,
                power_division(operator, k, target(places, temp), left),
            )?;
            push_keep(code, places, temp)
        }
        None => push_division(code, places, temp, operator, dividend, divisor),
    }
}

/// Leaves a value as the result of the function: no lines where it stands in a0 already.
pub fn push_result(
    code: &mut List<Line>,
    places: Places<'_>,
    value: &Tree,
) -> Result<(), AllocError>
    requires depth { depth value.now ≤ 4 }
    requires temps { temps_of value.now ≤ 507 }
    ensures { OnOk result (code.new ≡ code.old ++ result_lines (seats_at places.entry.rooms.now places.entry.keeping places.entry.pins.now) value.now) }
{
    if is_seat(Some(RESULT), own_register(places, value)) {
        return Ok(());
    }
    push_into(code, places, value, RESULT, FIRST)
}
