//! The statements on elements of arrays.

ghost use Rattle.std.specs.Prelude.{◌≡◌, ◌+◌, ◌*◌, ◌<◌, ◌≤◌, ◌++◌, OnOk, None};
ghost use Rattle.mv_ir.specs.Trees.{depth};
ghost use Rattle.mv_select_code.specs.Trees.TreeCode.{near, seats_at, temps_of, literal};
ghost use Rattle.mv_select_code.specs.Statements.StatementCode.{home_within, element_offset, base_by, element_lines, fixed, element_at, fetch_lines, store_lines, put_lines, test_lines, tested_lines, check_lines, read_by, read_lines, write_by, write_lines, bounds_lines, clear_lines};

use crate::statements::instructions::{FIRST, SECOND, THIRD, push_keep, target};
use crate::trees::places::{Places, pinned};
use crate::trees::{
    literal, lower_bits, near, operand_register, push_load, push_number, push_one, push_operand,
    push_two, upper_bits,
};
use mv_bindings::traps::INDEX_OUTSIDE;
use mv_ir::tree::Tree;
use mv_isa::Instr;
use mv_isa::labelled::Line;
use mv_isa::labels::TRAPS;
use mv_num::list::List;
use std::alloc::AllocError;

/// Where an array's first element stands.
#[derive(Clone, Copy, PartialEq, Eq, Debug)]
pub enum Home {
    /// At an address.
    Data(u32),
    /// So many bytes above sp.
    Frame(u32),
}

/// Where the elements of an array stand, how many there are, and whether an index is tested.
#[derive(Clone, Copy)]
pub struct Elements {
    pub home: Home,
    pub size: u32,
    pub tested: bool,
}

// The lower part of the place of an element.
fn element_offset(home: Home, size: u32) -> i32
    requires { home_within home size 2032 }
    ensures { result ≡ element_offset home }
{
    match home {
        Home::Data(at) => match near(at) {
            Some(near) => near.offset,
            None => lower_bits(at),
        },
        Home::Frame(at) => at as i32,
    }
}

// The other part of that place, out of the index in a register, into the first one.
fn push_element(code: &mut List<Line>, home: Home, index: u8) -> Result<(), AllocError>
    ensures { OnOk result (code.new ≡ code.old ++ element_lines home index) }
{
    let rd = FIRST;
    let rs1 = FIRST;
    let scaled = Instr::Slli {
        rd,
        rs1: index,
        imm: 2,
    };
    push_one(code, scaled)?;
    match home {
        Home::Data(at) => push_base(code, at),
        Home::Frame(_) => push_one(code, Instr::Add { rd, rs1, rs2: 2 }),
    }
}

// Adds to the first register what reaches an array's first element with the lower part of its place.
fn push_base(code: &mut List<Line>, at: u32) -> Result<(), AllocError>
    ensures { OnOk result (code.new ≡ code.old ++ base_by (near at) at) }
{
    let rd = FIRST;
    let rs1 = FIRST;
    match near(at) {
        Some(near) => push_one(
            code,
            Instr::Add {
                rd,
                rs1,
                rs2: near.base,
            },
        ),
        None => push_two(
            code,
            Instr::Lui {
                rd: THIRD,
                imm: upper_bits(at),
            },
            Instr::Add {
                rd,
                rs1,
                rs2: THIRD,
            },
        ),
    }
}

// The number that an index is written as, where it is below the number of elements.
#[tactic(auto, unfolding(crate::specs::Statements::StatementCode::fixed))]
fn fixed(size: u32, index: &Tree) -> Option<u32>
    ensures { result ≡ fixed size (literal index.now) }
{
    match literal(index) {
        Some(n) if n < size => Some(n),
        _ => None,
    }
}

// Where the element of such an index stands.
fn element_at(home: Home, size: u32, index: u32) -> Home
    requires within { home_within home size 2032 }
    requires below { index < size }
    ensures value { result ≡ element_at home index }
    ensures within { home_within result 1 2032 }
{
    match home {
        Home::Data(at) => Home::Data(at.wrapping_add(index.wrapping_mul(4))),
        Home::Frame(at) => Home::Frame(at + 4 * index),
    }
}

// Puts the word that stands somewhere into a register.
fn push_fetch(code: &mut List<Line>, home: Home, rd: u8) -> Result<(), AllocError>
    requires { home_within home 1 2032 }
    ensures { OnOk result (code.new ≡ code.old ++ fetch_lines home rd) }
{
    match home {
        Home::Data(at) => push_load(code, at, rd),
        Home::Frame(at) => push_one(
            code,
            Instr::Lw {
                rd,
                rs1: 2,
                imm: at as i32,
            },
        ),
    }
}

/// Puts a register to an address, by way of the second register.
#[tactic(auto, unfolding(crate::specs::Statements::StatementCode::store_lines))]
pub(crate) fn push_store(code: &mut List<Line>, at: u32, register: u8) -> Result<(), AllocError>
    ensures { OnOk result (code.new ≡ code.old ++ store_lines at register) }
{
    match near(at) {
        Some(near) => push_one(
            code,
            Instr::Sw {
                rs1: near.base,
                rs2: register,
                imm: near.offset,
            },
        ),
        None => push_two(
            code,
            Instr::Lui {
                rd: SECOND,
                imm: upper_bits(at),
            },
            Instr::Sw {
                rs1: SECOND,
                rs2: register,
                imm: lower_bits(at),
            },
        ),
    }
}

// Puts a register to where an element stands.
fn push_put(code: &mut List<Line>, home: Home, register: u8) -> Result<(), AllocError>
    requires { home_within home 1 2032 }
    ensures { OnOk result (code.new ≡ code.old ++ put_lines home register) }
{
    match home {
        Home::Data(at) => push_store(code, at, register),
        Home::Frame(at) => push_one(
            code,
            Instr::Sw {
                rs1: 2,
                rs2: register,
                imm: at as i32,
            },
        ),
    }
}

// A test of the index in a register: trap 2 where it isn't below the array's length.
fn push_test(
    code: &mut List<Line>,
    places: Places<'_>,
    size: u32,
    index: u8,
) -> Result<(), AllocError>
    ensures { OnOk result (code.new ≡ code.old ++ test_lines (seats_at places.entry.rooms.now places.entry.keeping places.entry.pins.now) size index) }
{
    let trap = TRAPS + u32::from(INDEX_OUTSIDE);
    match pinned(places.pins, size) {
        Some(register) => {
            code.push(Line::Branch(7, index, register, trap))?;
        }
        None => {
            push_number(code, size, THIRD)?;
            code.push(Line::Branch(7, index, THIRD, trap))?;
        }
    }
    Ok(())
}

// The same where the index is to be tested.
fn push_tested(
    code: &mut List<Line>,
    places: Places<'_>,
    elements: Elements,
    index: u8,
) -> Result<(), AllocError>
    ensures { OnOk result (code.new ≡ code.old ++ tested_lines (seats_at places.entry.rooms.now places.entry.keeping places.entry.pins.now) elements.tested elements.size index) }
{
    if elements.tested {
        push_test(code, places, elements.size, index)
    } else {
        Ok(())
    }
}

/// Tests an index, if it is to be tested. One that isn't below the array's length is trap 2.
pub fn push_check(
    code: &mut List<Line>,
    places: Places<'_>,
    size: u32,
    tested: bool,
    index: &Tree,
) -> Result<(), AllocError>
    requires depth { depth index.now ≤ 4 }
    requires temps { temps_of index.now ≤ 507 }
    ensures { OnOk result (code.new ≡ code.old ++ check_lines (seats_at places.entry.rooms.now places.entry.keeping places.entry.pins.now) size tested index.now) }
{
    if !tested || fixed(size, index).is_some() {
        return Ok(());
    }
    push_operand(code, places, index, FIRST)?;
    push_test(code, places, size, operand_register(places, index, FIRST))
}

// An element at an index that is computed.
fn push_computed_read(
    code: &mut List<Line>,
    places: Places<'_>,
    temp: u32,
    elements: Elements,
    index: &Tree,
) -> Result<(), AllocError>
    requires temp { temp < 507 }
    requires home { home_within elements.home elements.size 2032 }
    requires depth { depth index.now ≤ 4 }
    requires temps { temps_of index.now ≤ 507 }
    ensures { OnOk result (code.new ≡ code.old ++ read_by (seats_at places.entry.rooms.now places.entry.keeping places.entry.pins.now)
        None temp elements.home elements.size elements.tested index.now) }
{
    push_operand(code, places, index, FIRST)?;
    let place = operand_register(places, index, FIRST);
    push_tested(code, places, elements, place)?;
    push_element(code, elements.home, place)?;
    let load = Instr::Lw {
        rd: target(places, temp),
        rs1: FIRST,
        imm: element_offset(elements.home, elements.size),
    };
    push_one(code, load)?;
    push_keep(code, places, temp)
}

/// Puts an element into a temporary, with trap 2 as for `push_check`.
pub fn push_read(
    code: &mut List<Line>,
    places: Places<'_>,
    temp: u32,
    elements: Elements,
    index: &Tree,
) -> Result<(), AllocError>
    requires temp { temp < 507 }
    requires home { home_within elements.home elements.size 2032 }
    requires depth { depth index.now ≤ 4 }
    requires temps { temps_of index.now ≤ 507 }
    ensures { OnOk result (code.new ≡ code.old ++ read_lines (seats_at places.entry.rooms.now places.entry.keeping places.entry.pins.now)
        temp elements.home elements.size elements.tested index.now) }
{
    match fixed(elements.size, index) {
        Some(n) => {
            let home = element_at(elements.home, elements.size, n);
            push_fetch(code, home, target(places, temp))?;
            push_keep(code, places, temp)
        }
        None => push_computed_read(code, places, temp, elements, index),
    }
}

// An element at an index that is computed.
fn push_computed_write(
    code: &mut List<Line>,
    places: Places<'_>,
    elements: Elements,
    index: &Tree,
    value: &Tree,
) -> Result<(), AllocError>
    requires home { home_within elements.home elements.size 2032 }
    requires index_depth { depth index.now ≤ 4 }
    requires index_temps { temps_of index.now ≤ 507 }
    requires value_depth { depth value.now ≤ 4 }
    requires value_temps { temps_of value.now ≤ 507 }
    ensures { OnOk result (code.new ≡ code.old ++ write_by (seats_at places.entry.rooms.now places.entry.keeping places.entry.pins.now)
        None elements.home elements.size elements.tested index.now value.now) }
{
    push_operand(code, places, index, FIRST)?;
    push_operand(code, places, value, SECOND)?;
    let place = operand_register(places, index, FIRST);
    push_tested(code, places, elements, place)?;
    push_element(code, elements.home, place)?;
    push_one(
        code,
        Instr::Sw {
            rs1: FIRST,
            rs2: operand_register(places, value, SECOND),
            imm: element_offset(elements.home, elements.size),
        },
    )
}

/// Puts a value into an element, with trap 2 as for `push_check`. The index is computed before the value.
pub fn push_write(
    code: &mut List<Line>,
    places: Places<'_>,
    elements: Elements,
    index: &Tree,
    value: &Tree,
) -> Result<(), AllocError>
    requires home { home_within elements.home elements.size 2032 }
    requires index_depth { depth index.now ≤ 4 }
    requires index_temps { temps_of index.now ≤ 507 }
    requires value_depth { depth value.now ≤ 4 }
    requires value_temps { temps_of value.now ≤ 507 }
    ensures { OnOk result (code.new ≡ code.old ++ write_lines (seats_at places.entry.rooms.now places.entry.keeping places.entry.pins.now)
        elements.home elements.size elements.tested index.now value.now) }
{
    match fixed(elements.size, index) {
        Some(n) => {
            push_operand(code, places, value, FIRST)?;
            let register = operand_register(places, value, FIRST);
            push_put(code, element_at(elements.home, elements.size, n), register)
        }
        None => push_computed_write(code, places, elements, index, value),
    }
}

/// Puts the addresses of the first of so many words of the frame, from a place on, and of their end into the first two registers.
pub fn push_bounds(code: &mut List<Line>, at: u32, count: u32) -> Result<(), AllocError>
    requires { at + 4 * count ≤ 2032 }
    ensures { OnOk result (code.new ≡ code.old ++ bounds_lines at count) }
{
    push_two(
        code,
        Instr::Addi {
            rd: FIRST,
            rs1: 2,
            imm: at as i32,
        },
        Instr::Addi {
            rd: SECOND,
            rs1: 2,
            imm: (at + 4 * count) as i32,
        },
    )
}

/// Makes the word at the address in the first register 0, and goes on to the next word.
pub fn push_clear(code: &mut List<Line>) -> Result<(), AllocError>
    ensures { OnOk result (code.new ≡ code.old ++ clear_lines) }
{
    push_two(
        code,
        Instr::Sw {
            rs1: FIRST,
            rs2: 0,
            imm: 0,
        },
        Instr::Addi {
            rd: FIRST,
            rs1: FIRST,
            imm: 4,
        },
    )
}
