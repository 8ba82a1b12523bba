//! Rows of code that is assembled.

ghost use Rattle.std.specs.Prelude.{◌≡◌, true};
ghost use Rattle.mv_isa.specs.Code.{CodeFits, IsTextAddress, LineFits, StandsOnce, TargetStands, is_label};

use mv_asm::error::AsmError;
use mv_asm::{assemble, place};
use mv_isa::Instr;
use mv_isa::labelled::{Labelled, Line};
use mv_isa::labels::CHECK;
use mv_num::list::List;
use std::alloc::{AllocError, Global};
use std::io;

/// The most words or addresses that are all printed.
const SHOWN: usize = 20;

/// The number at a place of a list with commas.
fn number_at(fields: &str, place: usize) -> Option<u32> {
    fields.split(',').nth(place)?.parse::<u32>().ok()
}

fn register_at(fields: &str, place: usize) -> Option<u8> {
    fields.split(',').nth(place)?.parse::<u8>().ok()
}

/// ADDI with its two registers and its number.
fn addi(fields: &str) -> Option<Line> {
    Some(Line::Word(Instr::Addi {
        rd: register_at(fields, 0)?,
        rs1: register_at(fields, 1)?,
        imm: fields.split(',').nth(2)?.parse::<i32>().ok()?,
    }))
}

fn branch(fields: &str) -> Option<Line> {
    Some(Line::Branch(
        register_at(fields, 0)?,
        register_at(fields, 1)?,
        register_at(fields, 2)?,
        number_at(fields, 3)?,
    ))
}

/// An item of code: its kind, and its fields with commas between.
fn line_of(item: &str) -> Option<Line> {
    let (kind, fields) = item.split_once(' ')?;
    match kind {
        "addi" => addi(fields),
        "label" => Some(Line::Label(number_at(fields, 0)?)),
        "jump" => Some(Line::Jump(register_at(fields, 0)?, number_at(fields, 1)?)),
        "branch" => branch(fields),
        "entry" => Some(Line::Entry(register_at(fields, 0)?, number_at(fields, 1)?)),
        "slot" => Some(Line::Slot(number_at(fields, 0)?)),
        "point" => Some(Line::Point(number_at(fields, 0)?)),
        _ => None,
    }
}

/// Puts an item behind others, so many times where `N*` stands before it; one that is malformed not at all.
fn push_item(lines: &mut List<Line>, item: &str) -> Result<(), AllocError> {
    let (times, item) = item.split_once('*').unwrap_or(("1", item));
    let Some(line) = line_of(item) else {
        return Ok(());
    };
    for _ in 0..times.parse::<u32>().unwrap_or(0) {
        lines.push(line)?;
    }
    Ok(())
}

fn code_of(alloc: Global, items: &str) -> Result<Labelled, AllocError> {
    let mut lines = List::new(alloc);
    for item in items.split("; ") {
        push_item(&mut lines, item)?;
    }
    Ok(Labelled {
        items: lines,
        labels: 8,
    })
}

/// Whether an item's fields fit; of instructions it knows ADDI alone.
fn has_fitting_fields(line: Line) -> bool
    ensures { result ≡ true → LineFits line }
{
    match line {
        Line::Word(Instr::Addi { rd, rs1, imm }) => {
            rd < 32 && rs1 < 32 && -2048 <= imm && imm < 2048
        }
        Line::Word(_) => false,
        Line::Label(_) | Line::Slot(_) | Line::Point(_) => true,
        Line::Jump(rd, _) | Line::Entry(rd, _) => rd < 32,
        Line::Branch(funct3, rs1, rs2, _) => {
            (funct3 < 2 || 4 <= funct3 && funct3 < 8) && rs1 < 32 && rs2 < 32
        }
    }
}

fn is_label(line: &Line, label: u32) -> bool
    ensures { result ≡ is_label label line.now }
{
    match line {
        Line::Label(other) => *other == label,
        _ => false,
    }
}

fn stands_once(lines: &[Line], label: u32) -> bool
    ensures { result ≡ true → StandsOnce lines.now label }
{
    lines.iter().filter(|line| is_label(line, label)).count() == 1
}

fn has_standing_label(lines: &[Line], line: Line) -> bool
    ensures { result ≡ true → TargetStands lines.now line }
{
    match line {
        Line::Jump(_, label) => stands_once(lines, label),
        Line::Branch(_, _, _, label) => stands_once(lines, label),
        Line::Entry(_, label) => stands_once(lines, label),
        Line::Slot(label) => stands_once(lines, label),
        Line::Point(_) => stands_once(lines, CHECK),
        Line::Word(_) | Line::Label(_) => true,
    }
}

fn line_fits(lines: &[Line], line: Line) -> bool
    ensures { result ≡ true → LineFits line × TargetStands lines.now line }
{
    has_fitting_fields(line) && has_standing_label(lines, line)
}

/// Whether code may be assembled.
fn fits(lines: &[Line]) -> bool
    ensures { result ≡ true → CodeFits lines.now }
{
    for line in lines {
        if !line_fits(lines, *line) {
            return false;
        }
    }
    true
}

/// Prints numbers, of many the first two and the last two alone.
fn print_numbers(rt: &HostRuntime, numbers: &[u32]) -> io::Result<()> {
    let many = numbers.len() > SHOWN;
    for (place, number) in numbers.iter().enumerate() {
        if !many || place < 2 || place + 2 >= numbers.len() {
            print!(rt; " {number:08x}")?;
        }
    }
    Ok(())
}

/// Prints the words of code that fits, and the addresses of its items.
fn print_assembled(rt: &HostRuntime, code: &Labelled, base: u32) -> io::Result<()>
    requires code { CodeFits code.now.items }
    requires base { IsTextAddress base }
{
    match assemble(rt.alloc(), code, base) {
        Ok(words) => {
            print!(rt; "{} words", words.len())?;
            print_numbers(rt, words.as_slice())?;
        }
        Err(AsmError::TextLimit(count)) => return println!(rt;
            "{count} words pass the end of text"
        ),
        Err(AsmError::Memory(error)) => return println!(rt; "{error}"),
    }
    match place(rt.alloc(), code, base) {
        Ok(placed) => {
            print!(rt; " at")?;
            print_numbers(rt, placed.addresses.as_slice())?;
        }
        Err(_) => print!(rt; " at no place")?,
    }
    println!(rt; "")
}

/// Assembles the items of a row behind its base.
pub(crate) fn show_assembled(rt: &HostRuntime, row: &str) -> io::Result<()> {
    let (base, items) = row.split_once(' ').unwrap_or(("", row));
    let base = u32::from_str_radix(base, 16).unwrap_or(0);
    let code = code_of(rt.alloc(), items)?;
    if base < 0x1000 || base >= 0x8_1000 || base % 4 != 0 || !fits(code.items.as_slice()) {
        return println!(rt; "unfit");
    }
    print_assembled(rt, &code, base)
}
