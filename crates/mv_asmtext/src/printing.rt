//! Code as text.

ghost use Rattle.std.specs.Prelude.{◌≡◌, ◌++◌, ◌<◌, OnOk};
ghost use Rattle.mv_asmtext.specs.Printing.{hex_digit, hex, digit_bytes, number_text, element_text, elements_text, operands_text, instruction_text, raw_text, word_text, word_lines, raw_lines, data_text, printed};

use crate::code::Code;
use crate::number::Number;
use crate::operand::Element;
use crate::parts::{Parts, taken_apart};
use mv_isa::{decode, encode};
use std::alloc::{AllocError, Global};

fn hex_digit(digit: u32) -> u8
    requires { digit < 16 }
    ensures { result ≡ hex_digit digit }
{
    if digit < 10 {
        b'0' + digit as u8
    } else {
        b'a' + (digit - 10) as u8
    }
}

/// Adds so many of a word's last hexadecimal digits.
#[tactic(auto, unfolding(crate::specs::Printing::hex))]
fn push_hex(out: &mut Vec<u8>, count: u8, word: u32) -> Result<(), AllocError>
    ensures { OnOk result (out.new.items ≡ out.old.items ++ hex count word) }
{
    if count > 0 {
        push_hex(out, count - 1, word / 16)?;
        out.push(hex_digit(word % 16))?;
    }
    Ok(())
}

/// Adds the decimal digits of a number, and none for 0.
#[tactic(auto, unfolding(crate::specs::Printing::digit_bytes))]
fn push_digits(out: &mut Vec<u8>, number: u64) -> Result<(), AllocError>
    ensures { OnOk result (out.new.items ≡ out.old.items ++ digit_bytes number) }
{
    if number > 0 {
        push_digits(out, number / 10)?;
        out.push(b'0' + (number % 10) as u8)?;
    }
    Ok(())
}

/// Adds a number, in decimal.
#[tactic(auto, unfolding(crate::specs::Printing::number_text, crate::specs::Printing::decimal))]
fn push_number(out: &mut Vec<u8>, number: Number) -> Result<(), AllocError>
    ensures { OnOk result (out.new.items ≡ out.old.items ++ number_text number) }
{
    if number.negative {
        out.push(b'-')?;
    }
    push_digits(out, number.magnitude / 10)?;
    out.push(b'0' + (number.magnitude % 10) as u8)?;
    Ok(())
}

/// Adds an element of an instruction's operands.
#[tactic(auto, unfolding(crate::specs::Printing::element_text))]
fn push_element(out: &mut Vec<u8>, parts: &Parts, element: Element) -> Result<(), AllocError>
    ensures { OnOk result (out.new.items ≡ out.old.items ++ element_text parts.now element) }
{
    match element {
        Element::Rd => out.extend_from_slice(parts.registers.rd.name()),
        Element::Rs1 => out.extend_from_slice(parts.registers.rs1.name()),
        Element::Rs2 => out.extend_from_slice(parts.registers.rs2.name()),
        Element::Number | Element::Target => push_number(out, Number::new(parts.imm)),
        Element::Comma => out.extend_from_slice(b", "),
        Element::Open => out.extend_from_slice(b"("),
        Element::Close => out.extend_from_slice(b")"),
    }
}

/// Adds an instruction.
#[tactic(auto, unfolding(crate::specs::Printing::instruction_text))]
fn push_instruction(out: &mut Vec<u8>, parts: &Parts) -> Result<(), AllocError>
    ensures { OnOk result (out.new.items ≡ out.old.items ++ instruction_text parts.now) }
{
    out.extend_from_slice(parts.mnemonic.name())?;
    push_operands(out, parts, parts.mnemonic.operands())
}

/// Adds a space and the elements, where there are any.
#[tactic(auto, using(crate::proofs::Turns::operands_more, crate::proofs::Turns::operands_none))]
fn push_operands(out: &mut Vec<u8>, parts: &Parts, elements: &[Element]) -> Result<(), AllocError>
    ensures { OnOk result (out.new.items ≡ out.old.items ++ operands_text parts.now elements.now) }
{
    if elements.is_empty() {
        return Ok(());
    }
    out.push(b' ')?;
    push_elements(out, parts, elements)
}

#[tactic(auto, unfolding(crate::specs::Printing::elements_text))]
fn push_elements(out: &mut Vec<u8>, parts: &Parts, elements: &[Element]) -> Result<(), AllocError>
    ensures { OnOk result (out.new.items ≡ out.old.items ++ elements_text parts.now elements.now) }
{
    for element in elements {
        push_element(out, parts, *element)?;
    }
    Ok(())
}

/// Adds a word as a number.
#[tactic(auto, unfolding(crate::specs::Printing::raw_text))]
fn push_raw(out: &mut Vec<u8>, word: u32) -> Result<(), AllocError>
    ensures { OnOk result (out.new.items ≡ out.old.items ++ raw_text word) }
{
    out.extend_from_slice(b".word 0x")?;
    push_hex(out, 8, word)
}

/// Adds a word: its instruction where that has this word, and else a number.
#[tactic(auto, unfolding(crate::specs::Printing::word_text))]
pub fn push_word(out: &mut Vec<u8>, word: u32) -> Result<(), AllocError>
    ensures { OnOk result (out.new.items ≡ out.old.items ++ word_text word) }
{
    match decode(word) {
        Some(instr) => {
            if encode(instr) == word {
                push_instruction(out, &taken_apart(instr))
            } else {
                push_raw(out, word)
            }
        }
        None => push_raw(out, word),
    }
}

#[tactic(auto, unfolding(crate::specs::Printing::word_lines))]
fn push_text(out: &mut Vec<u8>, words: &[u32]) -> Result<(), AllocError>
    ensures { OnOk result (out.new.items ≡ out.old.items ++ word_lines words.now) }
{
    for word in words {
        push_word(out, *word)?;
        out.push(b'\n')?;
    }
    Ok(())
}

#[tactic(auto, unfolding(crate::specs::Printing::raw_lines))]
fn push_data(out: &mut Vec<u8>, words: &[u32]) -> Result<(), AllocError>
    ensures { OnOk result (out.new.items ≡ out.old.items ++ raw_lines words.now) }
{
    for word in words {
        push_raw(out, *word)?;
        out.push(b'\n')?;
    }
    Ok(())
}

/// Adds all of a code's lines.
#[tactic(auto, unfolding(crate::specs::Printing::printed, crate::specs::Printing::data_text))]
pub fn push_code(out: &mut Vec<u8>, code: &Code) -> Result<(), AllocError>
    ensures { OnOk result (out.new.items ≡ out.old.items ++ printed code.now) }
{
    out.extend_from_slice(b".entry 0x")?;
    push_hex(out, 8, code.entry)?;
    out.push(b'\n')?;
    push_text(out, code.text.as_slice())?;
    let globals = code.globals.as_slice();
    if !globals.is_empty() {
        out.extend_from_slice(b".data\n")?;
        push_data(out, globals)?;
    }
    Ok(())
}
