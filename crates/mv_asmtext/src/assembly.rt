//! The words of lines.

ghost use Rattle.std.specs.Prelude.{◌≡◌, ◌<◌, ◌^◌, true, IfOk, OnOk, MatchOption, Ok, Err};
ghost use Rattle.mv_isa.specs.Encoding.{encode};
ghost use Rattle.mv_asmtext.specs.Assembly.{is_entry, accepts, accepted, label_operand, operand_of, is_second, with_label_fault, put_word, put_statement, put_line, assembled};
ghost use Rattle.mv_asmtext.specs.Fields.{holds};
ghost use Rattle.mv_asmtext.specs.Mnemonics.{field_of, instruction};
ghost use Rattle.mv_asmtext.specs.Numbers.{signed};

use crate::code::Code;
use crate::field::is_below;
use crate::labels::{Labels, Site, labels_of};
use crate::mnemonic::Mnemonic;
use crate::number::Number;
use crate::operand::Registers;
use crate::source::{Line, Section};
use crate::statement::{Operation, Statement, Value};
use mv_isa::encode;
use mv_num::list::List;
use mv_num::regions::TEXT_START;
use std::alloc::{AllocError, Global};

/// What is wrong with an operand or a label.
#[derive(Clone, Copy)]
pub enum Fault {
    /// A number that its field doesn't hold, or an entry that isn't in text.
    Range,
    /// A label that stands twice, nowhere or too far away.
    Label,
}

/// Whether a number is the address of a word of text.
fn is_entry(words: u32, number: Number) -> bool
    requires { words < 2 ^ 25 }
    ensures { result ≡ is_entry words number }
{
    !number.negative
        && u64::from(TEXT_START) <= number.magnitude
        && number.magnitude < u64::from(TEXT_START) + 4 * u64::from(words)
        && number.magnitude % 4 == 0
}

/// Whether an operation takes a number, where text has so many words.
#[tactic(auto, unfolding(crate::specs::Assembly::accepts))]
fn accepts(words: u32, operation: Operation, number: Number) -> bool
    requires { words < 2 ^ 25 }
    ensures { result ≡ accepts words operation number }
{
    match operation {
        Operation::Instruction(mnemonic) => mnemonic.field().holds(number),
        Operation::Word => is_below(number, 0x1_0000_0000),
        Operation::Entry => is_entry(words, number),
        Operation::Data => true,
    }
}

/// The number, if the operation takes it.
fn accepted(words: u32, operation: Operation, number: Number, fault: Fault) -> Result<Number, Fault>
    requires { words < 2 ^ 25 }
    ensures { result ≡ accepted words operation number fault }
{
    if accepts(words, operation, number) {
        Ok(number)
    } else {
        Err(fault)
    }
}

/// What a label that stands somewhere stands for.
fn label_operand(
    words: u32,
    operation: Operation,
    at: u32,
    site: Option<Site>,
) -> Result<Number, Fault>
    requires { words < 2 ^ 25 }
    ensures { result ≡ label_operand words operation at site }
{
    let Some(site) = site else {
        return Err(Fault::Label);
    };
    match operation {
        Operation::Entry => {
            let number = Number {
                negative: false,
                magnitude: u64::from(site.address),
            };
            accepted(words, operation, number, Fault::Range)
        }
        _ => accepted(
            words,
            operation,
            Number::distance(at, site.address),
            Fault::Label,
        ),
    }
}

/// The number that an operand stands for.
fn operand(
    words: u32,
    labels: &Labels,
    operation: Operation,
    at: u32,
    value: &Value,
) -> Result<Number, Fault>
    requires { words < 2 ^ 25 }
    ensures { result ≡ operand_of words labels.now operation at value.now }
{
    match value {
        Value::Number(number) => accepted(words, operation, *number, Fault::Range),
        Value::Label(name) => label_operand(words, operation, at, labels.find(name.bytes())),
    }
}

/// Whether an earlier line has the label of a line.
fn is_second(labels: &Labels, line: &Line) -> bool
    ensures { result ≡ is_second labels.now line.now.number line.now.label }
{
    match &line.label {
        Some(name) => match labels.find(name.bytes()) {
            Some(site) => site.line != line.number,
            None => false,
        },
        None => false,
    }
}

/// What a line's label and operand come to together.
fn with_label_fault(second: bool, number: Result<Number, Fault>) -> Result<Number, Fault>
    ensures { result ≡ with_label_fault second number }
{
    match number {
        Ok(number) => {
            if second {
                Err(Fault::Label)
            } else {
                Ok(number)
            }
        }
        Err(Fault::Range) => Err(Fault::Range),
        Err(Fault::Label) => Err(Fault::Label),
    }
}

/// Adds a word to its section.
fn put_word(code: &mut Code, section: Section, word: u32) -> Result<(), AllocError>
    ensures { OnOk result (code.new ≡ put_word code.old section word) }
{
    match section {
        Section::Start | Section::Text => code.text.push(word)?,
        Section::Data => code.globals.push(word)?,
    }
    Ok(())
}

/// The word of an instruction whose field holds the number.
fn instruction_word(mnemonic: Mnemonic, registers: &Registers, number: Number) -> u32
    requires { holds (field_of mnemonic) number ≡ true }
    ensures { result ≡ encode (instruction mnemonic registers.now (signed number)) }
{
    let _rd = registers.rd.number();
    let _rs1 = registers.rs1.number();
    let _rs2 = registers.rs2.number();
    encode(mnemonic.instruction(*registers, number.signed()))
}

/// Adds what a statement with this number gives.
#[tactic(auto, unfolding(crate::specs::Assembly::accepts))]
fn put_statement(
    code: &mut Code,
    section: Section,
    words: u32,
    statement: &Statement,
    number: Number,
) -> Result<(), AllocError>
    requires words { words < 2 ^ 25 }
    requires accepted { accepts words statement.now.operation number ≡ true }
    ensures { OnOk result (code.new ≡ put_statement code.old section statement.now.operation statement.now.operands number) }
{
    match statement.operation {
        Operation::Instruction(mnemonic) => {
            let word = instruction_word(mnemonic, &statement.operands.registers, number);
            put_word(code, section, word)
        }
        Operation::Word => put_word(code, section, number.magnitude as u32),
        Operation::Entry => {
            code.entry = number.magnitude as u32;
            Ok(())
        }
        Operation::Data => Ok(()),
    }
}

/// Adds what a line gives, or tells its fault.
#[tactic(auto, unfolding(crate::specs::Assembly::put_line))]
fn put_line(
    code: &mut Code,
    words: u32,
    labels: &Labels,
    line: &Line,
) -> Result<Option<Fault>, AllocError>
    requires { words < 2 ^ 25 }
    ensures { IfOk result (λ fault. MatchOption fault (put_line words labels.now code.old line.now ≡ Ok code.new) (λ fault. put_line words labels.now code.old line.now ≡ Err fault)) }
{
    let second = is_second(labels, line);
    let Some(statement) = &line.statement else {
        return Ok(if second { Some(Fault::Label) } else { None });
    };
    let operand = operand(
        words,
        labels,
        statement.operation,
        line.address,
        &statement.operands.value,
    );
    match with_label_fault(second, operand) {
        Ok(number) => {
            put_statement(code, line.section, words, statement, number)?;
            Ok(None)
        }
        Err(fault) => Ok(Some(fault)),
    }
}

/// The code of lines that have so many words of text, or the first fault and the number of its line.
#[tactic(auto, unfolding(crate::specs::Assembly::put_lines))]
pub fn assemble(
    alloc: Global,
    words: u32,
    lines: &[Line],
) -> Result<Result<Code, (Fault, u32)>, AllocError>
    requires { words < 2 ^ 25 }
    ensures { IfOk result (λ code. code ≡ assembled words lines.now) }
{
    let labels = labels_of(alloc, lines)?;
    let mut code = Code {
        entry: TEXT_START,
        text: List::new(alloc),
        globals: List::new(alloc),
    };
    for line in lines {
        if let Some(fault) = put_line(&mut code, words, &labels, line)? {
            return Ok(Err((fault, line.number)));
        }
    }
    Ok(Ok(code))
}
