//! The statements of a line.

ghost use Rattle.std.specs.Prelude.{◌≡◌, MatchOption, IfOk, Some, None, option_map, ◌<◌, slice_index_or};
ghost use Rattle.mv_asmtext.specs.Lexemes.{lexemes, lexeme_of};
ghost use Rattle.mv_asmtext.specs.Mnemonics.{mnemonics, mnemonic_named};
ghost use Rattle.mv_asmtext.specs.Statements.{operation_named, elements_of, register_in, number_in, target_in, is_mark, with_register, set_register, set_value, where_marked, filled_one, filled, no_operands, statement_of, body_of, unlabelled, label_in};

use crate::lexeme::{Token, is_name, next};
use crate::mnemonic::{MNEMONICS, Mnemonic};
use crate::number::{Number, number_of};
use crate::operand::{Element, Registers};
use crate::register::{Register, register_named};
use mv_num::text::Text;
use std::alloc::{AllocError, Global};

/// What a statement does: an instruction, or a directive.
#[derive(Clone, Copy)]
pub enum Operation {
    Instruction(Mnemonic),
    Word,
    Entry,
    Data,
}

/// A number, or the label that stands for one.
#[derive(Drop)]
pub enum Value {
    Number(Number),
    Label(Text),
}

/// The operands of a statement. What it doesn't have is 0.
#[derive(Drop)]
pub struct Operands {
    pub registers: Registers,
    pub value: Value,
}

/// An instruction or a directive, with its operands.
#[derive(Drop)]
pub struct Statement {
    pub operation: Operation,
    pub operands: Operands,
}

/// What a line has before its comment.
#[derive(Drop)]
pub struct Body {
    pub label: Option<Text>,
    pub statement: Option<Statement>,
}

/// A mnemonic by its index.
fn mnemonic_at(index: usize) -> Mnemonic
    requires { index < 49 }
    ensures { result ≡ slice_index_or mnemonics index result }
{
    MNEMONICS[index]
}

/// The mnemonic that a word spells, if it spells one.
#[tactic(auto, unfolding(crate::specs::Mnemonics::mnemonic_named))]
fn mnemonic_named(word: &[u8]) -> Option<Mnemonic>
    ensures { result ≡ mnemonic_named word.now }
{
    for index in 0..MNEMONICS.len() {
        let mnemonic = mnemonic_at(index);
        if mnemonic.name() == word {
            return Some(mnemonic);
        }
    }
    None
}

/// The operation that a word spells, if it spells one.
#[tactic(auto, unfolding(crate::specs::Statements::operation_named))]
fn operation_named(word: &[u8]) -> Option<Operation>
    ensures { result ≡ operation_named word.now }
{
    if word == b".word".as_slice() {
        Some(Operation::Word)
    } else if word == b".entry".as_slice() {
        Some(Operation::Entry)
    } else if word == b".data".as_slice() {
        Some(Operation::Data)
    } else {
        match mnemonic_named(word) {
            Some(mnemonic) => Some(Operation::Instruction(mnemonic)),
            None => None,
        }
    }
}

/// What follows the name of an operation.
#[tactic(auto, unfolding(crate::specs::Statements::elements_of))]
fn elements_of(operation: Operation) -> &'static [Element]
    ensures { result.now ≡ elements_of operation }
{
    match operation {
        Operation::Instruction(mnemonic) => mnemonic.operands(),
        Operation::Word => &[Element::Number],
        Operation::Entry => &[Element::Target],
        Operation::Data => &[],
    }
}

fn register_in(token: Token<'_>) -> Option<Register>
    ensures { result ≡ register_in (lexeme_of token.entry) }
{
    match token {
        Token::Word(word) => register_named(word),
        Token::Mark(_) => None,
    }
}

fn number_in(token: Token<'_>) -> Option<Value>
    ensures { result ≡ number_in (lexeme_of token.entry) }
{
    match token {
        Token::Word(word) => match number_of(word) {
            Some(number) => Some(Value::Number(number)),
            None => None,
        },
        Token::Mark(_) => None,
    }
}

fn target_in(alloc: Global, token: Token<'_>) -> Result<Option<Value>, AllocError>
    ensures { IfOk result (λ value. value ≡ target_in (lexeme_of token.entry)) }
{
    match token {
        Token::Word(word) => {
            if is_name(word) {
                let label = Text::new(alloc, word)?;
                Ok(Some(Value::Label(label)))
            } else {
                Ok(number_in(token))
            }
        }
        Token::Mark(_) => Ok(None),
    }
}

fn is_mark(token: Token<'_>, byte: u8) -> bool
    ensures { result ≡ is_mark byte (lexeme_of token.entry) }
{
    match token {
        Token::Word(_) => false,
        Token::Mark(mark) => mark == byte,
    }
}

/// Registers with another in place of the one of an element.
fn with_register(registers: Registers, element: Element, register: Register) -> Registers
    ensures { result ≡ with_register registers element register }
{
    let Registers { rd, rs1, rs2 } = registers;
    match element {
        Element::Rd => Registers {
            rd: register,
            rs1,
            rs2,
        },
        Element::Rs1 => Registers {
            rd,
            rs1: register,
            rs2,
        },
        _ => Registers {
            rd,
            rs1,
            rs2: register,
        },
    }
}

/// The operands with the register that a token names.
fn fill_register(element: Element, token: Token<'_>, operands: Operands) -> Option<Operands>
    ensures { result ≡ option_map (set_register operands element) (register_in (lexeme_of token.entry)) }
{
    let register = register_in(token)?;
    let Operands { registers, value } = operands;
    Some(Operands {
        registers: with_register(registers, element, register),
        value,
    })
}

/// The operands with another value.
fn fill_value(value: Option<Value>, operands: Operands) -> Option<Operands>
    ensures { result ≡ option_map (set_value operands) value }
{
    let registers = operands.registers;
    match value {
        Some(value) => Some(Operands { registers, value }),
        None => None,
    }
}

/// The operands, if a mark stands there.
fn fill_mark(is_there: bool, operands: Operands) -> Option<Operands>
    ensures { result ≡ where_marked is_there operands }
{
    if is_there { Some(operands) } else { None }
}

/// The operands with what a token gives for an element, if it is one of the element's.
#[tactic(auto, unfolding(crate::specs::Statements::filled_one))]
fn fill(
    alloc: Global,
    element: Element,
    token: Token<'_>,
    operands: Operands,
) -> Result<Option<Operands>, AllocError>
    ensures { IfOk result (λ filled. filled ≡ filled_one element (lexeme_of token.entry) operands) }
{
    match element {
        Element::Rd | Element::Rs1 | Element::Rs2 => Ok(fill_register(element, token, operands)),
        Element::Number => Ok(fill_value(number_in(token), operands)),
        Element::Target => Ok(fill_value(target_in(alloc, token)?, operands)),
        Element::Comma => Ok(fill_mark(is_mark(token, b','), operands)),
        Element::Open => Ok(fill_mark(is_mark(token, b'('), operands)),
        Element::Close => Ok(fill_mark(is_mark(token, b')'), operands)),
    }
}

/// No operands: what a statement doesn't have is 0.
fn no_operands() -> Operands
    ensures { result ≡ no_operands }
{
    let zero = Register::new(0);
    Operands {
        registers: Registers {
            rd: zero,
            rs1: zero,
            rs2: zero,
        },
        value: Value::Number(Number {
            negative: false,
            magnitude: 0,
        }),
    }
}

/// The operands of these elements, which are all that the line has.
#[tactic(auto, using(crate::proofs::Turns::filled_short), unfolding(crate::specs::Statements::filled))]
fn read_operands(
    alloc: Global,
    elements: &[Element],
    line: &[u8],
) -> Result<Option<Operands>, AllocError>
    ensures { IfOk result (λ operands. operands ≡ filled elements.now (lexemes line.now) no_operands) }
{
    let mut rest = line;
    let mut operands = no_operands();
    for element in elements {
        let Some((token, more)) = next(rest) else {
            return Ok(None);
        };
        let Some(filled) = fill(alloc, *element, token, operands)? else {
            return Ok(None);
        };
        operands = filled;
        rest = more;
    }
    match next(rest) {
        Some(_) => Ok(None),
        None => Ok(Some(operands)),
    }
}

/// The statement that a line is, if it is one.
#[tactic(auto, unfolding(crate::specs::Statements::statement_of))]
fn read_statement(alloc: Global, line: &[u8]) -> Result<Option<Statement>, AllocError>
    ensures { IfOk result (λ statement. statement ≡ statement_of (lexemes line.now)) }
{
    let Some((Token::Word(word), rest)) = next(line) else {
        return Ok(None);
    };
    let Some(operation) = operation_named(word) else {
        return Ok(None);
    };
    match read_operands(alloc, elements_of(operation), rest)? {
        Some(operands) => Ok(Some(Statement {
            operation,
            operands,
        })),
        None => Ok(None),
    }
}

/// The label in front of a line, and what follows its colon.
#[tactic(auto, unfolding(crate::specs::Statements::label_in))]
fn label(line: &[u8]) -> Option<(&[u8], &[u8])>
    ensures { MatchOption result (label_in (lexemes line.now) ≡ None) (λ found. label_in (lexemes line.now) ≡ Some (found.0.now, lexemes found.1.now)) }
{
    let (token, behind) = next(line)?;
    let Token::Word(word) = token else {
        return None;
    };
    let (colon, rest) = next(behind)?;
    if is_mark(colon, b':') && is_name(word) {
        Some((word, rest))
    } else {
        None
    }
}

/// What follows the label of a line.
#[tactic(auto, unfolding(crate::specs::Statements::unlabelled))]
fn read_unlabelled(
    alloc: Global,
    label: Option<Text>,
    line: &[u8],
) -> Result<Option<Body>, AllocError>
    ensures { IfOk result (λ body. body ≡ unlabelled label (lexemes line.now)) }
{
    if next(line).is_none() {
        return Ok(Some(Body {
            label,
            statement: None,
        }));
    }
    let Some(statement) = read_statement(alloc, line)? else {
        return Ok(None);
    };
    Ok(Some(Body {
        label,
        statement: Some(statement),
    }))
}

/// A line, if it is one: at most one label, then at most one statement, then at most one comment.
#[tactic(auto, unfolding(crate::specs::Statements::body_of))]
pub fn read_body(alloc: Global, line: &[u8]) -> Result<Option<Body>, AllocError>
    ensures { IfOk result (λ body. body ≡ body_of (lexemes line.now)) }
{
    match label(line) {
        Some((name, rest)) => {
            let name = Text::new(alloc, name)?;
            read_unlabelled(alloc, Some(name), rest)
        }
        None => read_unlabelled(alloc, None, line),
    }
}
