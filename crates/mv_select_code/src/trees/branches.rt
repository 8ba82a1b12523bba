// Branches by a tree's value.

ghost use Rattle.std.specs.Prelude.{◌≡◌, ◌+◌, ◌≤◌, ◌++◌, OnOk};
ghost use Rattle.mv_ir.specs.Trees.{depth};
ghost use Rattle.mv_select_code.specs.Trees.TreeCode.{seats_at, temps_of, is_taken, comparison, word_branch, operand_lines, operand_register, branch_lines};

use crate::trees::places::Places;
use crate::trees::trees::{operand_register, push_operand};
use mv_ir::tree::Tree;
use mv_isa::labelled::Line;
use mv_num::list::List;
use std::alloc::AllocError;

// Whether a number makes a branch go to its label.
fn is_taken(sense: bool, number: u32) -> bool
    ensures { result ≡ is_taken sense number }
{
    if number == 0 { !sense } else { sense }
}

// The branch that compares two registers as an operator does, by its funct3, or as its opposite. Only comparisons have one.
#[tactic(auto, using(crate::proofs::OfTrees::Branches::comparisons))]
fn comparison(sense: bool, operator: u8) -> Option<u8>
    ensures { result ≡ comparison sense operator }
{
    match operator {
        9 => Some(if sense { 4 } else { 5 }),
        10 => Some(if sense { 6 } else { 7 }),
        11 => Some(if sense { 0 } else { 1 }),
        12 => Some(if sense { 1 } else { 0 }),
        _ => None,
    }
}

/// Puts code at the end that goes to a label exactly where a tree's value isn't 0, or exactly where it is, as `sense` says, and
/// else on. It uses the registers from a first one on, as many as the tree is deep. What this code does is said by
/// `statement_code_law`.
#[tactic(auto, using(crate::proofs::OfTrees::Branches::branches))]
pub fn push_branch(
    code: &mut List<Line>,
    places: Places<'_>,
    tree: &Tree,
    sense: bool,
    register: u8,
    label: u32,
) -> Result<(), AllocError>
    requires registers { register + depth tree.now ≤ 32 }
    requires temps { temps_of tree.now ≤ 507 }
    ensures { OnOk result (code.new ≡ code.old ++ branch_lines (seats_at places.entry.rooms.now places.entry.keeping places.entry.pins.now)
        tree.now sense register label) }
{
    match tree {
        Tree::Number(n) => {
            if is_taken(sense, *n) {
                code.push(Line::Jump(0, label))?;
            }
            Ok(())
        }
        Tree::Unary(operator, a) => {
            if *operator == 2 {
                push_branch(code, places, a.get(), !sense, register, label)
            } else {
                push_word_branch(code, places, tree, sense, register, label)
            }
        }
        Tree::Binary(operator, a, b) => match comparison(sense, *operator) {
            Some(funct3) => {
                push_operand(code, places, a.get(), register)?;
                push_operand(code, places, b.get(), register + 1)?;
                let left = operand_register(places, a.get(), register);
                let right = operand_register(places, b.get(), register + 1);
                code.push(Line::Branch(funct3, left, right, label))?;
                Ok(())
            }
            None => push_word_branch(code, places, tree, sense, register, label),
        },
        Tree::Temp(_) | Tree::Global(_) | Tree::Function(_) | Tree::Narrow(_, _) => {
            push_word_branch(code, places, tree, sense, register, label)
        }
    }
}

// By the word of the whole tree.
fn push_word_branch(
    code: &mut List<Line>,
    places: Places<'_>,
    tree: &Tree,
    sense: bool,
    register: u8,
    label: u32,
) -> Result<(), AllocError>
    requires registers { register + depth tree.now ≤ 32 }
    requires temps { temps_of tree.now ≤ 507 }
    ensures { OnOk result (code.new ≡ code.old ++ (operand_lines (seats_at places.entry.rooms.now places.entry.keeping places.entry.pins.now) tree.now register
        ++ word_branch sense (operand_register (seats_at places.entry.rooms.now places.entry.keeping places.entry.pins.now) tree.now register) label)) }
{
    push_operand(code, places, tree, register)?;
    let funct3 = if sense { 1 } else { 0 };
    code.push(Line::Branch(funct3, operand_register(places, tree, register), 0, label))?;
    Ok(())
}
