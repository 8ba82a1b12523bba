ghost use Rattle.std.specs.Prelude.{◌≡◌, ◌+◌, ◌<◌, ◌≤◌, ◌++◌, OnOk};
ghost use Rattle.mv_ir.specs.Trees.{depth};
ghost use Rattle.mv_select_code.specs.Trees.TreeCode.{seats_at, pinned_in, number_by, temps_of, own_register, tree_into, tree_lines, operand_lines, operand_register};

use crate::trees::immediates::{immediate_of, push_immediate};
use crate::trees::leaves::{place_of, push_load, push_number, read_temp};
use crate::trees::lines::push_one;
use crate::trees::operators::{keeps_words, push_binary, push_narrow, push_unary};
use crate::trees::places::{Places, pinned};
use mv_ir::tree::Tree;
use mv_isa::Instr;
use mv_isa::labelled::Line;
use mv_num::list::List;
use std::alloc::AllocError;

/// The register in which a tree's value stands already.
#[tactic(auto, using(crate::proofs::OfTrees::Equations::trees))]
pub(crate) fn own_register(places: Places<'_>, tree: &Tree) -> Option<u8>
    ensures { result ≡ own_register (seats_at places.entry.rooms.now places.entry.keeping places.entry.pins.now) tree.now }
{
    match tree {
        Tree::Number(n) => {
            if *n == 0 {
                Some(0)
            } else {
                pinned(places.pins, *n)
            }
        }
        Tree::Temp(t) => places.keeping.register(*t),
        Tree::Narrow(kind, a) => {
            if keeps_words(*kind) {
                own_register(places, a.get())
            } else {
                None
            }
        }
        Tree::Global(_) | Tree::Function(_) | Tree::Unary(_, _) | Tree::Binary(_, _, _) => None,
    }
}

// Puts code at the end that leaves a number in a register, out of its own if it has one.
fn push_pinned(code: &mut List<Line>, places: Places<'_>, n: u32, rd: u8) -> Result<(), AllocError>
    ensures { OnOk result (code.new ≡ code.old ++ number_by (pinned_in places.entry.pins.now n) n rd) }
{
    match pinned(places.pins, n) {
        Some(rs1) => push_one(code, Instr::Addi { rd, rs1, imm: 0 }),
        None => push_number(code, n, rd),
    }
}

/// The register in which an operand stands behind the code of `push_operand` for a register: its own one, if it has one.
#[tactic(auto, unfolding(crate::specs::Trees::TreeCode::operand_register))]
pub fn operand_register(places: Places<'_>, tree: &Tree, register: u8) -> u8
    ensures { result ≡ operand_register (seats_at places.entry.rooms.now places.entry.keeping places.entry.pins.now) tree.now register }
{
    own_register(places, tree).unwrap_or(register)
}

/// Puts code at the end that makes an operand ready: none where its value stands in a register already, else that of
/// `push_tree`.
#[cycle(into)]
#[tactic(auto, unfolding(crate::specs::Trees::TreeCode::operand_lines, crate::specs::Trees::TreeCode::tree_lines))]
pub fn push_operand(
    code: &mut List<Line>,
    places: Places<'_>,
    tree: &Tree,
    register: u8,
) -> Result<(), AllocError>
    requires registers { register + depth tree.now ≤ 32 }
    requires temps { temps_of tree.now ≤ 507 }
    ensures { OnOk result (code.new ≡ code.old ++ operand_lines (seats_at places.entry.rooms.now places.entry.keeping places.entry.pins.now)
        tree.now register) }
{
    match own_register(places, tree) {
        Some(_) => Ok(()),
        None => push_into(code, places, tree, register, register),
    }
}

/// Puts code at the end that leaves a tree's value in the register `rd`, by way of a register and those behind it, as many as
/// the tree is deep.
#[cycle(into)]
#[tactic(auto, using(crate::proofs::OfTrees::Equations::trees))]
pub fn push_into(
    code: &mut List<Line>,
    places: Places<'_>,
    tree: &Tree,
    rd: u8,
    register: u8,
) -> Result<(), AllocError>
    requires registers { register + depth tree.now ≤ 32 }
    requires temps { temps_of tree.now ≤ 507 }
    ensures { OnOk result (code.new ≡ code.old ++ tree_into (seats_at places.entry.rooms.now places.entry.keeping places.entry.pins.now) tree.now rd register) }
{
    // An arm for each form of tree.
    match tree {
        Tree::Number(n) => push_pinned(code, places, *n, rd),
        Tree::Temp(t) => push_one(code, read_temp(places, *t, rd)),
        Tree::Global(g) => push_load(code, place_of(places.rooms, *g), rd),
        Tree::Function(f) => {
            code.push(Line::Entry(rd, *f))?;
            Ok(())
        }
        Tree::Unary(operator, a) => {
            push_operand(code, places, a.get(), register)?;
            push_unary(
                code,
                *operator,
                rd,
                operand_register(places, a.get(), register),
            )
        }
        Tree::Binary(operator, a, b) => {
            push_operand(code, places, a.get(), register)?;
            let left = operand_register(places, a.get(), register);
            match immediate_of(*operator, b.get()) {
                Some(imm) => push_immediate(code, *operator, rd, left, imm),
                None => {
                    push_operand(code, places, b.get(), register + 1)?;
                    push_binary(
                        code,
                        *operator,
                        rd,
                        left,
                        operand_register(places, b.get(), register + 1),
                    )
                }
            }
        }
        Tree::Narrow(kind, a) => {
            if keeps_words(*kind) {
                push_into(code, places, a.get(), rd, register)
            } else {
                push_operand(code, places, a.get(), register)?;
                push_narrow(code, *kind, rd, operand_register(places, a.get(), register))
            }
        }
    }
}

/// Puts code at the end that leaves a tree's value in a register. It uses the registers from there on, as many as the tree is
/// deep. What this code does is said by `tree_code_law`.
#[tactic(auto, unfolding(crate::specs::Trees::TreeCode::tree_lines))]
pub fn push_tree(
    code: &mut List<Line>,
    places: Places<'_>,
    tree: &Tree,
    register: u8,
) -> Result<(), AllocError>
    requires registers { register + depth tree.now ≤ 32 }
    requires temps { temps_of tree.now ≤ 507 }
    ensures { OnOk result (code.new ≡ code.old ++ tree_lines (seats_at places.entry.rooms.now places.entry.keeping places.entry.pins.now) tree.now register) }
{
    push_into(code, places, tree, register, register)
}
