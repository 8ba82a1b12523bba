//! Which numbers code needs in registers, and how many words each place saves where they stand there: a number that is an operand and doesn't stand in the
//! instruction, or with which a branch or an index is compared, all of its words; one that is put into another register all but one. Within each loop
//! a word counts eight times as much as around it.
ghost use Rattle.std.specs.Prelude.{[], ◌≡◌, ◌^◌, ◌<◌, ◌≤◌, ◌++◌, is_some, if◌then◌else◌, slice_index_or, IfOk, OnOk};
ghost use Rattle.mv_ir.specs.Measures.{callee_trees};
ghost use Rattle.mv_select_code.specs.Trees.TreeCode.{immediate, literal, right_of};
ghost use Rattle.mv_select_code.specs.Control.Layouts.{size_in};
ghost use Rattle.mv_select.specs.Functions.Uses.{number_words, saving, needed, moved, is_comparison, operand_uses, test_uses, value_uses};
ghost use Rattle.mv_select.specs.Functions.Uses.{deeper, array_size, is_tested, index_uses, values_uses, stm_uses, code_uses, uses};

use mv_ir::body::{Body, Room};
use mv_ir::operators::{LESS_SIGNED, LOGICAL_NOT, NOT_EQUAL};
use mv_ir::stm::{Array, Callee, Stm};
use mv_ir::tree::Tree;
use mv_num::list::List;
use mv_num::word::sub;
use mv_select_code::trees::{literal, upper_bits};
use std::alloc::{AllocError, Global};

/// What is saved where a number stands in a register, by one place of the code.
#[derive(Clone, Copy)]
pub struct Use {
    pub number: u32,
    pub weight: u32,
}

/// How many words bring a number into a register.
pub(crate) fn number_words(n: u32) -> u32
    ensures count { result ≡ number_words n }
    ensures some { 1 ≤ result }
    ensures few { result ≤ 2 }
{
    if upper_bits(n) == 0 { 1 } else { 2 }
}

fn add_saving(n: u32, weight: u32, uses: &mut List<Use>) -> Result<(), AllocError>
    ensures { OnOk result (uses.new ≡ uses.old ++ saving n weight) }
{
    if n == 0 || weight == 0 {
        Ok(())
    } else {
        Ok(uses.push(Use { number: n, weight })?)
    }
}

// A number as an operand.
fn add_needed(w: u32, n: u32, uses: &mut List<Use>) -> Result<(), AllocError>
    requires { w < 2 ^ 23 }
    ensures { OnOk result (uses.new ≡ uses.old ++ needed w n) }
{
    add_saving(n, w * number_words(n), uses)
}

// A number that is put into another register.
fn add_moved(w: u32, n: u32, uses: &mut List<Use>) -> Result<(), AllocError>
    requires { w < 2 ^ 23 }
    ensures { OnOk result (uses.new ≡ uses.old ++ moved w n) }
{
    add_saving(n, w * (number_words(n) - 1), uses)
}

// Whether a number at the right of an operator stands in the instruction.
#[tactic(auto, using(mv_select_code::proofs::OfTrees::Equations::immediates))]
fn is_immediate(operator: u8, n: u32) -> bool
    ensures { result ≡ is_some (immediate operator n) }
{
    match operator {
        0 => upper_bits(n) == 0,
        1 => upper_bits(sub(0, n)) == 0,
        2 => false,
        3 => upper_bits(n) == 0,
        4 => upper_bits(n) == 0,
        5 => upper_bits(n) == 0,
        6 => n < 32,
        7 => n < 32,
        8 => n < 32,
        9 => upper_bits(n) == 0,
        10 => upper_bits(n) == 0,
        11 => upper_bits(sub(0, n)) == 0,
        12 => upper_bits(sub(0, n)) == 0,
        _ => false,
    }
}

fn stands_in_instruction(operator: u8, right: &Tree) -> bool
    ensures { result ≡ is_some (right_of operator (literal right.now)) }
{
    match literal(right) {
        Some(n) => is_immediate(operator, n),
        None => false,
    }
}

fn is_comparison(operator: u8) -> bool
    ensures { result ≡ is_comparison operator }
{
    LESS_SIGNED <= operator && operator <= NOT_EQUAL
}

// A tree as an operand.
#[tactic(auto, using(crate::proofs::OfFunctions::Uses::operand_rules))]
fn add_operand(w: u32, tree: &Tree, uses: &mut List<Use>) -> Result<(), AllocError>
    requires { w < 2 ^ 23 }
    ensures { OnOk result (uses.new ≡ uses.old ++ operand_uses w tree.now) }
{
    match tree {
        Tree::Number(n) => add_needed(w, *n, uses),
        Tree::Temp(_) => Ok(()),
        Tree::Global(_) => Ok(()),
        Tree::Function(_) => Ok(()),
        Tree::Unary(_, a) => add_operand(w, a.get(), uses),
        Tree::Binary(operator, a, b) => {
            add_operand(w, a.get(), uses)?;
            if stands_in_instruction(*operator, b.get()) {
                Ok(())
            } else {
                add_operand(w, b.get(), uses)
            }
        }
        Tree::Narrow(_, a) => add_operand(w, a.get(), uses),
    }
}

// The right operand of an operator by which no branch compares.
fn add_right(w: u32, operator: u8, tree: &Tree, uses: &mut List<Use>) -> Result<(), AllocError>
    requires { w < 2 ^ 23 }
    ensures { OnOk result (uses.new ≡ uses.old ++ (if is_some (right_of operator (literal tree.now)) then [] else operand_uses w tree.now)) }
{
    if stands_in_instruction(operator, tree) {
        Ok(())
    } else {
        add_operand(w, tree, uses)
    }
}

// A tree by which a branch goes.
#[tactic(auto, using(crate::proofs::OfFunctions::Uses::test_rules))]
fn add_test(w: u32, tree: &Tree, uses: &mut List<Use>) -> Result<(), AllocError>
    requires { w < 2 ^ 23 }
    ensures { OnOk result (uses.new ≡ uses.old ++ test_uses w tree.now) }
{
    match tree {
        Tree::Number(_) => Ok(()),
        Tree::Temp(_) => Ok(()),
        Tree::Global(_) => Ok(()),
        Tree::Function(_) => Ok(()),
        Tree::Unary(operator, a) => if *operator == LOGICAL_NOT {
            add_test(w, a.get(), uses)
        } else {
            add_operand(w, a.get(), uses)
        },
        Tree::Binary(operator, a, b) => {
            add_operand(w, a.get(), uses)?;
            if is_comparison(*operator) {
                add_operand(w, b.get(), uses)
            } else {
                add_right(w, *operator, b.get(), uses)
            }
        }
        Tree::Narrow(_, a) => add_operand(w, a.get(), uses),
    }
}

// A tree that is put into a register.
fn add_value(w: u32, tree: &Tree, uses: &mut List<Use>) -> Result<(), AllocError>
    requires { w < 2 ^ 23 }
    ensures { OnOk result (uses.new ≡ uses.old ++ value_uses w tree.now) }
{
    match literal(tree) {
        Some(n) => add_moved(w, n, uses),
        None => add_operand(w, tree, uses),
    }
}

fn add_values(w: u32, trees: &List<Tree>, uses: &mut List<Use>) -> Result<(), AllocError>
    requires { w < 2 ^ 23 }
    ensures { OnOk result (uses.new ≡ uses.old ++ values_uses w trees.now) }
{
    for tree in trees.as_slice() {
        add_value(w, tree, uses)?;
    }
    Ok(())
}

// What a call through a value needs.
#[tactic(auto, using(crate::proofs::OfFunctions::Uses::callee_rules))]
fn add_callee(w: u32, callee: &Callee, uses: &mut List<Use>) -> Result<(), AllocError>
    requires { w < 2 ^ 23 }
    ensures { OnOk result (uses.new ≡ uses.old ++ values_uses w (callee_trees callee.now)) }
{
    match callee {
        Callee::Direct(_) => Ok(()),
        Callee::Through(tree) => add_value(w, tree, uses),
        Callee::Switched(_) => Ok(()),
        Callee::Expanded => Ok(()),
    }
}

fn words_of(rooms: &[Room], global: u32) -> u32
    ensures { result ≡ size_in rooms.now global }
{
    for room in rooms {
        if room.global == global {
            return room.size;
        }
    }
    0
}

fn size_at(sizes: &[u32], index: u32) -> u32
    ensures { result ≡ slice_index_or sizes.now index 0 }
{
    match sizes.get(index as usize) {
        Some(size) => *size,
        None => 0,
    }
}

// How many elements an array has, and 0 where there is none.
fn array_size(body: &Body, array: Array) -> u32
    ensures { result ≡ array_size body.now array }
{
    match array {
        Array::Global(global) | Array::SureGlobal(global, _) => {
            words_of(body.rooms.as_slice(), global)
        }
        Array::Local(local) | Array::SureLocal(local, _) => size_at(body.arrays.as_slice(), local),
    }
}

// Whether an index is tested: not one that is promised to be below a number up to that of the elements.
fn is_tested(body: &Body, array: Array) -> bool
    ensures { result ≡ is_tested body.now array }
{
    match array {
        Array::Global(_) | Array::Local(_) => true,
        Array::SureGlobal(_, n) | Array::SureLocal(_, n) => n > array_size(body, array),
    }
}

// An index, and the size with which it is compared where it is tested.
fn add_index(
    body: &Body,
    w: u32,
    array: Array,
    index: &Tree,
    uses: &mut List<Use>,
) -> Result<(), AllocError>
    requires { w < 2 ^ 23 }
    ensures { OnOk result (uses.new ≡ uses.old ++ index_uses body.now w array index.now) }
{
    match literal(index) {
        Some(_) => Ok(()),
        None => {
            add_operand(w, index, uses)?;
            if is_tested(body, array) {
                add_needed(w, array_size(body, array), uses)
            } else {
                Ok(())
            }
        }
    }
}

// The worth of a word within a loop.
fn deeper(w: u32) -> u32
    requires { w < 2 ^ 23 }
    ensures value { result ≡ deeper w }
    ensures few { result < 2 ^ 23 }
{
    if w < 1_048_576 { 8 * w } else { w }
}

#[cycle(uses)]
fn add_code(body: &Body, w: u32, code: &List<Stm>, uses: &mut List<Use>) -> Result<(), AllocError>
    requires { w < 2 ^ 23 }
    ensures { OnOk result (uses.new ≡ uses.old ++ code_uses body.now w code.now) }
{
    for stm in code.as_slice() {
        add_stm(body, w, stm, uses)?;
    }
    Ok(())
}

#[cycle(uses)]
#[tactic(auto, using(crate::proofs::OfFunctions::Uses::stm_rules))]
fn add_stm(body: &Body, w: u32, stm: &Stm, uses: &mut List<Use>) -> Result<(), AllocError>
    requires { w < 2 ^ 23 }
    ensures { OnOk result (uses.new ≡ uses.old ++ stm_uses body.now stm.now w) }
{
    match stm {
        Stm::Set(_, v) => add_value(w, v, uses),
        Stm::SetGlobal(_, v) => add_operand(w, v, uses),
        Stm::Divide(_, _, a, b) => {
            add_operand(w, a, uses)?;
            add_operand(w, b, uses)
        }
        Stm::Check(a, i) => add_index(body, w, *a, i, uses),
        Stm::Read(_, a, i) => add_index(body, w, *a, i, uses),
        Stm::Write(a, i, v) => {
            add_index(body, w, *a, i, uses)?;
            add_operand(w, v, uses)
        }
        Stm::Zero(_) => Ok(()),
        Stm::If(t, a, b) => {
            add_test(w, t, uses)?;
            add_code(body, w, a, uses)?;
            add_code(body, w, b, uses)
        }
        Stm::Loop(b) => add_code(body, deeper(w), b, uses),
        Stm::Block(b) => add_code(body, w, b, uses),
        Stm::Break(_) => Ok(()),
        Stm::Back(_) => Ok(()),
        Stm::Call(_, f, args) => {
            add_callee(w, f, uses)?;
            add_values(w, args, uses)
        }
        Stm::Known(_, _, args) => add_values(w, args, uses),
        Stm::Return(v) => add_value(w, v, uses),
    }
}

/// The numbers that a body needs in registers, in the order of its code.
pub(crate) fn uses(alloc: Global, body: &Body) -> Result<List<Use>, AllocError>
    ensures { IfOk result (λ all. all ≡ uses body.now) }
{
    let mut all = List::new(alloc);
    add_code(body, 1, &body.code, &mut all)?;
    Ok(all)
}
