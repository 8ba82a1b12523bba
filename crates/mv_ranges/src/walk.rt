//! The walk over code in the order in which it runs.
ghost use Rattle.std.specs.Prelude.{ℕ, ◌≡◌, ◌<◌, ◌⊎◌, List, [], ◌∷◌, ◌++◌, true, cond, length, ltb, slice_index, IfOk, OnOk};
ghost use Rattle.mv_ir.specs.Outcome.{State};
ghost use Rattle.mv_ir.specs.World.{World};
ghost use Rattle.mv_ir.specs.Trees.{value};
ghost use Rattle.mv_ir.specs.Meaning.{elements, outside, unpromised};
ghost use Rattle.mv_ir.specs.Meaning.{put, with_temp, with_world};
ghost use Rattle.mv_ir.specs.declared.stm.Stm.{Stm};
ghost use Rattle.mv_ranges.specs.declared.facts.Fact.{Fact};
ghost use Rattle.mv_ranges.specs.declared.around.Claim.{Claim};
ghost use Rattle.mv_ranges.specs.declared.walk.Reach.TheVariants.{Knowing};
ghost use Rattle.mv_ranges.specs.Ranges.{IsWithin};
ghost use Rattle.mv_ranges.specs.Facts.{AllHold, AreKnown};
ghost use Rattle.mv_ranges.specs.Following.{OnReach, IsKept, IsMarked, AreMarked, IsMarkedNext, AreSides, enclosing};

use crate::around::{Around, Claim};
use crate::claims::{claim_of_block, claim_of_loop};
use crate::facts::{Fact, is_below, joined, refuted, with, without, without_arrays};
use crate::range::Range;
use crate::trees::{assumed, range_of, range_of_division};
use mv_ast::program::Known;
use mv_fold::copies::{copy_callee, copy_tree, copy_trees};
use mv_ir::body::Room;
use mv_ir::stm::{Array, Callee, Stm};
use mv_ir::tree::Tree;
use mv_num::list::List;
use std::alloc::{AllocError, Global};

/// How often a loop or a block is walked with fewer claims each time, before it is with none.
const ATTEMPTS: u32 = 12;

/// What is known where control comes.
#[derive(Debug, Drop)]
pub enum Reach {
    /// It never comes there.
    Never,
    /// Some facts.
    Knowing(List<Fact>),
}

/// A place of a loop or a block of which something is claimed.
#[derive(Clone, Copy, PartialEq, Eq)]
pub enum Place {
    /// Where a turn starts.
    Start,
    /// Where control goes on behind it.
    Exit,
}

/// Why a walk ended early.
#[derive(Drop)]
pub enum Stop {
    Memory(AllocError),
    /// What is claimed at a place of the n-th enclosing loop or block doesn't hold of a temporary.
    Refuted(Place, u32, u32),
}

impl From<AllocError> for Stop {
    fn from(error: AllocError) -> Stop {
        Stop::Memory(error)
    }
}

/// What a body has.
#[derive(Clone, Copy)]
pub struct Ground<'a> {
    pub temps: u32,
    pub rooms: &'a [Room],
    pub arrays: &'a [u32],
}

// How many elements an array has, and 0 where that isn't said.
fn length_of(ground: Ground<'_>, array: Array) -> u32 {
    match array {
        Array::Global(global) => words_of(ground.rooms, global),
        Array::Local(local) => match ground.arrays.get(local as usize) {
            Some(size) => *size,
            None => 0,
        },
        _ => 0,
    }
}

fn words_of(rooms: &[Room], global: u32) -> u32 {
    for room in rooms {
        if room.global == global {
            return room.size;
        }
    }
    0
}

// An array with the promise that an index is below a number.
fn sure(array: Array, below: u32) -> Array
    ensures same { unpromised result ≡ unpromised array }
    ensures outside { (k : ℕ) (w : World) → k < below → outside result k w ≡ outside array k w }
{
    match array {
        Array::Global(global) => Array::SureGlobal(global, below),
        Array::Local(local) => Array::SureLocal(local, below),
        promised => promised,
    }
}

// The array of an access, with a promise where its index is known to be below the length.
fn promised(ground: Ground<'_>, facts: &[Fact], array: Array, index: &Tree) -> Array
    ensures same { unpromised result ≡ unpromised array }
    ensures kept { IsKept facts.now array index.now result }
{
    match index {
        Tree::Number(_) => array,
        Tree::Temp(temp) if is_below(facts, *temp, array) => sure(array, 0),
        _ => match range_of(facts, index) {
            Some(range) if range.high < length_of(ground, array) => sure(array, range.high + 1),
            _ => array,
        },
    }
}

// What is known behind an access, whose index is below the length.
fn accessed(facts: List<Fact>, array: Array, index: &Tree) -> Result<List<Fact>, AllocError>
    ensures { IfOk result (λ after. (numbers : List ℕ) (bound : List (ℕ × ℕ)) (s : State) → AllHold s facts →
        value numbers bound index.now s.temps s.world.globals < length (elements array s) → AllHold s after) }
{
    match index {
        Tree::Temp(temp) if !is_below(facts.as_slice(), *temp, array) => with(
            facts,
            Fact::Below(*temp, array),
        ),
        _ => Ok(facts),
    }
}

// What is known where a value is put into a temporary.
fn written(
    alloc: Global,
    ground: Ground<'_>,
    facts: &[Fact],
    temp: u32,
    range: Option<Range>,
) -> Result<List<Fact>, AllocError>
    ensures { IfOk result (λ after. (s : State) (v : ℕ) → AreKnown ground.entry.temps facts.now s → IsWithin range v → AllHold (with_temp s temp v) after) }
{
    let kept = without(alloc, facts, temp)?;
    match range {
        Some(range) if temp < ground.temps => with(kept, Fact::Within(temp, range)),
        _ => Ok(kept),
    }
}

// What is known behind a call, whose result goes into a temporary, if into any.
fn called(alloc: Global, facts: &[Fact], target: Option<u32>) -> Result<List<Fact>, AllocError>
    ensures { IfOk result (λ after. (s : State) (w : World) (v : ℕ) → AllHold s facts.now → AllHold (put target v (with_world s w)) after) }
{
    let kept = without_arrays(alloc, facts)?;
    match target {
        Some(temp) => without(alloc, kept.as_slice(), temp),
        None => Ok(kept),
    }
}

// What is known where what another temporary holds is put into a temporary: it is below the lengths that the other is below.
fn bounded(
    ground: Ground<'_>,
    facts: &[Fact],
    mut after: List<Fact>,
    temp: u32,
    from: u32,
) -> Result<List<Fact>, AllocError>
    ensures { IfOk result (λ more. (s : State) → AreKnown ground.entry.temps facts.now s →
        AllHold (with_temp s temp (slice_index s.temps from)) after → AllHold (with_temp s temp (slice_index s.temps from)) more) }
{
    if temp < ground.temps {
        for fact in facts {
            match fact {
                Fact::Below(other, array) if *other == from => {
                    after = with(after, Fact::Below(temp, *array))?;
                }
                _ => {}
            }
        }
    }
    Ok(after)
}

// What is known where a tree's value is put into a temporary.
#[tactic(auto, using(crate::proofs::Values::values))]
fn behind_set(
    alloc: Global,
    ground: Ground<'_>,
    facts: &[Fact],
    temp: u32,
    tree: &Tree,
) -> Result<List<Fact>, AllocError>
    ensures { IfOk result (λ after. (numbers : List ℕ) (bound : List (ℕ × ℕ)) (s : State) → AreKnown ground.entry.temps facts.now s →
        AllHold (with_temp s temp (value numbers bound tree.now s.temps s.world.globals)) after) }
{
    let after = written(alloc, ground, facts, temp, range_of(facts, tree))?;
    match tree {
        Tree::Temp(from) => bounded(ground, facts, after, temp, *from),
        _ => Ok(after),
    }
}

// ---- statements that go on

#[tactic(auto, using(crate::proofs::Marks::set_marked))]
fn walk_set(
    alloc: Global,
    ground: Ground<'_>,
    facts: List<Fact>,
    temp: u32,
    value: &Tree,
) -> Result<(Stm, Reach), AllocError>
    ensures { IfOk result (λ w. (around : List Claim) → IsMarked ground.entry.temps around facts (Stm.Set temp value.now) w.0 w.1) }
{
    let after = behind_set(alloc, ground, facts.as_slice(), temp, value)?;
    Ok((
        Stm::Set(temp, copy_tree(alloc, value)?),
        Reach::Knowing(after),
    ))
}

#[tactic(auto, using(crate::proofs::Marks::divide_marked))]
fn walk_divide(
    alloc: Global,
    ground: Ground<'_>,
    facts: List<Fact>,
    temp: u32,
    operator: u8,
    a: &Tree,
    b: &Tree,
) -> Result<(Stm, Reach), AllocError>
    ensures { IfOk result (λ w. (around : List Claim) → IsMarked ground.entry.temps around facts (Stm.Divide temp operator a.now b.now) w.0 w.1) }
{
    let range = range_of_division(facts.as_slice(), operator, a, b);
    let after = written(alloc, ground, facts.as_slice(), temp, range)?;
    let a = copy_tree(alloc, a)?;
    let b = copy_tree(alloc, b)?;
    Ok((Stm::Divide(temp, operator, a, b), Reach::Knowing(after)))
}

#[tactic(auto, using(crate::proofs::Marks::check_marked))]
fn walk_check(
    alloc: Global,
    ground: Ground<'_>,
    facts: List<Fact>,
    array: Array,
    index: &Tree,
) -> Result<(Stm, Reach), AllocError>
    ensures { IfOk result (λ w. (around : List Claim) → IsMarked ground.entry.temps around facts (Stm.Check array index.now) w.0 w.1) }
{
    let sure = promised(ground, facts.as_slice(), array, index);
    let after = accessed(facts, array, index)?;
    Ok((
        Stm::Check(sure, copy_tree(alloc, index)?),
        Reach::Knowing(after),
    ))
}

#[tactic(auto, using(crate::proofs::Marks::read_marked))]
fn walk_read(
    alloc: Global,
    ground: Ground<'_>,
    facts: List<Fact>,
    temp: u32,
    array: Array,
    index: &Tree,
) -> Result<(Stm, Reach), AllocError>
    ensures { IfOk result (λ w. (around : List Claim) → IsMarked ground.entry.temps around facts (Stm.Read temp array index.now) w.0 w.1) }
{
    let sure = promised(ground, facts.as_slice(), array, index);
    let before = accessed(facts, array, index)?;
    let after = written(alloc, ground, before.as_slice(), temp, None)?;
    Ok((
        Stm::Read(temp, sure, copy_tree(alloc, index)?),
        Reach::Knowing(after),
    ))
}

#[tactic(auto, using(crate::proofs::Marks::write_marked))]
fn walk_write(
    alloc: Global,
    ground: Ground<'_>,
    facts: List<Fact>,
    array: Array,
    index: &Tree,
    value: &Tree,
) -> Result<(Stm, Reach), AllocError>
    ensures { IfOk result (λ w. (around : List Claim) → IsMarked ground.entry.temps around facts (Stm.Write array index.now value.now) w.0 w.1) }
{
    let sure = promised(ground, facts.as_slice(), array, index);
    let after = accessed(facts, array, index)?;
    let index = copy_tree(alloc, index)?;
    let value = copy_tree(alloc, value)?;
    Ok((Stm::Write(sure, index, value), Reach::Knowing(after)))
}

#[tactic(auto, using(crate::proofs::Marks::call_marked))]
fn walk_call(
    alloc: Global,
    ground: Ground<'_>,
    facts: List<Fact>,
    target: Option<u32>,
    callee: &Callee,
    args: &List<Tree>,
) -> Result<(Stm, Reach), AllocError>
    ensures { IfOk result (λ w. (around : List Claim) → IsMarked ground.entry.temps around facts (Stm.Call target callee.now args.now) w.0 w.1) }
{
    let after = called(alloc, facts.as_slice(), target)?;
    let callee = copy_callee(alloc, callee)?;
    let args = copy_trees(alloc, args)?;
    Ok((Stm::Call(target, callee, args), Reach::Knowing(after)))
}

#[tactic(auto, using(crate::proofs::Marks::known_marked))]
fn walk_known(
    alloc: Global,
    ground: Ground<'_>,
    facts: List<Fact>,
    target: Option<u32>,
    known: Known,
    args: &List<Tree>,
) -> Result<(Stm, Reach), AllocError>
    ensures { IfOk result (λ w. (around : List Claim) → IsMarked ground.entry.temps around facts (Stm.Known target known args.now) w.0 w.1) }
{
    let after = called(alloc, facts.as_slice(), target)?;
    let args = copy_trees(alloc, args)?;
    Ok((Stm::Known(target, known, args), Reach::Knowing(after)))
}

// ---- jumps

// Goes on where some facts imply what is claimed.
fn checked(facts: &[Fact], claimed: &[Fact], place: Place, level: u32) -> Result<(), Stop>
    ensures { OnOk result ((s : State) → AllHold s facts.now → AllHold s claimed.now) }
{
    match refuted(facts, claimed) {
        Some(temp) => Err(Stop::Refuted(place, level, temp)),
        None => Ok(()),
    }
}

// Goes on where what is claimed is known, or control never comes.
fn checked_reach(reach: &Reach, claimed: &[Fact], place: Place) -> Result<(), Stop>
    ensures { OnOk result ((temps : ℕ) (s : State) → OnReach temps reach.now s → AreKnown temps claimed.now s) }
{
    match reach {
        Reach::Never => Ok(()),
        Reach::Knowing(facts) => checked(facts.as_slice(), claimed, place, 0),
    }
}

#[tactic(auto, using(crate::proofs::Marks::break_marked))]
fn walk_break(
    ground: Ground<'_>,
    around: &Around,
    facts: List<Fact>,
    n: u32,
) -> Result<(Stm, Reach), Stop>
    ensures { IfOk result (λ w. IsMarked ground.entry.temps around.now facts (Stm.Break n) w.0 w.1) }
{
    match around.claim(n) {
        Some(claim) => checked(facts.as_slice(), claim.exit.as_slice(), Place::Exit, n)?,
        None => {}
    }
    Ok((Stm::Break(n), Reach::Never))
}

#[tactic(auto, using(crate::proofs::Marks::back_marked))]
fn walk_back(
    ground: Ground<'_>,
    around: &Around,
    facts: List<Fact>,
    n: u32,
) -> Result<(Stm, Reach), Stop>
    ensures { IfOk result (λ w. IsMarked ground.entry.temps around.now facts (Stm.Back n) w.0 w.1) }
{
    match around.claim(n) {
        Some(claim) => checked(facts.as_slice(), claim.start.as_slice(), Place::Start, n)?,
        None => {}
    }
    Ok((Stm::Back(n), Reach::Never))
}

// ---- statements that have others within them

// What is known behind a choice, given what is behind its sides.
fn joined_reach(alloc: Global, a: Reach, b: Reach) -> Result<Reach, AllocError>
    ensures first { IfOk result (λ both. (temps : ℕ) (s : State) → OnReach temps a s → OnReach temps both s) }
    ensures second { IfOk result (λ both. (temps : ℕ) (s : State) → OnReach temps b s → OnReach temps both s) }
{
    match (a, b) {
        (Reach::Never, b) => Ok(b),
        (a, Reach::Never) => Ok(a),
        (Reach::Knowing(a), Reach::Knowing(b)) => Ok(Reach::Knowing(joined(
            alloc,
            a.as_slice(),
            b.as_slice(),
        )?)),
    }
}

// What is known where a tree is true, and where it is 0.
fn sides(
    alloc: Global,
    facts: List<Fact>,
    test: &Tree,
) -> Result<(List<Fact>, List<Fact>), AllocError>
    ensures { IfOk result (λ both. AreSides facts test.now both.0 both.1) }
{
    let first = assumed(alloc, facts.copied(alloc)?, test, true)?;
    let second = assumed(alloc, facts, test, false)?;
    Ok((first, second))
}

// A choice, given what its sides become, from what is known at their starts.
#[tactic(auto, using(crate::proofs::Codes::if_marked))]
fn chosen(
    alloc: Global,
    test: &Tree,
    then: (List<Stm>, Reach),
    other: (List<Stm>, Reach),
) -> Result<(Stm, Reach), AllocError>
    ensures { IfOk result (λ w. (temps : ℕ) (around : List Claim) (facts first second : List Fact) (a b : List Stm) → AreSides facts test.now first second →
        AreMarked temps around first a then.0 then.1 → AreMarked temps around second b other.0 other.1 →
        IsMarked temps around facts (Stm.If test.now a b) w.0 w.1) }
{
    let (then, behind_then) = then;
    let (other, behind_other) = other;
    let reach = joined_reach(alloc, behind_then, behind_other)?;
    Ok((Stm::If(copy_tree(alloc, test)?, then, other), reach))
}

/// What encloses code.
#[derive(Clone, Copy)]
enum Form {
    Loop,
    Block,
}

// A walk over the statements of a loop or a block of which something is claimed.
#[cycle(walk)]
fn walk_within(
    alloc: Global,
    ground: Ground<'_>,
    around: &mut Around,
    claim: Claim,
    facts: List<Fact>,
    code: &List<Stm>,
) -> Result<(List<Stm>, Reach), Stop>
    ensures around { around.new ≡ around.old }
    ensures marked { IfOk result (λ w. AreMarked ground.entry.temps (claim ∷ around.old) facts code.now w.0 w.1) }
{
    around.enter(claim)?;
    let walked = walk_code(alloc, ground, around, facts, code);
    around.leave();
    walked
}

// A loop, if what is claimed of it holds.
#[cycle(walk)]
#[tactic(auto, using(crate::proofs::Codes::loop_marked))]
fn walk_turns(
    alloc: Global,
    ground: Ground<'_>,
    around: &mut Around,
    facts: &List<Fact>,
    claim: &Claim,
    code: &List<Stm>,
) -> Result<Stm, Stop>
    ensures around { around.new ≡ around.old }
    ensures marked { IfOk result (λ made. IsMarked ground.entry.temps around.old facts.now (Stm.Loop code.now) made (Knowing claim.now.exit)) }
{
    checked(facts.as_slice(), claim.start.as_slice(), Place::Start, 0)?;
    let start = claim.start.copied(alloc)?;
    let (made, reach) = walk_within(alloc, ground, around, claim.copied(alloc)?, start, code)?;
    checked_reach(&reach, claim.start.as_slice(), Place::Start)?;
    Ok(Stm::Loop(made))
}

// A block, if what is claimed of it holds.
#[cycle(walk)]
#[tactic(auto, using(crate::proofs::Codes::block_marked))]
fn walk_once(
    alloc: Global,
    ground: Ground<'_>,
    around: &mut Around,
    facts: &List<Fact>,
    claim: &Claim,
    code: &List<Stm>,
) -> Result<Stm, Stop>
    ensures around { around.new ≡ around.old }
    ensures marked { IfOk result (λ made. IsMarked ground.entry.temps around.old facts.now (Stm.Block code.now) made (Knowing claim.now.exit)) }
{
    let start = facts.copied(alloc)?;
    let (made, reach) = walk_within(alloc, ground, around, claim.copied(alloc)?, start, code)?;
    checked_reach(&reach, claim.exit.as_slice(), Place::Exit)?;
    Ok(Stm::Block(made))
}

#[cycle(walk)]
fn walk_claimed(
    alloc: Global,
    ground: Ground<'_>,
    around: &mut Around,
    form: Form,
    facts: &List<Fact>,
    claim: &Claim,
    code: &List<Stm>,
) -> Result<Stm, Stop>
    ensures around { around.new ≡ around.old }
    ensures marked { IfOk result (λ made. IsMarked ground.entry.temps around.old facts.now (enclosing form code.now) made (Knowing claim.now.exit)) }
{
    match form {
        Form::Loop => walk_turns(alloc, ground, around, facts, claim, code),
        Form::Block => walk_once(alloc, ground, around, facts, claim, code),
    }
}

// What is claimed where that of a temporary doesn't hold; or the walk goes on ending, outside of the loop or block.
fn fewer(alloc: Global, claim: Claim, stop: Stop) -> Result<Claim, Stop> {
    match stop {
        Stop::Refuted(Place::Start, 0, temp) => Ok(claim.weaker_start(alloc, temp)?),
        Stop::Refuted(Place::Exit, 0, temp) => Ok(claim.weaker_exit(alloc, temp)?),
        other => Err(further(other)),
    }
}

fn further(stop: Stop) -> Stop {
    match stop {
        Stop::Refuted(place, level, temp) => Stop::Refuted(place, level.saturating_sub(1), temp),
        Stop::Memory(error) => Stop::Memory(error),
    }
}

// A loop or a block. What is claimed of it is less each time that something of that doesn't hold.
#[cycle(walk)]
fn walk_enclosed(
    alloc: Global,
    ground: Ground<'_>,
    around: &mut Around,
    form: Form,
    facts: List<Fact>,
    code: &List<Stm>,
) -> Result<(Stm, Reach), Stop>
    ensures around { around.new ≡ around.old }
    ensures marked { IfOk result (λ w. IsMarked ground.entry.temps around.old facts (enclosing form code.now) w.0 w.1) }
{
    let mut claim = match form {
        Form::Loop => claim_of_loop(alloc, around.depth(), facts.as_slice(), code)?,
        Form::Block => claim_of_block(alloc, around.depth(), facts.as_slice(), code)?,
    };
    for _ in 0..ATTEMPTS {
        if !around.may_try() {
            break;
        }
        match walk_claimed(alloc, ground, around, form, &facts, &claim, code) {
            Ok(made) => return Ok((made, Reach::Knowing(claim.exit))),
            Err(stop) => claim = fewer(alloc, claim, stop)?,
        }
    }
    let nothing = Claim::nothing(alloc);
    match walk_claimed(alloc, ground, around, form, &facts, &nothing, code) {
        Ok(made) => Ok((made, Reach::Knowing(nothing.exit))),
        Err(stop) => Err(further(stop)),
    }
}

// ---- code

#[cycle(walk)]
#[tactic(auto, using(crate::proofs::Marks::simple))]
fn walk_stm(
    alloc: Global,
    ground: Ground<'_>,
    around: &mut Around,
    facts: List<Fact>,
    stm: &Stm,
) -> Result<(Stm, Reach), Stop>
    ensures around { around.new ≡ around.old }
    ensures marked { IfOk result (λ w. IsMarked ground.entry.temps around.old facts stm.now w.0 w.1) }
{
    match stm {
        Stm::Set(t, v) => Ok(walk_set(alloc, ground, facts, *t, v)?),
        Stm::SetGlobal(g, v) => Ok((
            Stm::SetGlobal(*g, copy_tree(alloc, v)?),
            Reach::Knowing(facts),
        )),
        Stm::Divide(t, o, a, b) => Ok(walk_divide(alloc, ground, facts, *t, *o, a, b)?),
        Stm::Check(a, i) => Ok(walk_check(alloc, ground, facts, *a, i)?),
        Stm::Read(t, a, i) => Ok(walk_read(alloc, ground, facts, *t, *a, i)?),
        Stm::Write(a, i, v) => Ok(walk_write(alloc, ground, facts, *a, i, v)?),
        Stm::Zero(l) => Ok((Stm::Zero(*l), Reach::Knowing(facts))),
        Stm::If(t, a, b) => {
            let (first, second) = sides(alloc, facts, t)?;
            let then = walk_code(alloc, ground, around, first, a)?;
            let other = walk_code(alloc, ground, around, second, b)?;
            Ok(chosen(alloc, t, then, other)?)
        }
        Stm::Loop(b) => walk_enclosed(alloc, ground, around, Form::Loop, facts, b),
        Stm::Block(b) => walk_enclosed(alloc, ground, around, Form::Block, facts, b),
        Stm::Break(n) => walk_break(ground, around, facts, *n),
        Stm::Back(n) => walk_back(ground, around, facts, *n),
        Stm::Call(r, f, args) => Ok(walk_call(alloc, ground, facts, *r, f, args)?),
        Stm::Known(r, k, args) => Ok(walk_known(alloc, ground, facts, *r, *k, args)?),
        Stm::Return(v) => Ok((Stm::Return(copy_tree(alloc, v)?), Reach::Never)),
    }
}

// A statement behind others. Where control never comes behind these, nothing is known.
#[cycle(walk)]
fn walk_next(
    alloc: Global,
    ground: Ground<'_>,
    around: &mut Around,
    reach: Reach,
    stm: &Stm,
) -> Result<(Stm, Reach), Stop>
    ensures around { around.new ≡ around.old }
    ensures marked { IfOk result (λ w. IsMarkedNext ground.entry.temps around.old reach stm.now w.0 w.1) }
{
    match reach {
        Reach::Knowing(facts) => walk_stm(alloc, ground, around, facts, stm),
        Reach::Never => {
            let (made, _) = walk_stm(alloc, ground, around, List::new(alloc), stm)?;
            Ok((made, Reach::Never))
        }
    }
}

// Puts a statement behind others.
fn push(code: &mut List<Stm>, stm: Stm) -> Result<(), AllocError>
    ensures { OnOk result (code.new ≡ code.old ++ stm ∷ []) }
{
    Ok(code.push(stm)?)
}

/// Code with promises, and what is known behind it.
#[cycle(walk)]
pub(crate) fn walk_code(
    alloc: Global,
    ground: Ground<'_>,
    around: &mut Around,
    facts: List<Fact>,
    code: &List<Stm>,
) -> Result<(List<Stm>, Reach), Stop>
    ensures around { around.new ≡ around.old }
    ensures marked { IfOk result (λ w. AreMarked ground.entry.temps around.old facts code.now w.0 w.1) }
{
    let mut made = List::new(alloc);
    let mut reach = Reach::Knowing(facts);
    for stm in code.as_slice() {
        let (next, behind) = walk_next(alloc, ground, around, reach, stm)?;
        push(&mut made, next)?;
        reach = behind;
    }
    Ok((made, reach))
}
