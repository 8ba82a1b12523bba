//! The walk over code, in the order in which it runs.
ghost use Rattle.std.specs.Prelude.{◌≡◌, ◌<◌, true, false, Contains, IfOk, IfSome};
ghost use Rattle.mv_ir.specs.Rolled as rolled;
ghost use Rattle.mv_ir.specs.declared.tree.Tree.{Tree};
ghost use Rattle.mv_propagate.specs.Facts.{tree_of, leaf_is, IsLow};
ghost use Rattle.mv_propagate.specs.Propagating.{fact, Reads, Propagated, PropagatedIn};
ghost use Rattle.mv_propagate.specs.declared.facts.Held.TheVariants.{Element};

use crate::facts::{Fact, Held, Leaf, element_in, learned, shared, uncalled, unstored, unwritten};
use crate::trees::{leaf_of, read_callee, read_tree, read_trees, tree_of};
use mv_ir::stm::{Array, Stm};
use mv_ir::tree::Tree;
use mv_num::list::List;
use std::alloc::{AllocError, Global};

/// What code has become, and what is known behind it.
#[derive(Drop)]
pub struct Walk {
    pub code: List<Stm>,
    pub facts: List<Fact>,
}

/// What a statement has become, and what is known behind it.
#[derive(Drop)]
pub struct Next {
    pub stm: Stm,
    pub facts: List<Fact>,
}

// Whether a temporary may be known to go by a leaf.
fn is_low(temps: u32, temp: u32, leaf: Leaf) -> bool
    ensures { result ≡ true → (temp < temps) × (IsLow temps leaf × (leaf_is temp leaf ≡ false)) }
{
    if temp >= temps {
        return false;
    }
    match leaf {
        Leaf::Number(_) => true,
        Leaf::Temp(u) => u < temps && u != temp,
    }
}

// Whether what a temporary gets is to be read in its place: a number, or what one before it holds, so that results go on standing where they belong.
fn is_source(temp: u32, leaf: Leaf) -> bool {
    match leaf {
        Leaf::Number(_) => true,
        Leaf::Temp(u) => u < temp,
    }
}

// A value into a temporary.
fn set(
    alloc: Global,
    temps: u32,
    facts: &[Fact],
    temp: u32,
    value: &Tree,
) -> Result<Next, AllocError>
    ensures { IfOk result (λ next. PropagatedIn temps facts.now (rolled.set temp value.now) next.stm next.facts) }
{
    let value = read_tree(alloc, facts, value)?;
    if let Some(leaf) = leaf_of(&value) {
        if is_low(temps, temp, leaf) && is_source(temp, leaf) {
            return Ok(Next {
                stm: Stm::Set(temp, tree_of(leaf)),
                facts: learned(alloc, facts, temp, Held::Value(leaf))?,
            });
        }
    }
    Ok(Next {
        stm: Stm::Set(temp, value),
        facts: unwritten(alloc, facts, temp)?,
    })
}

// An element that stands in a temporary already.
fn moved(
    alloc: Global,
    temps: u32,
    facts: &List<Fact>,
    temp: u32,
    from: u32,
) -> Result<Option<Next>, AllocError>
    ensures { IfOk result (λ made. IfSome made (λ next. (r : Array) (i : Tree) (l : Leaf) → Reads facts.now i (tree_of l) → Contains facts.now (fact from (Element r l)) →
        PropagatedIn temps facts.now (rolled.read temp r i) next.stm next.facts)) }
{
    if temp >= temps || from >= temps {
        return Ok(None);
    }
    let facts = if from == temp {
        facts.copied(alloc)?
    } else {
        learned(alloc, facts.as_slice(), temp, Held::Value(Leaf::Temp(from)))?
    };
    Ok(Some(Next {
        stm: Stm::Set(temp, Tree::Temp(from)),
        facts,
    }))
}

// An element that is read, at an index that is a number or what a temporary holds.
fn kept(
    alloc: Global,
    temps: u32,
    facts: &[Fact],
    temp: u32,
    array: Array,
    index: Leaf,
) -> Result<Next, AllocError>
    ensures { IfOk result (λ next. (i : Tree) → Reads facts.now i (tree_of index) → PropagatedIn temps facts.now (rolled.read temp array i) next.stm next.facts) }
{
    let facts = if is_low(temps, temp, index) {
        learned(alloc, facts, temp, Held::Element(array, index))?
    } else {
        unwritten(alloc, facts, temp)?
    };
    Ok(Next {
        stm: Stm::Read(temp, array, tree_of(index)),
        facts,
    })
}

fn read_at(
    alloc: Global,
    temps: u32,
    facts: &List<Fact>,
    temp: u32,
    array: Array,
    index: Leaf,
) -> Result<Next, AllocError>
    ensures { IfOk result (λ next. (i : Tree) → Reads facts.now i (tree_of index) → PropagatedIn temps facts.now (rolled.read temp array i) next.stm next.facts) }
{
    if let Some(from) = element_in(facts.as_slice(), array, index) {
        if let Some(next) = moved(alloc, temps, facts, temp, from)? {
            return Ok(next);
        }
    }
    kept(alloc, temps, facts.as_slice(), temp, array, index)
}

// An element into a temporary.
fn read(
    alloc: Global,
    temps: u32,
    facts: &List<Fact>,
    temp: u32,
    array: Array,
    index: &Tree,
) -> Result<Next, AllocError>
    ensures { IfOk result (λ next. PropagatedIn temps facts.now (rolled.read temp array index.now) next.stm next.facts) }
{
    let index = read_tree(alloc, facts.as_slice(), index)?;
    if let Some(leaf) = leaf_of(&index) {
        return read_at(alloc, temps, facts, temp, array, leaf);
    }
    Ok(Next {
        stm: Stm::Read(temp, array, index),
        facts: unwritten(alloc, facts.as_slice(), temp)?,
    })
}

/// What code becomes, from what is known before it to what is known behind it.
#[cycle(propagate)]
pub fn propagate_code(
    alloc: Global,
    temps: u32,
    facts: &List<Fact>,
    code: &List<Stm>,
) -> Result<Walk, AllocError>
    ensures { IfOk result (λ walk. Propagated temps facts.now code.now walk.code walk.facts) }
{
    let mut made = List::new(alloc);
    let mut known = facts.copied(alloc)?;
    for stm in code.as_slice() {
        let next = propagate_stm(alloc, temps, &known, stm)?;
        made.push(next.stm)?;
        known = next.facts;
    }
    Ok(Walk {
        code: made,
        facts: known,
    })
}

// What a statement becomes: an arm for each.
#[cycle(propagate)]
fn propagate_stm(
    alloc: Global,
    temps: u32,
    facts: &List<Fact>,
    stm: &Stm,
) -> Result<Next, AllocError>
    ensures { IfOk result (λ next. PropagatedIn temps facts.now stm.now next.stm next.facts) }
{
    let known = facts.as_slice();
    match stm {
        Stm::Set(t, v) => set(alloc, temps, known, *t, v),
        Stm::SetGlobal(g, v) => Ok(Next {
            stm: Stm::SetGlobal(*g, read_tree(alloc, known, v)?),
            facts: unstored(alloc, known, Array::Global(*g))?,
        }),
        Stm::Divide(t, o, a, b) => {
            let a = read_tree(alloc, known, a)?;
            let b = read_tree(alloc, known, b)?;
            Ok(Next {
                stm: Stm::Divide(*t, *o, a, b),
                facts: unwritten(alloc, known, *t)?,
            })
        }
        Stm::Check(a, i) => Ok(Next {
            stm: Stm::Check(*a, read_tree(alloc, known, i)?),
            facts: facts.copied(alloc)?,
        }),
        Stm::Read(t, a, i) => read(alloc, temps, facts, *t, *a, i),
        Stm::Write(a, i, v) => {
            let i = read_tree(alloc, known, i)?;
            let v = read_tree(alloc, known, v)?;
            Ok(Next {
                stm: Stm::Write(*a, i, v),
                facts: unstored(alloc, known, *a)?,
            })
        }
        Stm::Zero(l) => Ok(Next {
            stm: Stm::Zero(*l),
            facts: unstored(alloc, known, Array::Local(*l))?,
        }),
        Stm::If(t, a, b) => {
            let t = read_tree(alloc, known, t)?;
            let a = propagate_code(alloc, temps, facts, a)?;
            let b = propagate_code(alloc, temps, facts, b)?;
            let behind = shared(alloc, a.facts.as_slice(), b.facts.as_slice())?;
            Ok(Next {
                stm: Stm::If(t, a.code, b.code),
                facts: behind,
            })
        }
        Stm::Loop(b) => {
            let none = List::new(alloc);
            let turn = propagate_code(alloc, temps, &none, b)?;
            Ok(Next {
                stm: Stm::Loop(turn.code),
                facts: none,
            })
        }
        Stm::Block(b) => {
            let inner = propagate_code(alloc, temps, facts, b)?;
            Ok(Next {
                stm: Stm::Block(inner.code),
                facts: List::new(alloc),
            })
        }
        Stm::Break(n) => Ok(Next {
            stm: Stm::Break(*n),
            facts: facts.copied(alloc)?,
        }),
        Stm::Back(n) => Ok(Next {
            stm: Stm::Back(*n),
            facts: facts.copied(alloc)?,
        }),
        Stm::Call(r, f, args) => {
            let f = read_callee(alloc, known, f)?;
            let args = read_trees(alloc, known, args)?;
            Ok(Next {
                stm: Stm::Call(*r, f, args),
                facts: uncalled(alloc, known, *r)?,
            })
        }
        Stm::Known(r, k, args) => {
            let args = read_trees(alloc, known, args)?;
            Ok(Next {
                stm: Stm::Known(*r, *k, args),
                facts: uncalled(alloc, known, *r)?,
            })
        }
        Stm::Return(v) => Ok(Next {
            stm: Stm::Return(read_tree(alloc, known, v)?),
            facts: facts.copied(alloc)?,
        }),
    }
}
