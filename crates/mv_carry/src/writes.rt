// Which temporaries code writes.
ghost use Rattle.std.specs.Prelude.{◌≡◌, map, IfOk, OnOk};
ghost use Rattle.mv_ast.specs.Names.{any_of};
ghost use Rattle.mv_carry.specs.Facts.{without, number_of};
ghost use Rattle.mv_carry.specs.Carrying.{writes, unwritten, unwritten_by, without_result};

use crate::facts::{Fact, number_in, without};
use mv_ir::stm::Stm;
use mv_num::list::List;
use std::alloc::{AllocError, Global};

#[tactic(auto, using(crate::proofs::Writing::without_unknown))]
fn forget(alloc: Global, temp: u32, facts: &mut List<Fact>) -> Result<(), AllocError>
    ensures { OnOk result (facts.new ≡ without temp facts.old) }
{
    match number_in(facts.as_slice(), temp) {
        Some(_) => {
            *facts = without(alloc, facts.as_slice(), temp)?;
            Ok(())
        }
        None => Ok(()),
    }
}

fn forget_result(
    alloc: Global,
    target: Option<u32>,
    facts: &mut List<Fact>,
) -> Result<(), AllocError>
    ensures { OnOk result (facts.new ≡ without_result target facts.old) }
{
    match target {
        Some(temp) => forget(alloc, temp, facts),
        None => Ok(()),
    }
}

// Leaves what is known of temporaries that none of some statements writes.
#[cycle(writes)]
fn forget_all(alloc: Global, code: &List<Stm>, facts: &mut List<Fact>) -> Result<(), AllocError>
    ensures { OnOk result (facts.new ≡ unwritten (λ t. any_of (map (writes t) code.now)) facts.old) }
{
    for stm in code.as_slice() {
        forget_written(alloc, stm, facts)?;
    }
    Ok(())
}

// The same of a statement.
#[cycle(writes)]
#[tactic(auto, using(crate::proofs::Writing::unwritings))]
fn forget_written(alloc: Global, stm: &Stm, facts: &mut List<Fact>) -> Result<(), AllocError>
    ensures { OnOk result (facts.new ≡ unwritten_by stm.now facts.old) }
{
    match stm {
        Stm::Set(t, _) => forget(alloc, *t, facts),
        Stm::SetGlobal(_, _) => Ok(()),
        Stm::Divide(t, _, _, _) => forget(alloc, *t, facts),
        Stm::Check(_, _) => Ok(()),
        Stm::Read(t, _, _) => forget(alloc, *t, facts),
        Stm::Write(_, _, _) => Ok(()),
        Stm::Zero(_) => Ok(()),
        Stm::If(_, a, b) => {
            forget_all(alloc, a, facts)?;
            forget_all(alloc, b, facts)
        }
        Stm::Loop(b) => forget_all(alloc, b, facts),
        Stm::Block(b) => forget_all(alloc, b, facts),
        Stm::Break(_) => Ok(()),
        Stm::Back(_) => Ok(()),
        Stm::Call(r, _, _) => forget_result(alloc, *r, facts),
        Stm::Known(r, _, _) => forget_result(alloc, *r, facts),
        Stm::Return(_) => Ok(()),
    }
}

/// What is known of temporaries that some code doesn't write, found by one walk over it.
pub fn unwritten(
    alloc: Global,
    facts: &List<Fact>,
    code: &List<Stm>,
) -> Result<List<Fact>, AllocError>
    ensures { IfOk result (λ fs. fs ≡ unwritten (λ t. any_of (map (writes t) code.now)) facts.now) }
{
    let mut kept = facts.copied(alloc)?;
    forget_all(alloc, code, &mut kept)?;
    Ok(kept)
}
