// The rules of a whole unit, and its limits.

ghost use Rattle.mv_check_expressions.specs.Judged.{Good};
ghost use Rattle.mv_types.specs.Checked.{IsChecked};
ghost use Rattle.mv_types.specs.Completed.{completed_program};
ghost use Rattle.mv_types.specs.Units.{unit_judgement};

use crate::contents::Completed;
use crate::counts::counts_of;
use crate::error::TypeError;
use crate::program::program_of;
use crate::units::judge;
use mv_ast::program::Program;
use mv_check_expressions::error::RuleError;
use mv_check_limits::limits::{exceeded, exceeded_by_counts};
use mv_syntax::unit::Unit;
use std::alloc::{AllocError, Global};

fn within_limits(unit: &Unit, program: Program) -> Result<Program, TypeError>
    ensures { IsChecked unit.now (Good program) result }
{
    match exceeded(unit, &program) {
        None => Ok(program),
        Some(excess) => Err(TypeError::Limit(excess.limit, excess.count)),
    }
}

#[tactic(auto, using(crate::proofs::Answers::same_answer))]
fn made(alloc: Global, unit: &Unit, completed: Completed) -> Result<Program, TypeError>
    ensures { IsChecked unit.now (Good (completed_program completed)) result }
{
    let Completed {
        contents,
        pointers,
        main,
    } = completed;
    match program_of(alloc, contents, pointers, main) {
        Ok(program) => within_limits(unit, program),
        Err(error) => Err(TypeError::Memory(error)),
    }
}

// The limits that counts decide are tested before the program is made: behind them it has few functions and switches.
fn limited(alloc: Global, unit: &Unit, completed: Completed) -> Result<Program, TypeError>
    ensures { IsChecked unit.now (Good (completed_program completed)) result }
{
    match exceeded_by_counts(&counts_of(unit, &completed)) {
        None => made(alloc, unit, completed),
        Some(excess) => {
            drop(completed);
            Err(TypeError::Limit(excess.limit, excess.count))
        }
    }
}

/// The program of a unit: conversions written out, constants evaluated, names numbered. `Rule` comes where a rule is broken, `Limit`
/// where none is and the program exceeds a limit, and `Memory` for want of memory.
#[tactic(auto, using(crate::proofs::Answers::answers))]
pub fn check(alloc: Global, unit: &Unit) -> Result<Program, TypeError>
    ensures { IsChecked unit.now (unit_judgement unit.now) result }
{
    match judge(alloc, unit) {
        Ok(completed) => limited(alloc, unit, completed),
        Err(RuleError::Rule(place, rule)) => Err(TypeError::Rule(place, rule)),
        Err(RuleError::Memory) => Err(TypeError::Memory(AllocError)),
    }
}
