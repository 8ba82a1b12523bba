// The switches that a function names.
ghost use Rattle.std.specs.Prelude.{◌≡◌, IfOk};
ghost use Rattle.mv_check_uses.specs.Uses.{numbers_from, switches_named};
ghost use Rattle.mv_ast.specs.Flags.{is_set};

use crate::flags::{is_set, no_flags};
use crate::marks::mark_stmts;
use mv_ast::program::{Stmt, Switch};
use mv_num::list::List;
use smallvec::SmallVec;
use std::alloc::{AllocError, Global};

// An index as a number of 32 bits, which more items than have one don't find room for either.
fn number_of(index: usize) -> Result<u32, AllocError>
    ensures { IfOk result (λ number. number ≡ index) }
{
    match u32::try_from(index) {
        Ok(number) => Ok(number),
        Err(_) => Err(AllocError),
    }
}

// The numbers of those of some switches whose globals are flagged. The 6 that a function may name need no memory of their own while they are gathered.
#[tactic(auto, using(crate::proofs::Numbers::pushes))]
fn flagged_numbers(
    alloc: Global,
    switches: &List<Switch>,
    flags: &Vec<bool>,
) -> Result<List<u32>, AllocError>
    ensures { IfOk result (λ numbers. numbers ≡ numbers_from (is_set flags.now.items) 0 switches.now) }
{
    let mut numbers: SmallVec<u32, 6> = SmallVec::new(alloc);
    for (index, switch) in switches.as_slice().iter().enumerate() {
        if is_set(flags, switch.global) {
            numbers.push(number_of(index)?)?;
        }
    }
    Ok(List::from_vec(numbers.into_vec()?))
}

/// The numbers, in ascending order, of those of some switches that the statements of a function name. An error where memory
/// lacks, or where a number has more than 32 bits.
#[tactic(auto, using(crate::proofs::Numbers::named))]
pub fn switches_named(
    alloc: Global,
    switches: &List<Switch>,
    body: &List<Stmt>,
) -> Result<List<u32>, AllocError>
    ensures { IfOk result (λ numbers. numbers ≡ switches_named switches.now body.now) }
{
    let mut flags = no_flags(alloc, switches)?;
    mark_stmts(body, &mut flags);
    flagged_numbers(alloc, switches, &flags)
}
