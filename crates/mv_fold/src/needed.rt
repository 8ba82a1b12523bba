// Which temporaries are needed, by what reads them.
ghost use Rattle.std.specs.Prelude.{◌≡◌, ◌<◌, ◌+◌, ◌^◌, [], IfOk, OnOk, All, length, replicate, false};
ghost use Rattle.mv_fold.specs.Needed.{IsNeeded};
ghost use Rattle.mv_fold.specs.Reaching.{row, Fits, AreRows, IsReached, IsVisited};
ghost use Rattle.mv_ast.specs.Flags.{is_set};

use crate::uses::Use;
use std::alloc::{AllocError, Global};

/// The temporaries that are needed, in time and memory linear in the reads and in the greatest number of a temporary.
pub fn needed(alloc: Global, uses: &[Use]) -> Result<Vec<bool>, AllocError>
    ensures { IfOk result (λ flags. IsNeeded (is_set flags.items) uses.now) }
{
    let count = count(uses);
    let rows = rows(alloc, uses, count)?;
    let mut flags = no_flags(alloc, count)?;
    let mut order = Vec::new(alloc);
    visit(&rows[0], &mut flags, &mut order)?;
    let mut next = 0;
    while next < order.len() {
        visit(&rows[order[next] as usize + 1], &mut flags, &mut order)?;
        next += 1;
    }
    Ok(flags)
}

/// One more than the greatest number of a temporary.
fn count(uses: &[Use]) -> usize
    ensures fits { All (Fits result) uses.now }
    ensures small { result < 2 ^ 33 }
{
    let mut count = 0;
    for read in uses {
        let end = row(Some(read.used));
        let row = row(read.user);
        count = count.max(end).max(row);
    }
    count
}

/// Where the reads for a temporary stand, behind those for the body.
fn row(user: Option<u32>) -> usize
    ensures value { result ≡ row user }
    ensures small { result < 2 ^ 33 }
{
    match user {
        Some(t) => t as usize + 1,
        None => 0,
    }
}

/// For the body and for each temporary, what is read for it.
fn rows(alloc: Global, uses: &[Use], count: usize) -> Result<Vec<Vec<u32>>, AllocError>
    requires fits { All (Fits count) uses.now }
    requires small { count < 2 ^ 33 }
    ensures { IfOk result (λ rows. AreRows count uses.now rows.items) }
{
    let mut rows = no_rows(alloc, count)?;
    for read in uses {
        rows[row(read.user)].push(read.used)?;
    }
    Ok(rows)
}

fn no_rows(alloc: Global, count: usize) -> Result<Vec<Vec<u32>>, AllocError>
    requires { count < 2 ^ 33 }
    ensures { IfOk result (λ rows. AreRows count [] rows.items) }
{
    let mut rows = Vec::with_capacity(alloc, count + 1)?;
    for _ in 0..count + 1 {
        rows.push(Vec::new(alloc))?;
    }
    Ok(rows)
}

fn no_flags(alloc: Global, count: usize) -> Result<Vec<bool>, AllocError>
    ensures { IfOk result (λ flags. flags.items ≡ replicate count false) }
{
    let mut flags = Vec::with_capacity(alloc, count)?;
    for _ in 0..count {
        flags.push(false)?;
    }
    Ok(flags)
}

/// Flags what is read, and puts what wasn't flagged before behind the others in the order in which it was reached.
fn visit(row: &[u32], flags: &mut [bool], order: &mut Vec<u32>) -> Result<(), AllocError>
    requires fits { All (λ t. t < length flags.old) row.now }
    requires reached { IsReached flags.old order.old.items }
    ensures { OnOk result (IsVisited row.now flags.old order.old.items flags.new order.new.items) }
{
    for read in row {
        let place = *read as usize;
        if !flags[place] {
            flags[place] = true;
            order.push(*read)?;
        }
    }
    Ok(())
}
