// Flags of globals.
ghost use Rattle.std.specs.Prelude.{◌≡◌, ◌+◌, true, IfOk, map, slice_set};
ghost use Rattle.mv_ast.specs.Counts.{greatest};
ghost use Rattle.mv_ast.specs.Flags.{is_set};
ghost use Rattle.mv_check_uses.specs.Flags.{no_flags};

use mv_ast::program::Switch;
use mv_num::list::List;
use std::alloc::{AllocError, Global};

/// The greatest global of some switches, and 0 where there is none.
#[tactic(auto, using(crate::proofs::Bounds::greater))]
fn greatest_global(switches: &List<Switch>) -> u32
    ensures { result ≡ greatest (map (λ s. s.global) switches.now) }
{
    let mut greatest = 0;
    for switch in switches.as_slice() {
        greatest = switch.global.max(greatest);
    }
    greatest
}

/// Flags, none set, for the globals of some switches.
pub fn no_flags(alloc: Global, switches: &List<Switch>) -> Result<Vec<bool>, AllocError>
    ensures { IfOk result (λ flags. flags.items ≡ no_flags switches.now) }
{
    let count = greatest_global(switches) as usize + 1;
    Ok(vec![in alloc; false; count]?)
}

/// Sets the flag of a global, if it has one.
pub fn set(flags: &mut Vec<bool>, global: u32)
    ensures { flags.new.items ≡ slice_set flags.old.items global true }
{
    let index = global as usize;
    if index < flags.len() {
        flags[index] = true;
    }
}

/// Whether the flag of a global is set.
pub fn is_set(flags: &Vec<bool>, global: u32) -> bool
    ensures { result ≡ is_set flags.now.items global }
{
    match flags.get(global as usize) {
        Some(flag) => *flag,
        None => false,
    }
}
