//! What an environment call finds in registers and puts there.

ghost use Rattle.std.specs.Prelude.{◌≡◌};
ghost use Rattle.mv_isa.specs.Execution.{reg, put};
ghost use Rattle.mv_num.specs.Words.{add};

use mv_num::word;
use mv_rv32::Hart;

/// Puts an answer into a0, and goes behind the call.
#[tactic(auto, unfolding(mv_isa::specs::Execution::put))]
pub(crate) fn answer(hart: &mut Hart, value: u32)
    ensures regs { hart.new.regs ≡ put hart.old.regs 10 value }
    ensures pc { hart.new.pc ≡ add hart.old.pc 4 }
{
    hart.regs[10] = value;
    hart.pc = word::add(hart.pc, 4);
}

/// What a0 holds, the argument of a call.
#[tactic(auto, unfolding(mv_isa::specs::Execution::reg))]
pub fn argument(hart: &Hart) -> u32
    ensures { result ≡ reg hart.now.regs 10 }
{
    hart.regs[10]
}

/// What a7 holds, the number of a call.
#[tactic(auto, unfolding(mv_isa::specs::Execution::reg))]
pub fn number(hart: &Hart) -> u32
    ensures { result ≡ reg hart.now.regs 17 }
{
    hart.regs[17]
}

/// What a1 holds, the number of a function or a switch.
#[tactic(auto, unfolding(mv_isa::specs::Execution::reg))]
pub fn index(hart: &Hart) -> u32
    ensures { result ≡ reg hart.now.regs 11 }
{
    hart.regs[11]
}

/// What s10 holds: how many frames of attributed functions are live.
#[tactic(auto, unfolding(mv_isa::specs::Execution::reg))]
pub fn live_frames(hart: &Hart) -> u32
    ensures { result ≡ reg hart.now.regs 26 }
{
    hart.regs[26]
}
