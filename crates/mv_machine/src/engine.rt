//! What a run changes of a hart.

ghost use Rattle.mv_machine.specs.Engines.{IsReady};

use mv_bindings::binding::Binding;
use mv_fetch::Memory;
use mv_image::Image;
use mv_num::list::List;
use mv_patch::Plan;
use mv_rv32::Hart;

/// One hart with its image, its memory and the bindings of the attributed functions, but for how its run stands. Hart 0 alone commits. The plan is scratch
/// space, so that a commit takes no memory.
#[derive(Drop)]
pub struct Engine {
    /// The number of its hart.
    pub number: u32,
    /// The program and its tables; no instruction changes it.
    pub image: Image,
    /// Registers and pc.
    pub hart: Hart,
    /// The words of memory, and of text also those that a fetch may still give.
    pub memory: Memory,
    /// What each attributed function is bound to, in order of declaration.
    pub bindings: List<Binding>,
    /// What the last order or flip planned.
    pub plan: Plan,
    /// Whether the last `turn` left bindings whose text is another than that of the bindings before it.
    pub opened: bool,
    ghost ready: { IsReady image bindings plan },
}
