ghost use Rattle.std.specs.Prelude.{◌≡◌, ◌≤◌, ◌<◌, length, OnOk, OnErr, IfErr};
ghost use Rattle.mv_patch.specs.Tables.{patchable};
ghost use Rattle.mv_patch.specs.Orders.{code_of, index_of, binding_count};
ghost use Rattle.mv_patch.specs.Plans.{plan_of};

use crate::order::Order;
use crate::prepared::Plan;
use mv_bindings::binding::Binding;
use mv_fetch::Memory;
use mv_image::Image;
use mv_num::list::List;
use thiserror::Error;

/// Why an order is refused.
#[derive(Clone, Copy, Debug, PartialEq, Eq, Drop, Error)]
pub enum PlanError {
    /// So many frames of attributed functions are live.
    #[error("{0} frames of attributed functions are live")]
    Live(u32),
}

/// Fills a plan with what an order does, given the bindings of all attributed functions and pointer switches, and how many frames of them are live:
/// the words of text that change, the bindings behind the order, and its answer. An order is refused exactly where a frame is
/// live, and then the plan stays as it was. It takes no memory.
pub fn plan(
    image: &Image,
    memory: &Memory,
    bound: &List<Binding>,
    live: u32,
    order: Order,
    into: &mut Plan,
) -> Result<(), PlanError>
    requires room { patchable image.now ≤ into.old.room }
    requires into { length into.old.planned.bound ≡ binding_count image.now }
    requires bound { length bound.now ≡ binding_count image.now }
    ensures planned { OnOk result (into.new.planned ≡ plan_of image.now memory.now.held bound.now (code_of order) (index_of order)) }
    ensures none_live { OnOk result (live ≡ 0) }
    ensures some_live { OnErr result (0 < live) }
    ensures live { IfErr result (λ e. e ≡ PlanError.Live live) }
    ensures refused { OnErr result (into.new ≡ into.old) }
    ensures count { length into.new.planned.bound ≡ binding_count image.now }
    ensures few { OnOk result (length into.new.planned.pairs ≤ patchable image.now) }
    ensures room { into.new.room ≡ into.old.room }
{
    if live > 0 {
        return Err(PlanError::Live(live));
    }
    into.fill(image, memory, order, bound.as_slice());
    Ok(())
}
