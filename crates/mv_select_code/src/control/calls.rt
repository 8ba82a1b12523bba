ghost use Rattle.std.specs.Prelude.{◌≡◌, ◌++◌, true, OnOk};
ghost use Rattle.mv_select_code.specs.Control.FlowCode.{CallLines};
ghost use Rattle.mv_select_code.specs.Control.Layouts.{small_call, small_known};

use mv_ast::program::Known;
use mv_ir::stm::Callee;
use mv_ir::tree::Tree;
use mv_isa::labelled::Line;
use mv_num::list::List;
use std::alloc::AllocError;

/// Writes the code of calls.
pub trait CallCode {
    /// The lines that it writes.
    ghost lines: { Self → CallLines };

    /// Puts the code of a call at the end, with the temporary that the value goes to.
    fn push_call(
        &self,
        code: &mut List<Line>,
        temp: Option<u32>,
        callee: &Callee,
        arguments: &List<Tree>,
    ) -> Result<(), AllocError>
        requires { small_call temp callee.now arguments.now ≡ true }
        ensures { OnOk result (code.new ≡ code.old ++ (lines self.now).call temp callee.now arguments.now) };

    /// Puts the code of a known function at the end, with the temporary that the answer goes to.
    fn push_known(
        &self,
        code: &mut List<Line>,
        temp: Option<u32>,
        known: Known,
        arguments: &List<Tree>,
    ) -> Result<(), AllocError>
        requires { small_known temp known arguments.now ≡ true }
        ensures { OnOk result (code.new ≡ code.old ++ (lines self.now).known temp known arguments.now) };
}
