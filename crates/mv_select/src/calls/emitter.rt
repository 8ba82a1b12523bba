//! What writes the code of calls where statements have them.

ghost use Rattle.mv_select_code.specs.Trees.TreeCode.{seats_at};
ghost use Rattle.mv_select.specs.Calls.CallCode.{calls_of, is_marked};

use crate::calls::calls::{push_call, push_known};
use mv_ast::program::Known;
use mv_ir::stm::Callee;
use mv_ir::tree::Tree;
use mv_isa::labelled::Line;
use mv_num::list::List;
use mv_select_code::control::calls::CallCode;
use mv_select_code::trees::places::Places;
use std::alloc::AllocError;

/// What the code of calls names.
#[derive(Clone, Copy, Debug, Drop)]
pub struct Calls<'a> {
    /// Where the globals and the temporaries stand.
    pub places: Places<'a>,
    /// The attributed functions that are called directly.
    pub marked: &'a [u32],
}

impl CallCode for Calls<'_> {
    ghost lines = { λ s. calls_of (seats_at s.places.rooms.now s.places.keeping s.places.pins.now) (is_marked s.marked.now) };

    fn push_call(
        &self,
        code: &mut List<Line>,
        temp: Option<u32>,
        callee: &Callee,
        arguments: &List<Tree>,
    ) -> Result<(), AllocError> {
        let arguments = arguments.as_slice();
        push_call(code, self.places, self.marked, temp, callee, arguments)
    }

    fn push_known(
        &self,
        code: &mut List<Line>,
        temp: Option<u32>,
        known: Known,
        arguments: &List<Tree>,
    ) -> Result<(), AllocError> {
        let arguments = arguments.as_slice();
        push_known(code, self.places, temp, known, arguments)
    }
}
