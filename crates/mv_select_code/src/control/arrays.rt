// The code of statements on arrays, where a layout has them.

ghost use Rattle.std.specs.Prelude.{◌≡◌, ◌<◌, ◌++◌, true, All, OnOk};
ghost use Rattle.mv_select_code.specs.Statements.StatementCode.{check_lines, read_lines, write_lines};
ghost use Rattle.mv_select_code.specs.Trees.Rooms.{place_in};
ghost use Rattle.mv_select_code.specs.Trees.TreeCode.{seats_at};
ghost use Rattle.mv_select_code.specs.Control.FlowCode.{home_of, size_of, is_tested};
ghost use Rattle.mv_select_code.specs.Control.Layouts.{size_in, array_at_in, array_size_in, IsInFrame, is_small};

use crate::control::layout::Layout;
use crate::statements::elements::{Elements, push_check, push_read, push_write};
use mv_ir::stm::Array;
use mv_ir::tree::Tree;
use mv_isa::labelled::Line;
use mv_num::list::List;
use std::alloc::AllocError;

/// Tests an index, unless what is promised of it is enough.
pub fn push_check_of(
    code: &mut List<Line>,
    layout: &Layout,
    array: Array,
    index: &Tree,
) -> Result<(), AllocError>
    requires arrays { All IsInFrame layout.now.arrays }
    requires index { is_small index.now ≡ true }
    ensures { OnOk result (code.new ≡ code.old ++ check_lines (seats_at layout.now.rooms layout.now.keeping layout.now.pins)
        (size_of (size_in layout.now.rooms) (array_size_in layout.now.arrays) array)
        (is_tested (size_in layout.now.rooms) (array_size_in layout.now.arrays) array) index.now) }
{
    let Elements { size, tested, .. } = layout.elements(array);
    push_check(code, layout.places(), size, tested, index)
}

/// Puts an element into a temporary.
pub fn push_read_of(
    code: &mut List<Line>,
    layout: &Layout,
    temp: u32,
    array: Array,
    index: &Tree,
) -> Result<(), AllocError>
    requires arrays { All IsInFrame layout.now.arrays }
    requires temp { temp < 507 }
    requires index { is_small index.now ≡ true }
    ensures { OnOk result (code.new ≡ code.old ++ read_lines (seats_at layout.now.rooms layout.now.keeping layout.now.pins) temp
        (home_of (place_in layout.now.rooms) (array_at_in layout.now.arrays) array)
        (size_of (size_in layout.now.rooms) (array_size_in layout.now.arrays) array)
        (is_tested (size_in layout.now.rooms) (array_size_in layout.now.arrays) array) index.now) }
{
    push_read(code, layout.places(), temp, layout.elements(array), index)
}

/// Puts a value into an element.
pub fn push_write_of(
    code: &mut List<Line>,
    layout: &Layout,
    array: Array,
    index: &Tree,
    value: &Tree,
) -> Result<(), AllocError>
    requires arrays { All IsInFrame layout.now.arrays }
    requires index { is_small index.now ≡ true }
    requires value { is_small value.now ≡ true }
    ensures { OnOk result (code.new ≡ code.old ++ write_lines (seats_at layout.now.rooms layout.now.keeping layout.now.pins)
        (home_of (place_in layout.now.rooms) (array_at_in layout.now.arrays) array)
        (size_of (size_in layout.now.rooms) (array_size_in layout.now.arrays) array)
        (is_tested (size_in layout.now.rooms) (array_size_in layout.now.arrays) array) index.now value.now) }
{
    push_write(code, layout.places(), layout.elements(array), index, value)
}
