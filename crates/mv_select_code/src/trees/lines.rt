ghost use Rattle.std.specs.Prelude.{◌≡◌, ◌++◌, OnOk};
ghost use Rattle.mv_select_code.specs.Trees.TreeCode.{one, two};

use mv_isa::Instr;
use mv_isa::labelled::Line;
use mv_num::list::List;
use std::alloc::AllocError;

/// Puts an instruction at the end of some code.
pub fn push_one(code: &mut List<Line>, instr: Instr) -> Result<(), AllocError>
    ensures { OnOk result (code.new ≡ code.old ++ one instr) }
{
    code.push(Line::Word(instr))?;
    Ok(())
}

/// Puts two instructions at the end of some code.
pub fn push_two(code: &mut List<Line>, first: Instr, second: Instr) -> Result<(), AllocError>
    ensures { OnOk result (code.new ≡ code.old ++ two first second) }
{
    push_one(code, first)?;
    push_one(code, second)
}
