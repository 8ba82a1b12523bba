// The lowering of functions.
ghost use Rattle.std.specs.Prelude.{◌≡◌, ◌<◌, ◌^◌, ◌&&◌, false, IfOk, map, length, replicate};
ghost use Rattle.mv_ast.specs.Switches.{switch_global};
ghost use Rattle.mv_ast.specs.Flags.{is_set};
ghost use Rattle.mv_ast.specs.Counts.{elements_of};
ghost use Rattle.mv_lower_spec.specs.Functions.{array_sizes, lower_function_code, rooms_from, marked_from, lower_function};
ghost use Rattle.mv_lower.specs.Statements.{seen_code};
ghost use Rattle.mv_lower.specs.Programs.{ended, no_marks, is_named, AreMarks, HasRoom};
ghost use Rattle.mv_lower.specs.Naming.{seen_marks};

use crate::code::{Code, Jumps};
use crate::declaration::words;
use crate::names::{Marks, mark_code};
use crate::statement::lower_stmts;
use mv_ast::program::{Function, Global as Variable, Local, Program};
use mv_ir::body::{Body, Room};
use mv_ir::stm::Stm;
use mv_ir::tree::Tree;
use mv_lower_expressions::call::is_void;
use mv_num::list::List;
use mv_num::regions::DATA_START;
use mv_num::word::{add, mul};
use std::alloc::{AllocError, Global};

// For each local the size of the array with its number: none for a scalar.
fn array_sizes(alloc: Global, locals: &List<Local>) -> Result<List<u32>, AllocError>
    ensures { IfOk result (λ sizes. sizes ≡ array_sizes locals.now) }
{
    let mut sizes = List::new(alloc);
    for local in locals.as_slice() {
        sizes.push(elements(local.size))?;
    }
    Ok(sizes)
}

fn elements(size: Option<u32>) -> u32
    ensures { result ≡ elements_of size }
{
    match size {
        None => 0,
        Some(n) => n,
    }
}

// A function's code behind that of its statements. The end of one that isn't void gives 0.
#[tactic(auto, using(mv_lower_expressions::proofs::Emitting::emitted, crate::proofs::Bodies::endings))]
fn ended(code: Code, void: bool) -> Result<Code, AllocError>
    ensures { IfOk result (λ c. seen_code c ≡ ended void (seen_code code)) }
{
    if void {
        return Ok(code);
    }
    let Code { mut code, top } = code;
    code.push(Stm::Return(Tree::Number(0)))?;
    Ok(Code { code, top })
}

fn lower_code(alloc: Global, pointers: &[u32], function: &Function) -> Result<Code, AllocError>
    requires { HasRoom function.now }
    ensures { IfOk result (λ c. seen_code c ≡ lower_function_code pointers.now function.now) }
{
    let outermost = Jumps {
        leave: 0,
        again: 0,
        around: 0,
    };
    let body = lower_stmts(alloc, pointers, function, &function.body, outermost)?;
    let void = is_void(function.result);
    let code = ended(body, void)?;
    Ok(code)
}

fn no_flags(alloc: Global, count: usize) -> Result<Vec<bool>, AllocError>
    ensures { IfOk result (λ flags. flags.items ≡ replicate count false) }
{
    Ok(vec![in alloc; false; count]?)
}

fn is_set(flags: &Vec<bool>, number: u32) -> bool
    ensures { result ≡ is_set flags.now.items number }
{
    match flags.get(number as usize) {
        Some(flag) => *flag,
        None => false,
    }
}

fn is_named(marks: &Marks, global: u32) -> bool
    ensures { result ≡ is_named marks.now global }
{
    is_set(&marks.read, global) || is_set(&marks.stored, global)
}

// Rooms for those globals that are flagged, in ascending order.
fn rooms(alloc: Global, globals: &List<Variable>, marks: &Marks) -> Result<List<Room>, AllocError>
    requires { length globals.now < 2 ^ 32 }
    ensures { IfOk result (λ rooms. rooms ≡ rooms_from (is_named marks.now) 0 0 globals.now) }
{
    let mut rooms = List::new(alloc);
    let mut at = DATA_START;
    let mut g = 0;
    for global in globals.as_slice() {
        let size = words(global.size);
        if is_named(marks, g) {
            rooms.push(Room {
                global: g,
                at,
                size,
            })?;
        }
        at = add(at, mul(4, size));
        g += 1;
    }
    Ok(rooms)
}

fn is_marked(function: &Function, marks: &Marks, number: u32) -> bool
    ensures { result ≡ (function.now.attributed && is_set marks.now.called.items number) }
{
    function.attributed && is_set(&marks.called, number)
}

// The attributed ones among those functions that are flagged, in ascending order.
fn marked(alloc: Global, functions: &List<Function>, marks: &Marks) -> Result<List<u32>, AllocError>
    requires { length functions.now < 2 ^ 32 }
    ensures { IfOk result (λ marked. marked ≡ marked_from (is_set marks.now.called.items) 0 functions.now) }
{
    let mut marked = List::new(alloc);
    let mut f = 0;
    for function in functions.as_slice() {
        if is_marked(function, marks, f) {
            marked.push(f)?;
        }
        f += 1;
    }
    Ok(marked)
}

fn switch_global(program: &Program, switch: u32) -> u32
    ensures { result ≡ switch_global program.now switch }
{
    match program.switches.get(switch as usize) {
        Some(s) => s.global,
        None => 0,
    }
}

fn switches(alloc: Global, program: &Program, function: &Function) -> Result<List<u32>, AllocError>
    ensures { IfOk result (λ globals. globals ≡ map (switch_global program.now) function.now.switches) }
{
    let mut globals = List::new(alloc);
    for switch in function.switches.as_slice() {
        globals.push(switch_global(program, *switch))?;
    }
    Ok(globals)
}

fn no_marks(alloc: Global, globals: usize, functions: usize) -> Result<Marks, AllocError>
    ensures { IfOk result (λ m. seen_marks m ≡ no_marks globals functions) }
{
    let read = no_flags(alloc, globals)?;
    let stored = no_flags(alloc, globals)?;
    let called = no_flags(alloc, functions)?;
    Ok(Marks {
        read,
        stored,
        called,
    })
}

// What some code names, in flags of the program's globals and functions.
fn marks_of(alloc: Global, program: &Program, code: &List<Stm>) -> Result<Marks, AllocError>
    ensures { IfOk result (λ m. AreMarks program.now code.now m) }
{
    let globals = program.globals.len();
    let functions = program.functions.len();
    let mut marks = no_marks(alloc, globals, functions)?;
    mark_code(code, &mut marks);
    Ok(marks)
}

/// The body of a function.
pub fn lower_function(
    alloc: Global,
    program: &Program,
    function: &Function,
) -> Result<Body, AllocError>
    requires size { HasRoom function.now }
    requires globals { length program.now.globals < 2 ^ 32 }
    requires functions { length program.now.functions < 2 ^ 32 }
    ensures { IfOk result (λ body. body ≡ lower_function program.now function.now) }
{
    let lowered = lower_code(alloc, program.pointers.as_slice(), function)?;
    let marks = marks_of(alloc, program, &lowered.code)?;
    let arrays = array_sizes(alloc, &function.locals)?;
    let rooms = rooms(alloc, &program.globals, &marks)?;
    let marked = marked(alloc, &program.functions, &marks)?;
    let switches = switches(alloc, program, function)?;
    let temps = (function.locals.len() as u32).max(lowered.top);
    Ok(Body {
        params: function.params,
        temps,
        arrays,
        code: lowered.code,
        rooms,
        marked,
        switches,
    })
}
