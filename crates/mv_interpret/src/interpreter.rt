// The evaluation of expressions and statements. Each function of this cycle lowers the bound or goes down the tree.

ghost use Rattle.std.specs.Prelude.{◌≡◌, ◌+◌, ◌<◌, ◌^◌, if◌then◌else◌, length};
ghost use Rattle.mv_num.specs.Words.{add, sub};
ghost use Rattle.mv_ast.specs.declared.program.CType.{CType};
ghost use Rattle.mv_interpret.specs.Runs.{IsReady, IsOutcome, expr_outcome, callee_outcome, exprs_outcome, target_outcome, optional_outcome, call_outcome, stmt_outcome, stmts_outcome, while_outcome, do_outcome, for_outcome, arms_outcome, stores_outcome, world_of, goes_back, behind_loop, behind_switch};
ghost use Rattle.mv_interpret.specs.Forms.{binary_outcome, both_outcome, either_outcome, choice_outcome, set_outcome, change_outcome, after_outcome, direct_outcome, through_outcome, known_outcome};
ghost use Rattle.mv_ast.specs.Numbering.{own_numbers};
ghost use Rattle.mv_meaning.specs.Meaning.{value_in, callee_in, returned_value};

use crate::arguments::Arguments;
use crate::arms::{arms_from, first_arm};
use crate::known::known_value;
use crate::numbers::{function_of_number, number_of};
use crate::objects::{clear_local, frame_of};
use crate::reads::{called_global, global_read};
use crate::state::{Halt, Here, State, count, put_word, size_at, store_lvalue, word_at};
use mv_ast::operators::{binary_value, converted, unary_value};
use mv_ast::program::{Arm, CType, Expr, Form, Known, Program, Stmt, Target};
use mv_bindings::stop::Stop;
use mv_bindings::traps;
use mv_meaning::state::{Flow, Frame, Lvalue};
use mv_num::boxed::Boxed;
use mv_num::list::List;
use mv_num::word::{add, sub};
use std::alloc::AllocError;

/// How many expressions and blocks may be evaluated within one another, over all calls. Each takes some of the stack, which no clause can speak of:
/// less than 600 bytes as LLVM compiles the program, so that these take less than 6 of the usual 8 MiB. A deeper one is given up for want of memory.
const LEVEL_LIMIT: u32 = 10_000;

// The value in an lvalue.
fn read_lvalue(program: &Program, here: Here, lvalue: Lvalue, frame: &Frame, state: &State) -> u32
    ensures { result ≡ value_in program.now lvalue frame.now (world_of here state.now) }
{
    match lvalue {
        Lvalue::Global(g, i) => global_read(program, here, state, frame.function, g, i),
        Lvalue::Local(l, i) => word_at(&frame.locals, l, i),
    }
}

// The number in an lvalue as a call through it sees it.
fn read_callee(program: &Program, here: Here, lvalue: Lvalue, frame: &Frame, state: &State) -> u32
    requires { length program.now.functions + length program.now.pointers < 2 ^ 32 }
    ensures { result ≡ callee_in program.now (own_numbers program.now) lvalue frame.now (world_of here state.now) }
{
    match lvalue {
        Lvalue::Global(g, i) => called_global(program, here, state, frame, g, i),
        Lvalue::Local(l, i) => word_at(&frame.locals, l, i),
    }
}

// One more, or one less.
fn stepped(up: bool, old: u32) -> u32
    ensures { result ≡ (if up then add old 1 else sub old 1) }
{
    if up { add(old, 1) } else { sub(old, 1) }
}

// Whether control goes back to the start of a loop.
fn goes_back(flow: Flow) -> bool
    ensures { result ≡ goes_back flow }
{
    match flow {
        Flow::Goes => true,
        Flow::Breaks => false,
        Flow::Continues => true,
        Flow::Returns(_) => false,
    }
}

// How control leaves a loop.
fn behind_loop(flow: Flow) -> Flow
    ensures { result ≡ behind_loop flow }
{
    match flow {
        Flow::Goes => Flow::Goes,
        Flow::Breaks => Flow::Goes,
        Flow::Continues => Flow::Goes,
        Flow::Returns(value) => Flow::Returns(value),
    }
}

/// The value of a body: that of its `return`, and 0 where its end is reached (C11 5.1.2.2.3).
pub fn returned_value(flow: Flow) -> u32
    ensures { result ≡ returned_value flow }
{
    match flow {
        Flow::Goes => 0,
        Flow::Breaks => 0,
        Flow::Continues => 0,
        Flow::Returns(value) => value,
    }
}

// The value of an expression (C11 6.5): an arm for each form.
#[cycle(evaluation)]
fn value_of(
    program: &Program,
    here: Here,
    level: u32,
    e: &Expr,
    frame: &mut Frame,
    state: &mut State,
) -> Result<u32, Halt>
    requires { IsReady program.now here.depth here.live here.plan_work }
    ensures { IsOutcome state.old.work (expr_outcome program.now here e.now frame.old state.old) here result frame.new state.new }
{
    if level >= LEVEL_LIMIT {
        return Err(Halt::Memory(AllocError));
    }
    let level = level + 1;
    count(state, 1);
    match &e.what {
        Form::Number(n) => Ok(*n),
        Form::Read(target) => {
            let lvalue = lvalue_of(program, here, level, target, frame, state)?;
            Ok(read_lvalue(program, here, lvalue, frame, state))
        }
        Form::Function(f) => Ok(number_of(program, *f)),
        Form::Unary(op, a) => {
            let v = value_of(program, here, level, a.get(), frame, state)?;
            Ok(unary_value(*op, v))
        }
        Form::Binary(op, a, b) => {
            value_of_binary(program, here, level, *op, a.get(), b.get(), frame, state)
        }
        Form::Both(a, b) => value_of_both(program, here, level, a.get(), b.get(), frame, state),
        Form::Either(a, b) => value_of_either(program, here, level, a.get(), b.get(), frame, state),
        Form::Choose(c, a, b) => {
            value_of_choice(
                program,
                here,
                level,
                c.get(),
                a.get(),
                b.get(),
                frame,
                state,
            )
        }
        Form::Convert(a) => {
            let v = value_of(program, here, level, a.get(), frame, state)?;
            Ok(converted(e.ctype, v))
        }
        Form::Set(target, a) => value_of_set(program, here, level, target, a.get(), frame, state),
        Form::Change(op, kind, target, a) => {
            let change = Change {
                op: *op,
                kind: *kind,
                ctype: e.ctype,
            };
            value_of_change(program, here, level, change, target, a.get(), frame, state)
        }
        Form::After(up, target) => {
            value_of_after(program, here, level, *up, e.ctype, target, frame, state)
        }
        Form::Direct(f, args) => value_of_call(program, here, level, *f, args, frame, state),
        Form::Through(args, callee) => {
            value_of_call_through(program, here, level, args, callee, frame, state)
        }
        Form::Known(known, args) => value_of_known(
            program, here, level, *known, args, frame, state,
        ),
    }
}

// The value of an expression that is what is called.
#[cycle(evaluation)]
fn callee_of(
    program: &Program,
    here: Here,
    level: u32,
    e: &Boxed<Expr>,
    frame: &mut Frame,
    state: &mut State,
) -> Result<u32, Halt>
    requires { IsReady program.now here.depth here.live here.plan_work }
    ensures { IsOutcome state.old.work (callee_outcome program.now here e.now frame.old state.old) here result frame.new state.new }
{
    if let Form::Read(target) = &e.get().what {
        count(state, 1);
        let lvalue = lvalue_of(program, here, level, target, frame, state)?;
        return Ok(read_callee(program, here, lvalue, frame, state));
    }
    value_of(program, here, level, e.get(), frame, state)
}

// The value of an operation on two values (C11 6.5.5).
#[cycle(evaluation)]
fn value_of_binary(
    program: &Program,
    here: Here,
    level: u32,
    op: u8,
    a: &Expr,
    b: &Expr,
    frame: &mut Frame,
    state: &mut State,
) -> Result<u32, Halt>
    requires { IsReady program.now here.depth here.live here.plan_work }
    ensures { IsOutcome state.old.work (binary_outcome program.now here op a.now b.now frame.old state.old) here result frame.new state.new }
{
    let x = value_of(program, here, level, a, frame, state)?;
    let y = value_of(program, here, level, b, frame, state)?;
    match binary_value(op, a.ctype, x, y) {
        Some(v) => Ok(v),
        None => Err(Halt::Stopped(Stop::Trapped(traps::DIVISION_BY_ZERO))),
    }
}

// The value of `a && b`, where `b` is evaluated only if `a` is not 0 (C11 6.5.13).
#[cycle(evaluation)]
fn value_of_both(
    program: &Program,
    here: Here,
    level: u32,
    a: &Expr,
    b: &Expr,
    frame: &mut Frame,
    state: &mut State,
) -> Result<u32, Halt>
    requires { IsReady program.now here.depth here.live here.plan_work }
    ensures { IsOutcome state.old.work (both_outcome program.now here a.now b.now frame.old state.old) here result frame.new state.new }
{
    let x = value_of(program, here, level, a, frame, state)?;
    if x == 0 {
        return Ok(0);
    }
    let y = value_of(program, here, level, b, frame, state)?;
    Ok(if y == 0 { 0 } else { 1 })
}

// The value of `a || b`, where `b` is evaluated only if `a` is 0 (C11 6.5.14).
#[cycle(evaluation)]
fn value_of_either(
    program: &Program,
    here: Here,
    level: u32,
    a: &Expr,
    b: &Expr,
    frame: &mut Frame,
    state: &mut State,
) -> Result<u32, Halt>
    requires { IsReady program.now here.depth here.live here.plan_work }
    ensures { IsOutcome state.old.work (either_outcome program.now here a.now b.now frame.old state.old) here result frame.new state.new }
{
    let x = value_of(program, here, level, a, frame, state)?;
    if x != 0 {
        return Ok(1);
    }
    let y = value_of(program, here, level, b, frame, state)?;
    Ok(if y == 0 { 0 } else { 1 })
}

// The value of `c ? a : b` (C11 6.5.15).
#[cycle(evaluation)]
fn value_of_choice(
    program: &Program,
    here: Here,
    level: u32,
    c: &Expr,
    a: &Expr,
    b: &Expr,
    frame: &mut Frame,
    state: &mut State,
) -> Result<u32, Halt>
    requires { IsReady program.now here.depth here.live here.plan_work }
    ensures { IsOutcome state.old.work (choice_outcome program.now here c.now a.now b.now frame.old state.old) here result frame.new state.new }
{
    let x = value_of(program, here, level, c, frame, state)?;
    if x == 0 {
        value_of(program, here, level, b, frame, state)
    } else {
        value_of(program, here, level, a, frame, state)
    }
}

// The value of an assignment (C11 6.5.16.1).
#[cycle(evaluation)]
fn value_of_set(
    program: &Program,
    here: Here,
    level: u32,
    target: &Target,
    a: &Expr,
    frame: &mut Frame,
    state: &mut State,
) -> Result<u32, Halt>
    requires { IsReady program.now here.depth here.live here.plan_work }
    ensures { IsOutcome state.old.work (set_outcome program.now here target.now a.now frame.old state.old) here result frame.new state.new }
{
    let lvalue = lvalue_of(program, here, level, target, frame, state)?;
    let v = value_of(program, here, level, a, frame, state)?;
    store_lvalue(lvalue, v, frame, state);
    Ok(v)
}

// What a compound assignment computes: an operation in one type, whose value is converted to another.
#[derive(Clone, Copy)]
struct Change {
    op: u8,
    kind: CType,
    ctype: CType,
}

// The value of a compound assignment (C11 6.5.16.2).
#[cycle(evaluation)]
fn value_of_change(
    program: &Program,
    here: Here,
    level: u32,
    change: Change,
    target: &Target,
    a: &Expr,
    frame: &mut Frame,
    state: &mut State,
) -> Result<u32, Halt>
    requires { IsReady program.now here.depth here.live here.plan_work }
    ensures { IsOutcome state.old.work (change_outcome program.now here change target.now a.now frame.old state.old) here result frame.new state.new }
{
    let lvalue = lvalue_of(program, here, level, target, frame, state)?;
    let v = value_of(program, here, level, a, frame, state)?;
    let old = read_lvalue(program, here, lvalue, frame, state);
    match binary_value(change.op, change.kind, old, v) {
        Some(new) => {
            let stored = converted(change.ctype, new);
            store_lvalue(lvalue, stored, frame, state);
            Ok(stored)
        }
        None => Err(Halt::Stopped(Stop::Trapped(traps::DIVISION_BY_ZERO))),
    }
}

// The value of `t++` or `t--` (C11 6.5.2.4).
#[cycle(evaluation)]
fn value_of_after(
    program: &Program,
    here: Here,
    level: u32,
    up: bool,
    ctype: CType,
    target: &Target,
    frame: &mut Frame,
    state: &mut State,
) -> Result<u32, Halt>
    requires { IsReady program.now here.depth here.live here.plan_work }
    ensures { IsOutcome state.old.work (after_outcome program.now here up ctype target.now frame.old state.old) here result frame.new state.new }
{
    let lvalue = lvalue_of(program, here, level, target, frame, state)?;
    let old = read_lvalue(program, here, lvalue, frame, state);
    let stored = converted(ctype, stepped(up, old));
    store_lvalue(lvalue, stored, frame, state);
    Ok(old)
}

// The value of a call by name.
#[cycle(evaluation)]
fn value_of_call(
    program: &Program,
    here: Here,
    level: u32,
    f: u32,
    args: &List<Expr>,
    frame: &mut Frame,
    state: &mut State,
) -> Result<u32, Halt>
    requires { IsReady program.now here.depth here.live here.plan_work }
    ensures { IsOutcome state.old.work (direct_outcome program.now here f args.now frame.old state.old) here result frame.new state.new }
{
    let values = values_of(program, here, level, args, frame, state)?;
    call(program, here, level, f, &values, frame, state)
}

// The value of a call through a pointer, which under the program's own numbering may reach every function.
#[cycle(evaluation)]
fn value_of_call_through(
    program: &Program,
    here: Here,
    level: u32,
    args: &List<Expr>,
    callee: &Boxed<Expr>,
    frame: &mut Frame,
    state: &mut State,
) -> Result<u32, Halt>
    requires { IsReady program.now here.depth here.live here.plan_work }
    ensures { (t : CType) → IsOutcome state.old.work (through_outcome program.now here t args.now callee.now frame.old state.old) here result frame.new state.new }
{
    let values = values_of(program, here, level, args, frame, state)?;
    let v = callee_of(program, here, level, callee, frame, state)?;
    if v == 0 {
        return Err(Halt::Stopped(Stop::Trapped(traps::NULL_CALL)));
    }
    match function_of_number(program, v) {
        Some(f) => call(program, here, level, f, &values, frame, state),
        None => Ok(0),
    }
}

// The value of a call of a known function.
#[cycle(evaluation)]
fn value_of_known(
    program: &Program,
    here: Here,
    level: u32,
    known: Known,
    args: &List<Expr>,
    frame: &mut Frame,
    state: &mut State,
) -> Result<u32, Halt>
    requires { IsReady program.now here.depth here.live here.plan_work }
    ensures { IsOutcome state.old.work (known_outcome program.now here known args.now frame.old state.old) here result frame.new state.new }
{
    let values = values_of(program, here, level, args, frame, state)?;
    known_value(program, here, known, &values, frame, state)
}

// Where a value is read or stored: an index is evaluated and then tested.
#[cycle(evaluation)]
fn lvalue_of(
    program: &Program,
    here: Here,
    level: u32,
    target: &Target,
    frame: &mut Frame,
    state: &mut State,
) -> Result<Lvalue, Halt>
    requires { IsReady program.now here.depth here.live here.plan_work }
    ensures { IsOutcome state.old.work (target_outcome program.now here target.now frame.old state.old) here result frame.new state.new }
{
    let _work = state.work;
    match target {
        Target::Global(g) => Ok(Lvalue::Global(*g, 0)),
        Target::Local(l) => Ok(Lvalue::Local(*l, 0)),
        Target::GlobalAt(g, e) => {
            let i = value_of(program, here, level, e.get(), frame, state)?;
            if (i as usize) < size_at(&state.globals, *g) {
                Ok(Lvalue::Global(*g, i))
            } else {
                Err(Halt::Stopped(Stop::Trapped(traps::INDEX_OUTSIDE)))
            }
        }
        Target::LocalAt(l, e) => {
            let i = value_of(program, here, level, e.get(), frame, state)?;
            if (i as usize) < size_at(&frame.locals, *l) {
                Ok(Lvalue::Local(*l, i))
            } else {
                Err(Halt::Stopped(Stop::Trapped(traps::INDEX_OUTSIDE)))
            }
        }
    }
}

// The values of some expressions, left to right.
#[cycle(evaluation)]
fn values_of(
    program: &Program,
    here: Here,
    level: u32,
    es: &List<Expr>,
    frame: &mut Frame,
    state: &mut State,
) -> Result<Arguments, Halt>
    requires { IsReady program.now here.depth here.live here.plan_work }
    ensures { IsOutcome state.old.work (exprs_outcome program.now here es.now frame.old state.old) here result frame.new state.new }
{
    let _work = state.work;
    let mut values = Arguments::new(state.alloc);
    for e in es.as_slice() {
        let v = value_of(program, here, level, e, frame, state)?;
        values.push(v)?;
    }
    Ok(values)
}

// The value of an expression that may be left out, in whose place a value stands then.
#[cycle(evaluation)]
fn optional_value(
    program: &Program,
    here: Here,
    level: u32,
    e: &Option<Expr>,
    otherwise: u32,
    frame: &mut Frame,
    state: &mut State,
) -> Result<u32, Halt>
    requires { IsReady program.now here.depth here.live here.plan_work }
    ensures { IsOutcome state.old.work (optional_outcome program.now here otherwise e.now frame.old state.old) here result frame.new state.new }
{
    let _work = state.work;
    match e {
        None => Ok(otherwise),
        Some(e) => value_of(program, here, level, e, frame, state),
    }
}

// The value of a call (C11 6.5.2.2). The depth is tested before the bound.
#[cycle(evaluation)]
fn call(
    program: &Program,
    here: Here,
    level: u32,
    f: u32,
    arguments: &Arguments,
    caller: &Frame,
    state: &mut State,
) -> Result<u32, Halt>
    requires { IsReady program.now here.depth here.live here.plan_work }
    ensures { IsOutcome state.old.work (call_outcome program.now here f arguments.now caller.now state.old) here result caller.now state.new }
{
    let _work = state.work;
    if here.depth >= traps::DEPTH_LIMIT {
        return Err(Halt::Stopped(Stop::Trapped(traps::CALL_TOO_DEEP)));
    }
    if here.bound == 0 {
        return Err(Halt::Stopped(Stop::Unfinished));
    }
    match program.functions.get(f as usize) {
        None => Ok(0),
        Some(g) => {
            let mut frame = frame_of(state.alloc, g, f, arguments)?;
            let inner = Here {
                bound: here.bound - 1,
                depth: here.depth + 1,
                live: here.live + u32::from(g.attributed),
                plan_work: here.plan_work,
            };
            let flow = flow_of_all(program, inner, level, &g.body, &mut frame, state)?;
            Ok(returned_value(flow))
        }
    }
}

// What a statement does (C11 6.8): an arm for each form.
#[cycle(evaluation)]
fn flow_of(
    program: &Program,
    here: Here,
    level: u32,
    s: &Stmt,
    frame: &mut Frame,
    state: &mut State,
) -> Result<Flow, Halt>
    requires { IsReady program.now here.depth here.live here.plan_work }
    ensures { IsOutcome state.old.work (stmt_outcome program.now here s.now frame.old state.old) here result frame.new state.new }
{
    count(state, 1);
    match s {
        Stmt::Block(body) => flow_of_all(program, here, level, body, frame, state),
        Stmt::Clear(l, values) => {
            clear_local(*l, values, frame, state);
            store_values(program, here, level, *l, values, frame, state)
        }
        Stmt::Express(e) => {
            value_of(program, here, level, e, frame, state)?;
            Ok(Flow::Goes)
        }
        Stmt::If(e, yes_part, no_part) => {
            let v = value_of(program, here, level, e, frame, state)?;
            if v == 0 {
                flow_of_all(program, here, level, no_part, frame, state)
            } else {
                flow_of_all(program, here, level, yes_part, frame, state)
            }
        }
        Stmt::While(e, body) => while_loop(program, here, level, body, e, frame, state),
        Stmt::Do(body, e) => do_loop(program, here, level, body, e, frame, state),
        Stmt::For(first, test, step, body) => {
            let begun = flow_of_all(program, here, level, first, frame, state)?;
            if begun == Flow::Goes {
                for_loop(program, here, level, body, test, step, frame, state)
            } else {
                Ok(begun)
            }
        }
        Stmt::Switch(e, arms) => {
            let v = value_of(program, here, level, e, frame, state)?;
            let first = first_arm(arms, v, state);
            arms_flow(program, here, level, arms_from(arms, first), frame, state)
        }
        Stmt::Break => Ok(Flow::Breaks),
        Stmt::Continue => Ok(Flow::Continues),
        Stmt::Return(e) => {
            let v = optional_value(program, here, level, e, 0, frame, state)?;
            Ok(Flow::Returns(v))
        }
    }
}

/// What some statements do in order (C11 6.8.2), up to the first behind which control goes elsewhere.
#[cycle(evaluation)]
pub fn flow_of_all(
    program: &Program,
    here: Here,
    level: u32,
    body: &List<Stmt>,
    frame: &mut Frame,
    state: &mut State,
) -> Result<Flow, Halt>
    requires { IsReady program.now here.depth here.live here.plan_work }
    ensures { IsOutcome state.old.work (stmts_outcome program.now here body.now frame.old state.old) here result frame.new state.new }
{
    let _work = state.work;
    if level >= LEVEL_LIMIT {
        return Err(Halt::Memory(AllocError));
    }
    let level = level + 1;
    for s in body.as_slice() {
        let flow = flow_of(program, here, level, s, frame, state)?;
        if flow != Flow::Goes {
            return Ok(flow);
        }
    }
    Ok(Flow::Goes)
}

// Goes through a `while` from its start, in which its node was counted already.
#[cycle(evaluation)]
fn while_loop(
    program: &Program,
    here: Here,
    level: u32,
    body: &List<Stmt>,
    e: &Expr,
    frame: &mut Frame,
    state: &mut State,
) -> Result<Flow, Halt>
    requires { IsReady program.now here.depth here.live here.plan_work }
    ensures { IsOutcome state.old.work (while_outcome program.now here e.now body.now frame.old state.old) here result frame.new state.new }
{
    let mut bound = here.bound;
    loop {
        let now = Here {
            bound,
            depth: here.depth,
            live: here.live,
            plan_work: here.plan_work,
        };
        let v = value_of(program, now, level, e, frame, state)?;
        if v == 0 {
            return Ok(Flow::Goes);
        }
        let flow = flow_of_all(program, now, level, body, frame, state)?;
        if !goes_back(flow) {
            return Ok(behind_loop(flow));
        }
        if bound == 0 {
            return Err(Halt::Stopped(Stop::Unfinished));
        }
        bound -= 1;
        count(state, 1);
    }
}

// Goes through a `do` from its start, in which its node was counted already.
#[cycle(evaluation)]
fn do_loop(
    program: &Program,
    here: Here,
    level: u32,
    body: &List<Stmt>,
    e: &Expr,
    frame: &mut Frame,
    state: &mut State,
) -> Result<Flow, Halt>
    requires { IsReady program.now here.depth here.live here.plan_work }
    ensures { IsOutcome state.old.work (do_outcome program.now here body.now e.now frame.old state.old) here result frame.new state.new }
{
    let mut bound = here.bound;
    loop {
        let now = Here {
            bound,
            depth: here.depth,
            live: here.live,
            plan_work: here.plan_work,
        };
        let flow = flow_of_all(program, now, level, body, frame, state)?;
        if !goes_back(flow) {
            return Ok(behind_loop(flow));
        }
        let v = value_of(program, now, level, e, frame, state)?;
        if v == 0 {
            return Ok(Flow::Goes);
        }
        if bound == 0 {
            return Err(Halt::Stopped(Stop::Unfinished));
        }
        bound -= 1;
        count(state, 1);
    }
}

// Goes through a `for` from its test, its node being counted and its first part done already.
#[cycle(evaluation)]
fn for_loop(
    program: &Program,
    here: Here,
    level: u32,
    body: &List<Stmt>,
    test: &Option<Expr>,
    step: &Option<Expr>,
    frame: &mut Frame,
    state: &mut State,
) -> Result<Flow, Halt>
    requires { IsReady program.now here.depth here.live here.plan_work }
    ensures { IsOutcome state.old.work (for_outcome program.now here test.now step.now body.now frame.old state.old) here result frame.new state.new }
{
    let mut bound = here.bound;
    loop {
        let now = Here {
            bound,
            depth: here.depth,
            live: here.live,
            plan_work: here.plan_work,
        };
        let v = optional_value(program, now, level, test, 1, frame, state)?;
        if v == 0 {
            return Ok(Flow::Goes);
        }
        let flow = flow_of_all(program, now, level, body, frame, state)?;
        if !goes_back(flow) {
            return Ok(behind_loop(flow));
        }
        optional_value(program, now, level, step, 0, frame, state)?;
        if bound == 0 {
            return Err(Halt::Stopped(Stop::Unfinished));
        }
        bound -= 1;
        count(state, 1);
    }
}

// How control leaves a `switch`.
fn behind_switch(flow: Flow) -> Flow
    ensures { result ≡ behind_switch flow }
{
    match flow {
        Flow::Goes => Flow::Goes,
        Flow::Breaks => Flow::Goes,
        Flow::Continues => Flow::Continues,
        Flow::Returns(value) => Flow::Returns(value),
    }
}

// What some arms of a `switch` do one after the other.
#[cycle(evaluation)]
fn arms_flow(
    program: &Program,
    here: Here,
    level: u32,
    arms: &[Arm],
    frame: &mut Frame,
    state: &mut State,
) -> Result<Flow, Halt>
    requires { IsReady program.now here.depth here.live here.plan_work }
    ensures { IsOutcome state.old.work (arms_outcome program.now here arms.now frame.old state.old) here result frame.new state.new }
{
    let _work = state.work;
    for arm in arms {
        let flow = flow_of_all(program, here, level, &arm.body, frame, state)?;
        if flow != Flow::Goes {
            return Ok(behind_switch(flow));
        }
    }
    Ok(Flow::Goes)
}

// Evaluates the given values of a declared local and stores them in order (C11 6.7.9).
#[cycle(evaluation)]
fn store_values(
    program: &Program,
    here: Here,
    level: u32,
    l: u32,
    values: &List<Expr>,
    frame: &mut Frame,
    state: &mut State,
) -> Result<Flow, Halt>
    requires { IsReady program.now here.depth here.live here.plan_work }
    ensures { IsOutcome state.old.work (stores_outcome program.now here l values.now frame.old state.old) here result frame.new state.new }
{
    let _work = state.work;
    for (i, e) in values.as_slice().iter().enumerate() {
        let v = value_of(program, here, level, e, frame, state)?;
        put_word(state.alloc, &mut frame.locals, l, i, v);
    }
    Ok(Flow::Goes)
}
