//! The code of statements within one another.

ghost use Rattle.std.specs.Prelude.{◌≡◌, ◌+◌, ◌^◌, ◌<◌, true, All, IfSome, OnOk};
ghost use Rattle.mv_select_code.specs.Control.FlowCode.{Plan, fall_to, staying, short_cut, if_code, either_code, straight_loop, turned_loop, loop_of, block_code, statement_code, code_of, tested};
ghost use Rattle.mv_select_code.specs.Control.Emitters.{emitted};
ghost use Rattle.mv_select_code.specs.Control.Staying.{tested_of, BranchesTo, TurnsBy};
ghost use Rattle.mv_select_code.specs.Control.Layouts.{plan_in, IsInFrame, is_small, is_small_statement, are_small};

use crate::control::arrays::{push_check_of, push_read_of, push_write_of};
use crate::control::calls::CallCode;
use crate::control::emitter::Emitter;
use crate::control::enclosing::{Leading, Way};
use crate::control::layout::{Layout, space_of};
use crate::statements::values::{push_divide, push_set, push_set_global};
use mv_ir::stm::Stm;
use mv_ir::tree::Tree;
use mv_num::list::List;
use std::alloc::AllocError;

// Where a statement leads that does nothing else.
fn leading(statement: &Stm) -> Option<Leading>
    ensures { (plan : Plan) → result ≡ (statement_code plan statement.now).alone }
{
    match statement {
        Stm::Break(n) => Some(Leading::Out(*n)),
        Stm::Back(n) => Some(Leading::Back(*n)),
        _ => None,
    }
}

// Where a list leads that does nothing else.
fn list_leading(statements: &List<Stm>) -> Option<Leading>
    ensures { (plan : Plan) → result ≡ (code_of plan statements.now).alone }
{
    match statements.as_slice() {
        [] => Some(Leading::On),
        [statement] => leading(statement),
        _ => None,
    }
}

// Where the branch of an `If` goes in place of one of its lists: where the test isn't 0 or is, as the `bool` says.
fn short_cut(first: Option<Leading>, second: Option<Leading>) -> Option<(bool, Leading)>
    ensures { result ≡ short_cut first second }
{
    match (first, second) {
        (None, None) => None,
        (Some(lead), None | Some(Leading::On)) => Some((true, lead)),
        (_, Some(lead)) => Some((false, lead)),
    }
}

// On to a label that stands right behind.
fn falling(after: u32) -> Way
    ensures { result ≡ fall_to after }
{
    Way { after, falls: true }
}

// A list that a test leads to, which else leaves the innermost loop or block.
#[derive(Clone, Copy, Drop)]
struct Staying<'a> {
    test: &'a Tree,
    // Whether it does where the tree isn't 0, or where it is.
    sense: bool,
    list: &'a List<Stm>,
}

// What a test stays for, by where its branch goes and the list behind it.
fn staying_for<'a>(
    test: &'a Tree,
    sense: bool,
    lead: Leading,
    list: &'a List<Stm>,
) -> Option<Staying<'a>>
    ensures code { (plan : Plan) → staying test.now sense lead (code_of plan list.now) ≡ tested_of plan result }
    ensures same { IfSome result (λ s. (s.test.now ≡ test.now) × (s.list.now ≡ list.now)) }
{
    match lead {
        Leading::Out(n) => {
            if n == 0 {
                Some(Staying {
                    test,
                    sense: !sense,
                    list,
                })
            } else {
                None
            }
        }
        Leading::On | Leading::Back(_) => None,
    }
}

// What a statement stays for, if it is such a test.
fn stays_for(statement: &Stm) -> Option<Staying<'_>>
    ensures code { (plan : Plan) → (statement_code plan statement.now).stays ≡ tested_of plan result }
    ensures branch { IfSome result (λ s. BranchesTo s.test.now s.list.now statement.now) }
{
    match statement {
        Stm::If(test, first, second) => {
            let (sense, lead) = short_cut(list_leading(first), list_leading(second))?;
            staying_for(test, sense, lead, if sense { second } else { first })
        }
        _ => None,
    }
}

// What the first of some statements stays for.
fn first_stays_for(list: &[Stm]) -> Option<Staying<'_>>
    ensures { TurnsBy list.now result }
{
    match list.first() {
        Some(first) => stays_for(first),
        None => None,
    }
}

/// Puts the code of statements behind what is written, with labels from the first free one on, and with where control goes
/// behind it. What this code does, and which labels it has, is said by `flow_code_law`.
///
/// The arrays end at most 2,032 bytes above sp. No tree has more than four nodes one below the other, and temporaries are below
/// 507. The labels are numbers below 2^32; `few` of the law bounds them by the statements.
#[cycle(statement)]
pub fn push_statements<C: CallCode>(
    emitter: &mut Emitter,
    layout: &Layout,
    calls: &C,
    statements: &List<Stm>,
    way: Way,
) -> Result<(), AllocError>
    requires arrays { All IsInFrame layout.now.arrays }
    requires small { are_small statements.now ≡ true }
    requires labels { emitter.old.free + (code_of (plan_in layout.now (C.lines calls.now)) statements.now).labels < 2 ^ 32 }
    ensures { OnOk result (emitter.new ≡ emitted emitter.old (code_of (plan_in layout.now (C.lines calls.now)) statements.now) way) }
{
    push_list(emitter, layout, calls, statements.as_slice(), way)
}

#[cycle(statement)]
fn push_list<C: CallCode>(
    emitter: &mut Emitter,
    layout: &Layout,
    calls: &C,
    list: &[Stm],
    way: Way,
) -> Result<(), AllocError>
    requires arrays { All IsInFrame layout.now.arrays }
    requires small { are_small list.now ≡ true }
    requires labels { emitter.old.free + (code_of (plan_in layout.now (C.lines calls.now)) list.now).labels < 2 ^ 32 }
    ensures { OnOk result (emitter.new ≡ emitted emitter.old (code_of (plan_in layout.now (C.lines calls.now)) list.now) way) }
{
    for (k, statement) in list.iter().enumerate() {
        if k + 1 == list.len() {
            return push_statement(emitter, layout, calls, statement, way);
        }
        let after = emitter.take_label();
        push_statement(emitter, layout, calls, statement, falling(after))?;
        emitter.push_label(after)?;
    }
    emitter.go_on(way)
}

#[cycle(statement)]
fn push_statement<C: CallCode>(
    emitter: &mut Emitter,
    layout: &Layout,
    calls: &C,
    statement: &Stm,
    way: Way,
) -> Result<(), AllocError>
    requires arrays { All IsInFrame layout.now.arrays }
    requires small { is_small_statement statement.now ≡ true }
    requires labels { emitter.old.free + (statement_code (plan_in layout.now (C.lines calls.now)) statement.now).labels < 2 ^ 32 }
    ensures { OnOk result (emitter.new ≡ emitted emitter.old (statement_code (plan_in layout.now (C.lines calls.now)) statement.now) way) }
{
    let code = &mut emitter.lines;
    let places = layout.places();
    match statement {
        Stm::Set(t, v) => push_set(code, places, *t, v)?,
        Stm::SetGlobal(g, v) => push_set_global(code, places, *g, v)?,
        Stm::Divide(t, o, a, b) => push_divide(code, places, *t, *o, a, b)?,
        Stm::Check(a, i) => push_check_of(code, layout, *a, i)?,
        Stm::Read(t, a, i) => push_read_of(code, layout, *t, *a, i)?,
        Stm::Write(a, i, v) => push_write_of(code, layout, *a, i, v)?,
        Stm::Zero(a) => emitter.push_zero(space_of(layout.arrays.as_slice(), *a))?,
        Stm::Call(t, f, args) => calls.push_call(code, *t, f, args)?,
        Stm::Known(t, k, args) => calls.push_known(code, *t, *k, args)?,
        Stm::If(t, a, b) => return push_if(emitter, layout, calls, t, a, b, way),
        Stm::Loop(b) => return push_loop(emitter, layout, calls, b, way),
        Stm::Block(b) => return push_block(emitter, layout, calls, b, way),
        Stm::Break(n) => return emitter.push_break(*n, layout.end, way),
        Stm::Back(n) => return emitter.push_back(*n, layout.end),
        Stm::Return(v) => return emitter.push_return(places, v, layout.end, way),
    }
    emitter.go_on(way)
}

// A list that only leads somewhere needs no lines of its own: the branch goes there.
#[cycle(statement)]
fn push_if<C: CallCode>(
    emitter: &mut Emitter,
    layout: &Layout,
    calls: &C,
    test: &Tree,
    first: &List<Stm>,
    second: &List<Stm>,
    way: Way,
) -> Result<(), AllocError>
    requires arrays { All IsInFrame layout.now.arrays }
    requires test { is_small test.now ≡ true }
    requires first { are_small first.now ≡ true }
    requires second { are_small second.now ≡ true }
    requires labels { let plan = plan_in layout.now (C.lines calls.now) in
        emitter.old.free + (if_code plan.seats plan.end test.now (code_of plan first.now) (code_of plan second.now)).labels < 2 ^ 32 }
    ensures { let plan = plan_in layout.now (C.lines calls.now) in
        OnOk result (emitter.new ≡ emitted emitter.old (if_code plan.seats plan.end test.now (code_of plan first.now) (code_of plan second.now)) way) }
{
    let places = layout.places();
    match short_cut(list_leading(first), list_leading(second)) {
        None => push_either(emitter, layout, calls, test, first, second, way),
        Some((sense, lead)) => {
            let label = emitter.leads_to(layout.end, way, lead);
            emitter.push_branch(places, test, sense, label)?;
            if sense {
                push_statements(emitter, layout, calls, second, way)
            } else {
                push_statements(emitter, layout, calls, first, way)
            }
        }
    }
}

// The second list, at a label, where the test is 0, and else the first one, with a jump at its end.
#[cycle(statement)]
fn push_either<C: CallCode>(
    emitter: &mut Emitter,
    layout: &Layout,
    calls: &C,
    test: &Tree,
    first: &List<Stm>,
    second: &List<Stm>,
    way: Way,
) -> Result<(), AllocError>
    requires arrays { All IsInFrame layout.now.arrays }
    requires test { is_small test.now ≡ true }
    requires first { are_small first.now ≡ true }
    requires second { are_small second.now ≡ true }
    requires labels { let plan = plan_in layout.now (C.lines calls.now) in
        emitter.old.free + (either_code plan.seats test.now (code_of plan first.now) (code_of plan second.now)).labels < 2 ^ 32 }
    ensures { let plan = plan_in layout.now (C.lines calls.now) in
        OnOk result (emitter.new ≡ emitted emitter.old (either_code plan.seats test.now (code_of plan first.now) (code_of plan second.now)) way) }
{
    let places = layout.places();
    let other = emitter.take_label();
    emitter.push_branch(places, test, false, other)?;
    let out = Way {
        after: way.after,
        falls: false,
    };
    push_statements(emitter, layout, calls, first, out)?;
    emitter.push_label(other)?;
    push_statements(emitter, layout, calls, second, way)
}

#[cycle(statement)]
fn push_loop<C: CallCode>(
    emitter: &mut Emitter,
    layout: &Layout,
    calls: &C,
    body: &List<Stm>,
    way: Way,
) -> Result<(), AllocError>
    requires arrays { All IsInFrame layout.now.arrays }
    requires small { are_small body.now ≡ true }
    requires labels { emitter.old.free + (loop_of (plan_in layout.now (C.lines calls.now)) body.now).labels < 2 ^ 32 }
    ensures { OnOk result (emitter.new ≡ emitted emitter.old (loop_of (plan_in layout.now (C.lines calls.now)) body.now) way) }
{
    let list = body.as_slice();
    match first_stays_for(list) {
        Some(staying) => push_turned(emitter, layout, calls, staying, &list[1..], way),
        None => push_straight(emitter, layout, calls, list, way),
    }
}

// A loop with a jump back at its end.
#[cycle(statement)]
fn push_straight<C: CallCode>(
    emitter: &mut Emitter,
    layout: &Layout,
    calls: &C,
    body: &[Stm],
    way: Way,
) -> Result<(), AllocError>
    requires arrays { All IsInFrame layout.now.arrays }
    requires small { are_small body.now ≡ true }
    requires labels { emitter.old.free + (straight_loop (code_of (plan_in layout.now (C.lines calls.now)) body.now)).labels < 2 ^ 32 }
    ensures { OnOk result (emitter.new ≡ emitted emitter.old (straight_loop (code_of (plan_in layout.now (C.lines calls.now)) body.now)) way) }
{
    let start = emitter.take_label();
    emitter.open_loop(start, way)?;
    let again = Way {
        after: start,
        falls: false,
    };
    push_list(emitter, layout, calls, body, again)?;
    emitter.close();
    Ok(())
}

// A loop that begins with a test which leaves it, which stands at its end.
#[cycle(statement)]
fn push_turned<C: CallCode>(
    emitter: &mut Emitter,
    layout: &Layout,
    calls: &C,
    staying: Staying<'_>,
    rest: &[Stm],
    way: Way,
) -> Result<(), AllocError>
    requires arrays { All IsInFrame layout.now.arrays }
    requires test { is_small staying.test.now ≡ true }
    requires list { are_small staying.list.now ≡ true }
    requires rest { are_small rest.now ≡ true }
    requires labels { let plan = plan_in layout.now (C.lines calls.now) in
        emitter.old.free + (turned_loop plan.seats (tested plan staying.test.now staying.sense staying.list.now) (code_of plan rest.now)).labels < 2 ^ 32 }
    ensures { let plan = plan_in layout.now (C.lines calls.now) in
        OnOk result (emitter.new ≡ emitted emitter.old (turned_loop plan.seats (tested plan staying.entry.test.now staying.entry.sense staying.entry.list.now) (code_of plan rest.now)) way) }
{
    let start = emitter.take_label();
    let test = emitter.take_label();
    let between = emitter.take_label();
    emitter.go_on(Way {
        after: test,
        falls: false,
    })?;
    emitter.push_label(start)?;
    emitter.enter_loop(test, way)?;
    push_statements(emitter, layout, calls, staying.list, falling(between))?;
    emitter.push_label(between)?;
    push_list(emitter, layout, calls, rest, falling(test))?;
    emitter.close();
    emitter.push_label(test)?;
    emitter.push_branch(layout.places(), staying.test, staying.sense, start)?;
    emitter.go_on(way)
}

#[cycle(statement)]
fn push_block<C: CallCode>(
    emitter: &mut Emitter,
    layout: &Layout,
    calls: &C,
    body: &List<Stm>,
    way: Way,
) -> Result<(), AllocError>
    requires arrays { All IsInFrame layout.now.arrays }
    requires small { are_small body.now ≡ true }
    requires labels { emitter.old.free + (block_code (code_of (plan_in layout.now (C.lines calls.now)) body.now)).labels < 2 ^ 32 }
    ensures { OnOk result (emitter.new ≡ emitted emitter.old (block_code (code_of (plan_in layout.now (C.lines calls.now)) body.now)) way) }
{
    emitter.open_block(way)?;
    push_statements(emitter, layout, calls, body, way)?;
    emitter.close();
    Ok(())
}
