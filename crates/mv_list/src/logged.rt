//! The lines of the log of a run.

ghost use Rattle.std.specs.Prelude.{◌≡◌, ◌≤◌, ◌++◌, true, length, OnOk, IfOk};
ghost use Rattle.mv_list.specs.Events.{events_text, news_text, bound_name, bound_to_text, switches_of};

use crate::bound::{push_held, push_target};
use crate::names::{function_name, pointer_name};
use crate::parts::front;
use mv_bindings::binding::Event;
use mv_image::Image;
use mv_num::list::List;
use std::alloc::{AllocError, Global};

/// The numbers of a function's switches, and none where there is no such function.
fn switches_of(image: &Image, function: usize) -> &[u32]
    ensures switches { result.now ≡ switches_of image.now function }
    ensures few { length result.now ≤ 6 }
{
    match image.functions().get(function) {
        Some(row) => front(&row.switches, row.count as usize),
        None => &[],
    }
}

/// Adds what has become of a function or pointer switch.
fn push_news(
    alloc: Global,
    out: &mut Vec<u8>,
    image: &Image,
    event: &Event,
) -> Result<(), AllocError>
    ensures { OnOk result (out.new.items ≡ out.old.items ++ news_text image.now event.now) }
{
    let number = event.function as usize;
    if event.binding.bound {
        out.extend_from_slice(b"bound ")?;
        out.extend_from_slice(bound_name(image, number))?;
        push_bound_to(alloc, out, image, event)
    } else {
        out.extend_from_slice(b"freed ")?;
        out.extend_from_slice(bound_name(image, number))
    }
}

/// The name of a function, or of a pointer switch, which count on behind the functions.
fn bound_name(image: &Image, number: usize) -> &[u8]
    ensures { result.now ≡ bound_name image.now number }
{
    let functions = image.functions().len();
    if number < functions {
        function_name(image, number)
    } else {
        pointer_name(image, number - functions)
    }
}

/// Adds what it is bound to.
fn push_bound_to(
    alloc: Global,
    out: &mut Vec<u8>,
    image: &Image,
    event: &Event,
) -> Result<(), AllocError>
    ensures { OnOk result (event.now.binding.bound ≡ true → out.new.items ≡ out.old.items ++ bound_to_text image.now event.now) }
{
    let number = event.function as usize;
    if number < image.functions().len() {
        let switches = switches_of(image, number);
        push_held(alloc, out, image, switches, &event.binding)
    } else {
        push_target(out, image, &event.binding)
    }
}

/// A line for each event: what the function or pointer switch is bound to, or that it was freed.
#[tactic(auto, unfolding(crate::specs::Events::events_text))]
pub fn events(alloc: Global, image: &Image, log: &List<Event>) -> Result<Vec<u8>, AllocError>
    ensures { IfOk result (λ text. text.items ≡ events_text image.now log.now) }
{
    let mut out = Vec::new(alloc);
    let log = log.as_slice();
    for event in log {
        push_news(alloc, &mut out, image, event)?;
        out.push(b'\n')?;
    }
    Ok(out)
}
