//! The actions of a list of items.

ghost use Rattle.std.specs.Prelude.{◌≡◌, ◌<◌, ◌^◌, All, IsTrue, IfOk, IfErr, length, slice_get};
ghost use Rattle.mv_num.specs.Words.{word_of};
ghost use Rattle.mv_ast.specs.Actions.{fits};
ghost use Rattle.mv_bindings.specs.Acts.{IsOfWord};
ghost use Rattle.mv_command.specs.Items.{Ascend};
ghost use Rattle.mv_machine.specs.Actions.{fits_rows as fits_rows};
ghost use Rattle.mv_actions.specs.Operator.{is_of_kind, is_named, switch_named, kind_of_switch, flip_of, AreActions, AreRefusedFor, IsActions, IsRefusedFor, IsImageActions, IsImageRefusedFor};

use crate::controls::{Control, controls_in, controls_of};
use crate::error::ActionsError;
use mv_ast::program::Program;
use mv_bindings::action::Action;
use mv_command::Item;
use mv_image::Image;
use mv_image::facts::within_limits;
use mv_num::kind::Kind;
use mv_num::list::List;
use std::alloc::Global;

// Whether a number is a value of an integer type (C11 6.2.5).
fn is_of_kind(kind: Kind, value: i64) -> bool
    ensures { result ≡ is_of_kind kind value }
{
    let (least, greatest) = match kind {
        Kind::Bool => (0, 1),
        Kind::SChar => (-128, 127),
        Kind::UChar => (0, 255),
        Kind::Short => (-32_768, 32_767),
        Kind::UShort => (0, 65_535),
        Kind::Int => (-2_147_483_648, 2_147_483_647),
        Kind::UInt => (0, 4_294_967_295),
    };
    least <= value && value <= greatest
}

// The word of a number, its two's complement.
#[tactic(auto, unfolding(mv_num::specs::Words::word_of))]
fn word_of(value: i64) -> u32
    ensures { result ≡ word_of value }
{
    value.rem_euclid(1 << 32) as u32
}

fn is_named(name: &[u8], switch: &Control) -> bool
    ensures { result ≡ is_named name.now switch.now }
{
    switch.name.bytes() == name
}

// The number of the first switch of this name.
fn switch_named(switches: &[Control], name: &[u8]) -> Option<usize>
    ensures { result ≡ switch_named switches.now name.now }
{
    switches.iter().position(|switch| is_named(name, switch))
}

// The type of a switch.
fn kind_of_switch(switches: &[Control], switch: usize) -> Option<Kind>
    ensures { result ≡ kind_of_switch switches.now switch }
{
    switches.get(switch)?.kind
}

// What an item does.
fn flip_of(switches: &[Control], item: &Item) -> Option<Action>
    requires { length switches.now < 2 ^ 32 }
    ensures { result ≡ flip_of switches.now item.now }
{
    let switch = switch_named(switches, item.name.bytes())?;
    let kind = kind_of_switch(switches, switch)?;
    if !is_of_kind(kind, item.value) {
        return None;
    }
    Some(Action::Flip {
        switch: switch as u32,
        value: word_of(item.value),
    })
}

// The actions of some items on these switches.
fn actions_on(
    alloc: Global,
    switches: &[Control],
    items: &List<Item>,
) -> Result<Vec<Action>, ActionsError>
    requires few { length switches.now < 2 ^ 32 }
    requires ascend { Ascend 0 items.now }
    ensures ok { IfOk result (λ actions. AreActions switches.now items.now actions.items) }
    ensures refused { IfErr result (λ error. AreRefusedFor switches.now items.now error) }
{
    let mut actions = Vec::new(alloc);
    let mut number = 0;
    for item in items.as_slice() {
        number += 1;
        let Some(flip) = flip_of(switches, item) else {
            return Err(ActionsError::Refused(number));
        };
        actions.resize(item.poll as usize - 1, Action::Skip)?;
        actions.push(flip)?;
    }
    Ok(actions)
}

/// The actions of some items, whose polls ascend. A refusal names the first item that does nothing; all other errors are want of memory.
pub fn actions_of(
    alloc: Global,
    program: &Program,
    items: &List<Item>,
) -> Result<Vec<Action>, ActionsError>
    requires few { length program.now.switches < 2 ^ 32 }
    requires ascend { Ascend 0 items.now }
    ensures ok { IfOk result (λ actions. IsActions program.now items.now actions.items) }
    ensures fit { IfOk result (λ actions. All (λ action. IsTrue (fits program.now action)) actions.items) }
    ensures words { IfOk result (λ actions. All IsOfWord actions.items) }
    ensures refused { IfErr result (λ error. IsRefusedFor program.now items.now error) }
{
    let switches = controls_of(alloc, program)?;
    actions_on(alloc, switches.as_slice(), items)
}

/// The actions of some items on the switches of an image, whose polls ascend. A refusal names the first item that does nothing; all other
/// errors are want of memory.
pub fn actions_of_image(
    alloc: Global,
    image: &Image,
    items: &List<Item>,
) -> Result<Vec<Action>, ActionsError>
    requires { Ascend 0 items.now }
    ensures ok { IfOk result (λ actions. IsImageActions image.now items.now actions.items) }
    ensures fit { IfOk result (λ actions. All (λ action. IsTrue (fits_rows image.now.switches action)) actions.items) }
    ensures words { IfOk result (λ actions. All IsOfWord actions.items) }
    ensures refused { IfErr result (λ error. IsImageRefusedFor image.now items.now error) }
{
    within_limits(image);
    let switches = controls_in(alloc, image)?;
    actions_on(alloc, switches.as_slice(), items)
}
