//! What source and machine share: bindings, what changes them, and the codes of orders and traps.
//!
//! - `binding::Binding` is what an attributed function or a pointer switch is bound to, and `Event` tells of a changed one. `Binding::free` gives
//!   the free binding. `action::Action` is what the operator does at a poll, `specs/Acts.antt` what a poll may take in any hart, and `stop::Stop` why
//!   an evaluation stops before its end.
//! - `orders` and `traps` name the codes of commits, reverts and traps, in code as in `specs/`, and the depth at which a call traps.
//! - Sources stand on it and machines do, and neither on the other.
#![tactic(auto)]

pub mod action;
pub mod binding;
pub mod orders;
pub mod stop;
pub mod traps;
