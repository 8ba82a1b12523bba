//! The words of the program `mvharts`, and the schedule that they ask for.
//!
//! - `options` has the table of operands, and the least and greatest values. `command_of` gives what the words ask for exactly where they are right:
//!   `clap` finds no fault with them by that table, and the texts of numbers are decimal numerals within their bounds (`specs/Asked.antt`).
//! - `schedule_of`: exactly the schedule of a number (`specs/Schedules.antt`), each turn of which is of one of the harts.
//! - Tested by the rows of `mv_test_harts` and one run of `mv_harts_cli`.
#![tactic(auto)]

mod command;
pub mod options;
mod program;
mod schedule;

pub use command::{Command, command_of};
pub use schedule::schedule_of;
