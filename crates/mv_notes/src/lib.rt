//! How a command ended, and what is written to its notes.
//!
//! - `Status`: how a command ended, the text of which is the last line of the notes (`specs/Lines.antt`), and the status of the
//!   process (`Status::number`).
//! - `lines_of_run`: exactly the lines that a run is asked for, of its image, of the machine as it stopped, of its log, of the number of its instructions and,
//!   behind a trap, of the place from where it departed last. An error is want of memory, also where the log wasn't kept for it.
//! - `report`: the notes grew by exactly the lines that were asked for and the last line, and the status is the one that was
//!   due. With `Memory` and `OutputFault` nothing is written. Where there was no memory to make the lines, the notes are as
//!   before and the status is `Memory`; where a write failed, they grew by less and the status is `OutputFault`,
//!   and nothing more was written: the count of faults is one more at most. Else it is as before, also where `OutputFault` was due,
//!   and so nothing was owed.
//! - Tested through the programs of `mv_test_top`.
#![tactic(auto)]

mod notes;
mod status;

pub use notes::{Performed, lines_of_run, report};
pub use status::Status;
