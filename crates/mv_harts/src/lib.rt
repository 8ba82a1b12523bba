//! Several harts on the image of a program: `run_harts`, and all that the program `mvharts` does.
//!
//! - `run_harts(alloc, built, schedule, sources, sinks, oracle, actions)` runs the image of a `Built` in two to four harts. Its contract (`specs/HartsRan.antt`)
//!   names one run of harts (`harts_after` of `mv_harts_runs`) that is what was done: each hart's instructions, its stop and what its polls took; the bindings that
//!   each commit left; each sink grew by exactly what its hart wrote, and each source lost exactly what its hart took; each count of faults is as before, but that of
//!   the device at which a hart failed, which rose, by one at most, so that device was asked nothing more; a hart whose read failed stands before a read, and one
//!   whose write failed before a write; the oracle was asked once for each instruction, and for each read or write that failed.
//! - Of that run (`IsKept`): no hart fetches a stale word, in any turn; text is that of hart 0's bindings, or between two while a commit is under way; each
//!   hart is its own run alone with what its polls took, and adopts the commits of hart 0 in order, none skipped; and what each hart does is what the
//!   program means in it.
//! - `built_programs_are_runnable`: what `build` gives is an image of which `run_harts` asks no more.
//! - An error of `run_harts` is want of memory; then each sink grew by what its hart wrote by some turn, and each count of faults is as before, but that of
//!   the device at which a hart failed by then, which rose, by one at most (`Broken`).
//! - `mvharts(alloc, words, shelf, out, notes, oracle)` does all that the program does (`specs/Outcomes.antt`). With `Done`, `out` grew by exactly the text
//!   (`specs/Texts.antt`) of one such run, by the schedule that the words ask for (`mv_harts_words`), of one image that `mv_build` gives of the text
//!   under FILE. After `OutputFault` it grew by less of that, and after `Memory`, `Usage`, `ShelfFault` and `Refused` it is unchanged; each of
//!   these has its cause. The files of the shelf are unchanged. `notes` grew by the last line of the status (`mv_notes`).
//!   A device that failed is asked nothing more: the counts of `shelf` and `out` are as before, but for that of the device that the status due names, which is one
//!   more at most. A shelf that tells which names it was asked to load was asked for FILE, once, and for nothing else; of words that are no command for nothing.
//!   The count of `notes` is as before, and one more at most with `OutputFault`.
//! - Tested by the rows of `mv_test_harts` and one run of `mv_harts_cli`.
#![tactic(auto)]

mod devices;
mod ends;
mod harts;
mod runnable;
mod text;
mod top;

pub use ends::{HartEnd, HartStop, HartsEnd};
pub use harts::run_harts;
pub use mv_harts_one::Taken;
pub use mv_harts_turns::Committed;
pub use mv_notes::Status;
pub use runnable::built_programs_are_runnable;
pub use top::mvharts;
