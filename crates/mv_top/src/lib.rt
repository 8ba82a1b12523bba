//! The top call: all that the program `multiverse` does, over a shelf of files, an input, an output and notes.
//!
//! `multiverse(alloc, words, shelf, input, out, notes, oracle, probes)` does all that the program does. Its contract
//! says of each status when it comes, what was taken from `input`, what was written, saved and what the probes were told
//! (`specs/Outcomes.antt`, and a file for each command):
//!
//! - `Usage`: the words are no command (`mv_command`). `ShelfFault`: the count of `shelf` rose, or its told files have no
//!   file of the name that the command loads. `Refused` 1 to 7 of `run`, `build` and `eval`: the text of FILE is refused so, by `mv_front`'s definition.
//!   `BadImage` of `exec`, `list` and `disasm`: the code and the offset of the first fault of the bytes, by `mv_image`'s definition. In
//!   these `input` and `out` are unchanged, and no probe is told anything. The files of the shelf are unchanged with each
//!   command but `build` and the conversions.
//! - `run FILE` (`specs/Running.antt`): `Refused`: the text is no program; or its program passes a limit, as `mv_build` says; or, behind all these, 15 with the
//!   number of the first item of LIST that is no action of the program (`mv_actions`). `input` and `out` are unchanged. Each other answer but `Memory` is that
//!   of an execution (`mv_refine`) of an image that `mv_build` gives of the text, with the actions of LIST: there is one image, with its tables and the bodies
//!   and variants that it is linked of, and one run of it, on the bytes that were taken from `input` and whatever may come behind them, and by the oracle's way
//!   where that is told. `Ended`, `Trapped` and `Steps` are how this run stands after N instructions, `out` grew by exactly its output, `input` lost exactly
//!   what it took, each probe was told exactly its log in order and left exactly where that used up its patience, the others keep their order, and the oracle
//!   picked by its way for each instruction. The lines of `--bindings` and `--words` are those of its bindings and of its text against the image's, those of
//!   `--log` are exactly its log, and `--stats` has how many instructions it executed. After `InputFault` and `OutputFault` it is the same of fewer
//!   instructions, before the getchar or the putchar that failed.
//! - This image does what the program means with the actions, on each input and whatever the fetches give, also while
//!   commits, reverts and polls rewrite its text. Where the run has ended, its bindings and its text are the meaning's, and
//!   each probe heard exactly the meaning's log. `MachineFault` comes of it only where the input tells what is no byte.
//! - `build FILE IMAGE` (`specs/Building.antt`): refused as `run` without items. `Done`: the shelf tells under IMAGE bytes that spell
//!   an image which `mv_build` gives of the text, and all other names are as before. `ShelfFault` of the save: the count rose, and other names
//!   are as before; with `Refused` all are, and with `Memory` too. `input` and `out` are unchanged.
//! - `upgrade IMAGE OUT`, `asm FILE IMAGE`, `elf IMAGE OUT`, `unelf FILE OUT` (`specs/Converting.antt`, over the same as `build`: `specs/Saving.antt`): `Done`:
//!   the shelf tells under the second name the file that `mv_convert` defines. `BadImage`, `BadLine` and `Refused` 3, 9 and 13: the first fault of the first
//!   file, by its definition.
//! - `check FILE IMAGE` (`specs/Checking.antt`): refused as `build`. Else the bytes of IMAGE are compared with those of an image which `mv_build` gives of the
//!   text of FILE: `Done` where they are the same, and else `Differs` with the first offset at which they aren't. Nothing is saved or written.
//! - `exec IMAGE` (`specs/Executing.antt`): 15 with the first item of LIST that is no action of the image that the bytes spell; else
//!   one run of this image is what was done, as above, with no word on any source. `Memory` may come of the run too.
//! - `list IMAGE` and `disasm IMAGE` (`specs/Listing.antt`), `Done`: `out` grew by exactly the listing of the image that the bytes spell, with `--words` by
//!   exactly its patch view, or by exactly its code as assembler text, which `asm` reads as that code.
//! - `eval FILE --bound K` (`specs/Evaluating.antt`), where the text of FILE is a program: `Ended`, `Trapped` and `Steps` are the end of its
//!   meaning at K on the first 16,777,216 bytes of `input`, or all of it; exactly these bytes were taken,
//!   and `out` grew by exactly the output of that meaning. After `InputFault`, `OutputFault` and `Memory` it is as
//!   `mv_eval` says. No probe is told anything.
//! - `gen NUMBER` (`specs/Generating.antt`): with `--source`, `Done`, `out` grew by exactly the text of the number. Without it that text is run as above on no
//!   input, without an operator and to the default limit, and then `out` grew by exactly the summary. It is never `Refused`. `input` is unchanged.
//! - `help`, `help COMMAND`, `version` (`Prints` in `specs/Outcomes.antt`): `Done`, `out` grew by exactly the text that `mv_command` defines; `input` and the
//!   files are unchanged.
//! - `InputFault`, `OutputFault`: the count of `input`, of `out` or of `notes` rose.
//! - A device that failed is asked nothing more (`specs/Uses.antt`): the counts of `shelf`, `input` and `out` are as before, but for that of the device that
//!   the status due names, which is one more at most; with `Memory` of `gen` that of `out` may be too. A shelf that tells which names it was asked to load was
//!   asked for FILE or IMAGE of the command, once, and for nothing else, `check` for IMAGE behind FILE where that has an image; of `gen`, `help` and `version`,
//!   of words that are no command and of words that couldn't be read all is as before.
//! - `notes` grew by exactly the lines that were asked for and the last line of the status (`mv_notes`); after `OutputFault` of `out` and after `Memory` they
//!   are as before. Where there was no memory to make the lines, the notes are as before and the status is `Memory`; where a write to them failed, they grew by
//!   less.
//! - Each status comes where its cause stands, unless a count rose (`specs/Decisions.antt`): no command, a missing file, each refusal 1 to 7, each code and
//!   offset of bytes that are no image, 15 unless the program passes a limit, and the end of an evaluation; of a run the end of the meaning on what was taken
//!   and whatever may come behind it, at some bound, where N is at least 100 × (1 + the work there), unless the program passes a limit, and else how it stands;
//!   `Done` of `list`, of `disasm`, of a conversion of a file that it takes, of `gen --source`, of `help` and `version`, and of `build` unless the program
//!   passes a limit; of `exec` how its run stands; of `gen` an end, a trap, or that the steps are used up. No program passes a limit that is within the counts
//!   over its source (`mv_count_limits`). Want of memory may come in place of each.
//! - Fetches are picked by the oracle that is handed in. `multiverse_by_words` hands in the one that the words name by `--oracle`, or the one that always picks
//!   the oldest word, and says the same of its way (`specs/Picking.antt`); where there was no memory for it, it is `Memory` as of words that couldn't be read.
//! - Asked is that each probe that tells its patience has some left.
//!
//! `run` really runs: a body that writes what the program means and executes nothing, or one instruction fewer, is
//! refused by the clause on one run. Tested through the programs of `mv_test_top`. Where nothing is told of an object,
//! nothing is said of what it holds.
#![tactic(auto)]

mod build;
mod check;
mod convert;
mod eval;
mod exec;
mod files;
mod generate;
mod list;
mod picking;
mod run;
mod save;
mod top;

pub use mv_front::Refusal;
pub use mv_notes::Status;
pub use picking::multiverse_by_words;
pub use top::multiverse;
