//! The words of a command: which command they are, and what they ask for.
//!
//! `options` has the table: each command once with its operands and its options and a line on each, the version, and the least, greatest and default values. The
//! definitions have names, table and numbers of their own (`specs/Spelled.antt`), but the version, and that of a command (`specs/Commands.antt`)
//! makes a command of `clap`'s of that table, by whose promise words belong to operands and options, and reads the texts of
//! numbers and lists. `command_of` gives a command exactly where the words are one,
//! and it is that one; words are one command at most (`proofs/Same.antt`). What `help` and `version` write is made of the same table
//! (`specs/Help.antt`), and stands in the command. `oracle_of_words` gives the oracle by which the words pick (`specs/Oracles.antt`, `PicksBy`).
#![tactic(auto)]

mod command;
mod conversion;
mod help;
mod items;
pub mod number;
pub mod options;
mod oracles;
mod program;

pub use command::{Command, RunOptions, command_of, oracle_of_words};
pub use conversion::Conversion;
pub use items::Item;
pub use oracles::Oracle;
