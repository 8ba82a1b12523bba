//! The code of statements, and what it does on any machine that runs it. A module for each layer, with its own specifications:
//!
//! - `trees`: `push_tree` and others put exactly the lines that leave a tree's value in a register; `tree_code_law` says what these lines do.
//! - `statements`: the lines of statements without control, which store, divide, read and write elements, and leave a result;
//!   `statement_code_law` says that they do what the statement means, in no more instructions than it costs.
//! - `control`: `push_statements` puts the lines of branches, loops and blocks around these, by where control goes behind them;
//!   `flow_code_law` says that they do what the statements mean, at every bound, if the code of each call does.
//!
//! What each proves exactly, and what is assumed, stands in the headers of the modules.
#![tactic(auto)]

pub mod control;
pub mod statements;
pub mod trees;
