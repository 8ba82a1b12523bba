//! What the tables of an image need to know of a source program.
//!
//! `specs/Facts.antt` says it of programs; the laws here follow from it alone. That the programs of accepted sources have these facts
//! is proved above.
//!
//! - definitions: `HasTableFacts`: switches are different scalar globals of integer types, each with 1 to 16 different
//!   values of its type; an attributed function has at most six of them, in order, and 1 to 64 assignments; the names of
//!   both are identifiers of 1 to 63 bytes and no keywords, and so are those of the pointer switches and of all functions;
//!   each global has a word; there are at most 64 switches, 64 pointer switches and 1,000 functions.
#![tactic(auto)]
