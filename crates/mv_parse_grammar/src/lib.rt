//! The grammar of the profile (C11 6.5, 6.7 to 6.9): what it is for the tokens of a source to be a
//! translation unit, and the laws of it that a parser needs.
//!
//! A phrase is a list of terminals, tokens with their spelling. The nonterminals are relations
//! between phrases and trees, production by production; no parser is in them.
//!
//! - `specs/` has the grammar as relations between terminals (tokens with their spelling) and trees, production by
//!   production in the order of [docs/language.md](language.md): `Expressions`, `Declarations`, `Statements`, `Units`,
//!   over the six words of `Language`. No parser is in them. Beside them stands what a reader without backtracking takes
//!   (`ExpressionReader` to `UnitReader`), which the parser's code is proved against; `proofs/` shows that it takes
//!   exactly the phrases, and breaks off exactly where none goes on.
//! - `one_reading`: the same text and tokens are no two units (C11 6.8.4.1p3 included: an `else` has one `if`).
//! - `one_verdict`: tokens either are a unit or break off at one place, and never both: those before the place begin a
//!   unit, and those up to and with the one there begin none, whatever follows.
//! - A crate of laws, without a test.
#![tactic(auto)]

ghost use Rattle.std.specs.Prelude.{◌≡◌, ◌⊎◌, ℕ, List};
ghost use Rattle.mv_syntax.specs.declared.place.Place.{Place};
ghost use Rattle.mv_syntax.specs.declared.token.Tokens.{Tokens};
ghost use Rattle.mv_syntax.specs.declared.unit.Unit as unit;
ghost use Rattle.mv_parse_grammar.specs.Reading as spec;

/// The same tokens are no two units.
pub fn one_reading()
    ensures { (text : List ℕ) (tokens : Tokens) (u v : unit.Unit) → spec.Reads text tokens u → spec.Reads text tokens v → u ≡ v }
{}

/// Tokens are a unit, or they break off at one place; never both.
pub fn one_verdict()
    ensures either { (text : List ℕ) (tokens : Tokens) → ((u : unit.Unit) × spec.Reads text tokens u) ⊎ ((place : Place) × spec.BreaksAt text tokens place) }
    ensures not_both { (text : List ℕ) (tokens : Tokens) (u : unit.Unit) (place : Place) → spec.Reads text tokens u → spec.BreaksAt text tokens place → ⊥ }
    ensures one_place { (text : List ℕ) (tokens : Tokens) (place other : Place) → spec.BreaksAt text tokens place → spec.BreaksAt text tokens other → place ≡ other }
{}
