//! Words of 32 bits, and the containers that the trees and tables of every crate are made of.
//!
//! - `word::{add, sub, mul, mul_high_ss, mul_high_su, mul_high_uu, div_s, div_u, rem_s, rem_u, shl, shr_s, shr_u, lt_s,
//!   lt_u, narrow, of_signed}`: each answer is its formula over whole numbers in `specs/Words.antt`. The divisions ask
//!   for a divisor that isn't 0.
//! - `bytes::words_of_bytes` and `bytes_of_words` are the little-endian words of bytes and back; `bytes_and_words`
//!   carries the law that each undoes the other.
//! - `List`, `Text` and `Boxed` do what a plain list, a list of bytes and a value do. A push that is refused leaves the
//!   list and hands the item back, and an `append` that is refused leaves it too.
//! - `Kind::number` and `Kind::of_number` are each other's inverses, `None` exactly above 6.
//! - `regions` says where the regions of the machine's memory begin and how long they may be, as `specs/Regions.antt` does.
//! - `limits` has a limit that several crates test; `specs/Limits.antt` has all.
//! - `results::both`: what is there with what the next step gives. Where the step fails, what is there is let go.
//! - Only tested: conversions, by what gcc gives (`mv_test_top`).
#![tactic(auto)]

pub mod boxed;
pub mod bytes;
pub mod kind;
pub mod limits;
pub mod list;
pub mod regions;
pub mod results;
pub mod text;
pub mod word;
