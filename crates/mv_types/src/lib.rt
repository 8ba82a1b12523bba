//! The rules of a whole unit: what its declarations at file scope designate and define, and the program that a unit is that breaks no
//! rule and exceeds no limit.
//!
//! - `check`: the program of a unit that breaks no rule and is within the limits; the first place at which a rule is
//!   broken, with the least rule there; or, where none is, the least limit that is passed, with the first count that
//!   passes it in the order of the text. `specs/Units.antt` has the judgement on a unit, item by item and declarator by declarator over what was
//!   declared before; `specs/Objects.antt` and `specs/Functions.antt` say how often an object or a function may be
//!   declared, and what its declarations come to; `specs/Foreknown.antt` what is known of names from the start
//!   ([docs/declarations.md](declarations.md)). A bare name that stands again in an attributed declaration is passed over: by
//!   `specs/Repeated.antt` it declares nothing new.
//! - `mv_test_top` shows what 187 units are answered. Limits 1 to 4 are tested before the program is made.
#![tactic(auto)]

pub mod check;
pub mod contents;
mod counts;
pub mod error;
pub mod foreknown;
pub mod functions;
pub mod objects;
pub mod program;
pub mod units;
