//! Bodies of two instructions, which stand at a call in place of a jump.
//!
//! - `inline_of`: the two words of a body exactly where its code has one of five shapes: nothing; the return of a
//!   constant, of a parameter or of a global scalar; the store of a parameter to a global scalar.
//! - `inline_law`: where these two words stand in text, two steps do what the body means, also on a machine that runs
//!   only steps that load what the body may, change no register but a0 and t0, and load no word but that of a global that
//!   the body reads and that isn't read as a bound value; and both have encodings.

mod inline;
mod laws;

pub use inline::inline_of;
pub use laws::inline_law;
