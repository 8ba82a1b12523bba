//! The linker: from the code of all functions and of their variants to an image, with tables of what a commit may patch.
//!
//! - `link`: the image is `image_with` of the parts. Its text is the assembled words of the stubs, of the code of all
//!   functions and of that of all variants, and no choice of short branches that all reach has fewer words. Each data
//!   word is its number or the address of the named function's entry. Its tables have the switches with the addresses of
//!   their words, the attributed functions with their entries, the variants with their addresses and their guard rows,
//!   and as sites exactly the slots, ascending, each with its function; the pointer switches, as pointer sites exactly the
//!   slots of four words, ascending, each with its pointer switch, and as targets the named functions with their entries.
//!   `Sites` comes exactly where there are more than 16,384 slots, one of four words counted twice, else `DataLimit`
//!   exactly where there are more than 262,144 data words, with their number, and else `TextLimit` only where the words
//!   pass the end of text. Assumed is that main and what the lines and data name are
//!   there, that fields fit, and that all labels have numbers below those of entries (`AreParts`); and of what goes into tables (`FitTables`),
//!   that names are identifiers, attributed functions and the switches of each ascend, a switch has 1 to 16 values of its
//!   type, a function 1 to 64 guard rows, each a range of such values, that the code of an attributed function or variant
//!   begins with words that are no slot, that slots call attributed functions alone and those of four words through
//!   pointer switches.
//! - `linking_law`: the linked lines may be assembled (`fits`); the start stands first, the stubs of the traps, that of
//!   commits and, where there is a pointer switch, the check stub behind it, each label once (`stubs`); the lines of each function and variant stand one behind the other
//!   from a known index on, its entry first and once, and its own labels once (`functions`); a line with its labels
//!   renamed stands where the line stands by the places before the renaming (`renamed`); without attributed functions and
//!   pointer switches there is no slot, no row of a function and no site (`plain`); an image has as many sites as all code
//!   has slots, those of four words counted twice (`sites`).
//! - Only tested: the words of two functions and a variant behind the stubs, by outside assemblers, with data that names
//!   a function, and their sites; the limits of text and data at their value and one above, with the texts of these
//!   refusals (`mv_test_linker`).
#![tactic(auto)]

mod error;
mod joined;
mod laws;
mod linking;
mod parts;
mod rows;
mod sites;

pub use error::LinkError;
pub use laws::linking_law;
pub use linking::link;
pub use parts::{Datum, PartFunction, PartPointer, PartSwitch, PartVariant, Parts};
pub use sites::site_weight;
