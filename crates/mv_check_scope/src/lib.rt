//! What names mean: the scopes of a unit, what was declared in them, and the types of values.
//!
//! - `NameSpace` (`find`, `find_here`, `declare`, `enter`, `leave`) and `Scope`: what a name or a tag means is what the
//!   innermost block that has it says, over plain lists of names in order of declaration, which a model shows. Behind it
//!   an ordered map numbers the names, each once, a map in order of declaration (`Bindings`) has under these numbers what decides
//!   the meaning of each name, and each step that led here (`Step`) what it hides: a look-up takes the same time in however many
//!   blocks, whatever the names, and leaving a block takes back what it declared, without a look at a name.
//!   `known_function`: the functions that are known without a declaration.
//! - `promotion`, `usual`, `converts`, `converted_to`, `promoted`: the integer promotions, the usual arithmetic
//!   conversions, and conversion as by assignment, with null; a conversion is written only where the type changes.
//!   `constant_value`: the value of an expression that is built of numbers and operators alone and whose evaluation
//!   divides by no zero.
//! - `SignatureList::number`: each signature stands once in the list, and has its place as its number. It is found by its
//!   spelling in an ordered map behind a model that shows the plain list, and the spelling takes no memory of its own to look for.
//! - `Domain`: the values of a domain behind a model that shows a plain list; the declarators that an attribute holds for share
//!   them, and so do the switches of an enumerated type, whose `EnumeratedType` has them made once.
//! - `mv_test_top` shows constants, conversions, hiding and signatures against C's rules, the constants as gcc has
//!   them.
#![tactic(auto)]

pub mod bindings;
pub mod constant;
pub mod convert;
pub mod domain;
pub mod enumerated;
pub mod known;
pub mod meaning;
pub mod scope;
pub mod signatures;
pub mod space;
pub mod step;
