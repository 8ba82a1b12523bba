//! What is linked of a program: the code of its functions, and for each attributed one its variants with their code and the rows that lead to them.
//!
//! - `shorts_of`: of each function that has one a short body, which can stand in place of calls of it (`AreShortsOf`).
//! - `generics_of`: of each function of a well-formed program the body that it is lowered to, made ready or not, and
//!   with its temporaries renamed (`AreGenerics`).
//! - `codes_of`: the code that is selected for each of these bodies (`HaveCode`); all their frames then have at most 2,032
//!   bytes, and their constants 32 bits. `Frame` comes where one has more, with the first such function and its bytes (`PassesFirstFrame`).
//! - `attributed_numbers`: the numbers of the attributed functions, ascending, exactly as `specs/Numbers.antt` defines
//!   them. `tables_of`: the variants of each (`AreTables`), which there is room for behind code of some size (`HaveRoom`);
//!   `Limit` comes with the first that there is none for, with how much code there is up to it (`PassesFront`), and no
//!   other is made. `part_functions`: each with its name, its number, its switches, and of each variant the code of its
//!   body, the two words that stand in place of a call exactly where its body has such, and its guard rows
//!   (`ArePartFunctions`). The frame of a variant is small enough where its function's is, so none is refused.
//! - `part_switches`: the name, the word, the type and the domain of each switch; `part_pointers`: the name and the word of
//!   each pointer switch; `part_targets`: the names of all functions where there is a pointer switch; exactly as
//!   `specs/Switches.antt` defines them.
//! - `size_of`: how many words and sites the code of functions has, behind the stubs and with each branch as one word.
//!   `site_count`: how many slots all code has, those of four words counted twice, as far as a `u64` goes. `labels_fit`:
//!   whether there are numbers for all labels below those of entries.
//! - `parts_law`: where the names and domains of a well-formed program can stand in tables, and there are numbers for its
//!   labels and room for its data, all this is what `link` asks for (`parts`); its switches and pointer switches are
//!   globals (`switches`); there are as many words of data as its globals have (`data`); and counts over the source bound
//!   its sites, the places that a plan patches, and its text where that is too long (`counts`), and how much code there is
//!   of the functions and of their first variants (`sizes`).
#![tactic(auto)]

mod attributed;
mod counts;
mod generics;
mod laws;
mod switches;

pub use attributed::{attributed_numbers, part_functions, tables_of};
pub use counts::{Counted, labels_fit, site_count, size_of};
pub use generics::{codes_of, generics_of, shorts_of};
pub use laws::parts_law;
pub use switches::{part_pointers, part_switches, part_targets};
