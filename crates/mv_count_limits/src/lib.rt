//! Programs that are small by counts over the source pass no limit on what they are compiled to.
//!
//! - `counted_programs_pass_no_limit`: refusal 8 never comes for a function where its declared words and 8 for each level
//!   of its depth are at most 480 (`frames`); 14 never where the direct calls of attributed functions and twice those
//!   through pointer switches, times `1 + assignments`, summed over the functions, are at most 16,384 (`sites`); and 9
//!   never where `400 + 40 * (1 + nodes) * (1 + assignments)`, summed over the functions, is at most 131,072 (`texts`). So
//!   `build` answers a program that is within these counts and has at most 262,144 words of data with an image, unless
//!   memory is wanting (`none`).
//! - A crate of one law, without a test.
#![tactic(auto)]

ghost use Rattle.mv_count_limits.specs.Counted.{CountedPassNone, FramesAreCounted, SitesAreCounted, TextsAreCounted};

use mv_accepts_programs::programs_of_texts_are_well_formed;
use mv_count_code::code_is_short;
use mv_parts::parts_law;

/// A source is refused for no frame, no sites and no text below the counts over it. The call does nothing: its contract is the law.
///
/// `frames`: of a function whose frame passes the limit, the declared words and eight for each level of its depth are more than 480. `sites`: what a program
/// is compiled to has at most as many sites as the count over the source; `texts`: where its text passes the limit, so does that count. `none`: a program
/// that is within these counts, and whose globals have few enough words, passes no limit, so `build` answers it with an image, unless memory is wanting.
pub fn counted_programs_pass_no_limit()
    ensures frames { FramesAreCounted }
    ensures sites { SitesAreCounted }
    ensures texts { TextsAreCounted }
    ensures none { CountedPassNone }
{
    programs_of_texts_are_well_formed();
    code_is_short();
    parts_law();
}
