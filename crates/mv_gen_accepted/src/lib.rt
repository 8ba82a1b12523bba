//! That no generated text is refused.
//!
//! - `generated_texts_are_accepted`: for each number the text of `mv_gen` for it is a program that is within the counts of
//!   `mv_count_limits` (`within`), so that there is no cause for which `build` refuses it (`images`): it answers with an
//!   image, unless memory is wanting.
//! - A crate of one law, without a test.
#![tactic(auto)]

ghost use Rattle.mv_gen_accepted.specs.Accepted.{TextsAreWithinCounts, TextsHaveImages};

pub use mv_count_limits::counted_programs_pass_no_limit;
use mv_front::one_verdict;

/// The text that is generated for a number is built: it is a program that is small enough by the counts over its source (`within`), and there is no
/// refusal of it (`images`). The call does nothing: its contract is the law.
pub fn generated_texts_are_accepted()
    ensures within { TextsAreWithinCounts }
    ensures images { TextsHaveImages }
{
    counted_programs_pass_no_limit();
    one_verdict();
}
