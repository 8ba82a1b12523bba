//! What the run of an image does, by what the program means.
//!
//! - `images_behave`: where the stubs stand in an image that keeps the rules and patches no environment call, and the run
//!   does what a call of `main` does, the run of the image does what the program means in the same hart, with the same acts
//!   of its polls (`Behaves`), on each input, whatever the fetches pick: after n instructions it has written, logged and
//!   taken no more than the meaning has at bound n, and it has ended, by an exit or a trap and never by a fault, only as
//!   that meaning has, with all its output; it has done all of the meaning at each bound at which 100 times one more than
//!   the work is at most n; each of its fetches has one choice, and no instruction wants memory. While no commit is under
//!   way, as in a run that has ended, text is that of the present bindings and nothing older may be fetched; while one is,
//!   each word of text is that of the bindings before or that of those behind, and pc stands at no word that the commit
//!   changes. An environment call is made while none is under way, at a word that no binding changes. And no instruction
//!   loads from an address that is closed to its place (`LoadsWhatIsOpen`), where `main` keeps to that.
//! - `unchanged_text_law`: a commit, a revert or a poll that is asked for while a frame of an attributed function is live
//!   changes no word of text, no binding and nothing of the log; and where all functions are free, settled text is the
//!   image's, word for word.

ghost use Rattle.mv_refine_machine.specs.Runs.Laws.{ImagesBehave};
ghost use Rattle.mv_refine_machine.specs.Runs.Unchanged.{FreeTextIsItsOwn, LiveFramesRefuse};

use crate::commits::{quiet_is_tested, sound_places_tell, watched_ends_law};
use crate::stores::text_between_law;

/// Where the stubs stand in an image that keeps the rules, no environment call is patched, and its run does what `main` does,
/// the run does what the program means: the same output, in the end the same exit status or trap, no more than the meaning at
/// any time, and all of it in time. Each fetch has one choice, text is that of the bindings or between those of a commit that
/// is under way, and no instruction wants memory. The call does nothing: its contract is the law.
pub fn images_behave()
    ensures { ImagesBehave }
{
    quiet_is_tested();
    sound_places_tell();
    text_between_law();
    watched_ends_law();
}

/// What leaves text as it is. `live`: a commit, a revert or a poll that is asked for while a frame of an attributed function
/// is live. `free`: where all functions are free, settled text is the image's. The call does nothing: its contract is the law.
pub fn unchanged_text_law()
    ensures live { LiveFramesRefuse }
    ensures free { FreeTextIsItsOwn }
{}
