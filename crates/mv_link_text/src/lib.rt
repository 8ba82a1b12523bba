//! The text of a linked image with tables: where the stubs, the functions and their variants stand, and what bindings patch.
//!
//! - `linked_text_law`: the text of a linked image has the assembled words (`words`), with the start at its beginning and
//!   the stubs of the traps and of commits at their labels (`stubs`). The codes of functions and variants stand behind
//!   them, one behind the other (`codes`). The code of a function that isn't attributed, and that of a variant, is `Placed`
//!   at its entry (`plain`); that of an attributed function behind its first word, in which its own binding shows and no
//!   other (`patched`). Of all these words none is ever patched but those of slots. A slot is a site of the attributed
//!   function that it calls, and no other shows there (`slots`), and one of four words a pointer site of the pointer switch
//!   that it calls through (`points`); each of these is a line of a code (`calls_in_codes`). The image says where the stub
//!   of such calls is (`check`), and has as targets the entries of all functions where each has a name (`targets`).
//! - A crate of one law, without a test.
#![tactic(auto)]

ghost use Rattle.mv_link_text.specs.Laws.{WordsAreThere, StubsStandInText, CodesAscend, PlainCodeStands, PatchedCodeStands, SlotsAreSites, PointsAreSites, PointsStandInCodes, CheckIsTold, TargetsAreFunctions};

use mv_linker::linking_law;
use mv_refine_machine::{code_is_placed, texts_are_found};

/// What stands in the text of a linked image, for all parts that can be linked. The call does nothing: its contract is the law.
pub fn linked_text_law()
    ensures words { WordsAreThere }
    ensures stubs { StubsStandInText }
    ensures codes { CodesAscend }
    ensures plain { PlainCodeStands }
    ensures patched { PatchedCodeStands }
    ensures slots { SlotsAreSites }
    ensures points { PointsAreSites }
    ensures calls_in_codes { PointsStandInCodes }
    ensures check { CheckIsTold }
    ensures targets { TargetsAreFunctions }
{
    linking_law();
    code_is_placed();
    texts_are_found();
}
