//! Short bodies of functions, to stand in place of calls of them.

ghost use Rattle.std.specs.Prelude.{IfOk, IfSome};
ghost use Rattle.mv_ir.specs.Live.{IsWhole};
ghost use Rattle.mv_ir.specs.WellFormed.{IsWellFormed};
ghost use Rattle.mv_variants.specs.Bound.Shorts.{IsShortened};

use crate::general::general;
use mv_expand::is_short;
use mv_ir::body::Body;
use mv_ir::stm::Stm;
use mv_num::list::List;
use mv_select::bodies::code_has_words;
use std::alloc::{AllocError, Global};

/// How many statements code has at most that it is tried for.
const MOST: usize = 12;

/// A short body of a function, given the body that it is lowered to, where one is found.
#[tactic(auto, using(crate::proofs::Tidied::none_short, crate::proofs::Tidied::is_shortened))]
pub fn short_of(alloc: Global, body: &Body) -> Result<Option<Body>, AllocError>
    requires formed { IsWellFormed body.now }
    requires whole { IsWhole body.now }
    ensures { IfOk result (λ short. IfSome short (IsShortened body.now)) }
{
    if !may_be_short(body.code.as_slice()) {
        return Ok(None);
    }
    let none: List<Option<Body>> = List::new(alloc);
    let short = general(alloc, none.as_slice(), body)?;
    code_has_words(&short.code);
    if is_short(alloc, &short)? {
        Ok(Some(short))
    } else {
        Ok(None)
    }
}

// Whether it is worth while to try: the statements are few, and none of them is a call.
fn may_be_short(code: &[Stm]) -> bool {
    if code.len() > MOST {
        return false;
    }
    for stm in code {
        if let Stm::Call(_, _, _) = stm {
            return false;
        }
    }
    true
}
