// Lowered expressions, and values that last.
ghost use Rattle.std.specs.Prelude.{◌≡◌, ◌+◌, ◌++◌, ◌∷◌, [], ◌<◌, ◌^◌, IfOk, OnOk};
ghost use Rattle.mv_lower_expressions.specs.Values.{seen, put_away, made_low};
ghost use Rattle.mv_lower_spec.specs.Lowered.{is_empty, kept_if};

use crate::tree::is_low;
use mv_ir::stm::Stm;
use mv_ir::tree::Tree;
use mv_num::list::List;
use std::alloc::{AllocError, Global};

/// Code, the tree of a value where it ends, and what is above all temporaries that it writes.
#[derive(Drop)]
pub struct Value {
    pub code: List<Stm>,
    pub tree: Tree,
    pub top: u32,
}

/// Code of one statement.
pub fn one_statement(alloc: Global, stm: Stm) -> Result<List<Stm>, AllocError>
    ensures { IfOk result (λ code. code ≡ stm ∷ []) }
{
    followed_by(List::new(alloc), stm)
}

/// Code followed by a statement.
pub fn followed_by(mut code: List<Stm>, stm: Stm) -> Result<List<Stm>, AllocError>
    ensures { IfOk result (λ all. all ≡ code ++ stm ∷ []) }
{
    code.push(stm)?;
    Ok(code)
}

// Puts code behind other code.
fn append(code: &mut List<Stm>, more: List<Stm>) -> Result<(), AllocError>
    ensures { OnOk result (code.new ≡ code.old ++ more) }
{
    for stm in more.into_vec() {
        code.push(stm)?;
    }
    Ok(())
}

/// Code followed by other code.
pub fn followed_by_all(mut code: List<Stm>, more: List<Stm>) -> Result<List<Stm>, AllocError>
    ensures { IfOk result (λ all. all ≡ code ++ more) }
{
    append(&mut code, more)?;
    Ok(code)
}

/// Whether there is no code.
#[tactic(auto, using(crate::proofs::Emitting::empties))]
pub fn is_empty(code: &List<Stm>) -> bool
    ensures { result ≡ is_empty code.now }
{
    code.len() == 0
}

/// Puts a value into a temporary, where it lasts.
#[tactic(auto, using(crate::proofs::Emitting::emitted), unfolding(crate::specs::Values::put_away))]
pub fn put_away(value: Value, n: u32) -> Result<Value, AllocError>
    requires { n + 1 < 2 ^ 32 }
    ensures { IfOk result (λ v. seen v ≡ put_away n (seen value)) }
{
    let Value { code, tree, top } = value;
    Ok(Value {
        code: followed_by(code, Stm::Set(n, tree))?,
        tree: Tree::Temp(n),
        top: (n + 1).max(top),
    })
}

/// The value, put away unless it may stay a tree.
#[tactic(auto, unfolding(crate::specs::Values::put_away))]
pub fn kept_if(stays: bool, value: Value, n: u32) -> Result<Value, AllocError>
    requires { n + 1 < 2 ^ 32 }
    ensures { IfOk result (λ v. seen v ≡ kept_if stays n (seen value)) }
{
    if stays { Ok(value) } else { put_away(value, n) }
}

/// The value, put away where no operator can be put on its tree.
#[tactic(auto, unfolding(crate::specs::Values::made_low))]
pub fn made_low(value: Value, n: u32) -> Result<Value, AllocError>
    requires { n + 1 < 2 ^ 32 }
    ensures { IfOk result (λ v. seen v ≡ made_low n (seen value)) }
{
    let stays = is_low(&value.tree);
    kept_if(stays, value, n)
}
