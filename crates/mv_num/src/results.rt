//! Results of several steps.

ghost use Rattle.std.specs.Prelude.{◌≡◌, Ok, Err, IfOk, IfErr};

/// What is there and what the next step gives. Where the step fails, what is there is let go, by one call: a large value
/// that goes out of scope at a `?` is proved anew in each function.
pub fn both<T: Drop, U: Drop, E: Drop>(first: T, step: Result<U, E>) -> Result<(T, U), E>
    ensures first { IfOk result (λ pair. pair.0 ≡ first) }
    ensures step { IfOk result (λ pair. step ≡ Ok pair.1) }
    ensures err { IfErr result (λ e. step ≡ Err e) }
{
    match step {
        Ok(given) => Ok((first, given)),
        Err(e) => Err(e),
    }
}
