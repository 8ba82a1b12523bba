//! Code that calls nothing.
ghost use Rattle.std.specs.Prelude.{◌≡◌, true};
ghost use Rattle.mv_ir.specs.Measures.{calls, stm_calls};

use mv_ir::stm::Stm;

/// Whether some code calls nothing.
#[cycle(quiet)]
pub fn calls_nothing(code: &[Stm]) -> bool
    ensures { result ≡ true → calls code.now ≡ 0 }
{
    for i in 0..code.len() {
        if !is_quiet(&code[i]) {
            return false;
        }
    }
    true
}

#[cycle(quiet)]
#[tactic(auto, using(crate::proofs::QuietCode::quiet))]
fn is_quiet(stm: &Stm) -> bool
    ensures { result ≡ true → stm_calls stm.now ≡ 0 }
{
    match stm {
        Stm::If(_, a, b) => {
            if calls_nothing(a.as_slice()) {
                calls_nothing(b.as_slice())
            } else {
                false
            }
        }
        Stm::Loop(b) => calls_nothing(b.as_slice()),
        Stm::Block(b) => calls_nothing(b.as_slice()),
        Stm::Call(_, _, _) => false,
        Stm::Set(_, _) => true,
        Stm::SetGlobal(_, _) => true,
        Stm::Divide(_, _, _, _) => true,
        Stm::Check(_, _) => true,
        Stm::Read(_, _, _) => true,
        Stm::Write(_, _, _) => true,
        Stm::Zero(_) => true,
        Stm::Break(_) => true,
        Stm::Back(_) => true,
        Stm::Known(_, _, _) => true,
        Stm::Return(_) => true,
    }
}
