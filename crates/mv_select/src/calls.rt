//! The code of calls, over the calling convention of generated code.
//!
//! - `push_call` and `push_known` put exactly the lines of `specs/Calls/CallCode.antt` behind some code: the arguments, the
//!   test of the depth, and the call of a function (of an attributed one by a slot, of another one by a jump to its entry,
//!   through a pointer with its null test, and through a pointer switch as through the pointer in memory) or of a known
//!   function, with its answer put into its temporary. `Calls` is that code of calls for `push_statements`.
//! - `specs/Calls/Convention.antt` is the calling convention: arguments in a0 to a7, the result in a0; s10 counts the live
//!   attributed frames and s11 the calls that are left, each of which has room for a frame below sp; a callee sets back
//!   sp and s1 to s11, and leaves gp, tp and the stack from sp up as they were.
//! - `call_code_law`, clause `done`: on every machine that runs it and serves the known functions, the code of calls does
//!   what they mean, if the functions keep the calling convention at each lower bound, and the caller's temporaries and
//!   pins stand in registers that callees set back: null is trap 3, and a call too many trap 4. Clauses `encoded`, `labels`
//!   and `targets`: its instructions have encodings, and a call has at most 16 words, one of a known function 7, besides
//!   two for each node of its trees; no label stands in it; each label that it names stands once where its functions and
//!   their entries do, the stubs of traps 3 and 4 and the stub of orders and polls. So this is what `flow_code_law`
//!   assumes.

mod calls;
mod emitter;
mod laws;

pub use calls::{push_call, push_known};
pub use emitter::Calls;
pub use laws::call_code_law;
