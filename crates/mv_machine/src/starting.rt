//! The start of a hart.

ghost use Rattle.std.specs.Prelude.{◌≡◌, [], ℕ, None, List, Option, replicate, IfOk};
ghost use Rattle.mv_bindings.specs.Bindings.{free};
ghost use Rattle.mv_machine.specs.Runs.{Going, first};
ghost use Rattle.mv_machine.specs.Moves.{seen, shown};

use crate::engine::Engine;
use mv_bindings::binding::Binding;
use mv_fetch::Memory;
use mv_image::Image;
use mv_image::facts::within_limits;
use mv_num::list::List;
use mv_patch::Plan;
use mv_rv32::Hart;
use std::alloc::{AllocError, Global};

// So many bindings, all free.
fn all_free(alloc: Global, count: usize) -> Result<List<Binding>, AllocError>
    ensures { IfOk result (λ bindings. bindings ≡ replicate count free) }
{
    Ok(List::from_vec(vec![in alloc; Binding::free(); count]?))
}

impl Engine {
    /// A hart before its first instruction, with all functions and pointer switches free. It has memory for a plan of the image, and to remember as many words
    /// that stores into text replace.
    pub fn start(alloc: Global, image: &Image, number: u32) -> Result<Engine, AllocError>
        ensures { IfOk result (λ engine. (engine.number ≡ number)
            × ((input : List (Option ℕ)) → shown (seen engine [] None None) Going input [] [] ≡ first image.now input (record { hart = number; acts = [] }))) }
    {
        within_limits(image);
        let bindings = image.functions().len() + image.pointers().len();
        let patchable = image.functions().len()
            + 2 * image.sites().len()
            + 4 * image.points().len();
        Ok(Engine {
            number,
            image: image.copied(alloc)?,
            hart: Hart {
                regs: [0; 32],
                pc: image.entry(),
            },
            memory: Memory::new(alloc, image.text(), image.globals(), patchable as u32)?,
            bindings: all_free(alloc, bindings)?,
            plan: Plan::new(alloc, image)?,
            opened: false,
        })
    }
}
