//! `build`: the image of a text.

ghost use Rattle.std.specs.Prelude.{◌≡◌, MatchResult};
ghost use Rattle.mv_image.specs.Faults.{Spells};
ghost use Rattle.mv_notes.specs.declared.status.Status.TheVariants.{Memory};
ghost use Rattle.mv_top.specs.Building.{IsBuiltAs, IsUnbuilt};

use crate::run::status_of_build;
use mv_image::{Image, write};
use mv_notes::Status;
use mv_refine::build;
use std::alloc::Global;

// The bytes of an image. An error is want of memory.
fn spell(alloc: Global, image: &Image) -> Result<Vec<u8>, Status>
    ensures { MatchResult result (λ bytes. Spells bytes.items image.now) (λ status. status ≡ Memory) }
{
    match write(alloc, image) {
        Ok(bytes) => Ok(bytes),
        Err(_) => Err(Status::Memory),
    }
}

/// The bytes of the image of a text. An error is the status of a text that has none, or want of memory.
pub(crate) fn built_image(alloc: Global, text: &[u8]) -> Result<Vec<u8>, Status>
    ensures { MatchResult result (λ bytes. IsBuiltAs text.now bytes.items) (IsUnbuilt text.now) }
{
    match build(alloc, text) {
        Ok(built) => spell(alloc, &built.image),
        Err(error) => Err(status_of_build(error)),
    }
}
