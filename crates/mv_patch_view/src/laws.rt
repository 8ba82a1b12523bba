//! What the view has to do with texts under bindings.

ghost use Rattle.mv_image.specs.Patched.{Bindings};
ghost use Rattle.mv_patch_view.specs.Laws.{ShowsText};

use mv_image::Image;

/// What the text holds under any bindings at each place is what the view shows there for the variant or the target that they lead to.
pub fn shows_text(image: &Image)
    ensures { (bound : Bindings) → ShowsText image.now bound }
{
    let _entry = image.entry();
}
