//! The same image once more, in its own version or in version 2.

ghost use Rattle.std.specs.Prelude.{◌≡◌, IfOk};
ghost use Rattle.mv_image.specs.Versions.{versioned, upgraded};
ghost use Rattle.mv_image.specs.Format.{FitsFormat};

use crate::facts::fits_format;
use crate::image::Image;
use mv_num::list::List;
use mv_num::text::Text;
use std::alloc::{AllocError, Global};

fn names_copied(alloc: Global, names: &List<Text>) -> Result<List<Text>, AllocError>
    ensures { IfOk result (λ copy. copy ≡ names.now) }
{
    let mut copy = List::new(alloc);
    for name in names.as_slice() {
        copy.push(Text::new(alloc, name.bytes())?)?;
    }
    Ok(copy)
}

fn with_version(alloc: Global, image: &Image, version: u32) -> Result<Image, AllocError>
    requires { FitsFormat (versioned version image.now) }
    ensures { IfOk result (λ new. new ≡ versioned version image.now) }
{
    let text = image.text().copied(alloc)?;
    let globals = image.globals().copied(alloc)?;
    let switches = image.switches().copied(alloc)?;
    let functions = image.functions().copied(alloc)?;
    let variants = image.variants().copied(alloc)?;
    let guards = image.guards().copied(alloc)?;
    let sites = image.sites().copied(alloc)?;
    let pointers = image.pointers().copied(alloc)?;
    let points = image.points().copied(alloc)?;
    let targets = image.targets().copied(alloc)?;
    let names = names_copied(alloc, image.names())?;
    Ok(Image::of_parts(
        version,
        image.entry(),
        text,
        globals,
        switches,
        functions,
        variants,
        guards,
        sites,
        pointers,
        points,
        targets,
        image.check(),
        names,
    ))
}

impl Image {
    /// An image of the same parts.
    pub fn copied(&self, alloc: Global) -> Result<Image, AllocError>
        ensures { IfOk result (λ copy. copy ≡ self.now) }
    {
        fits_format(self);
        with_version(alloc, self, self.version())
    }
}

/// The image with version 2, and all else the same.
pub fn upgrade(alloc: Global, image: &Image) -> Result<Image, AllocError>
    ensures { IfOk result (λ new. new ≡ upgraded image.now) }
{
    fits_format(image);
    with_version(alloc, image, 2)
}
