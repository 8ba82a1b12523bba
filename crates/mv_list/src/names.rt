//! Names of switches, functions, pointer switches, targets and kinds.

ghost use Rattle.std.specs.Prelude.{◌≡◌, [], slice_index_or};
ghost use Rattle.mv_image.specs.Patched.{kind_of};
ghost use Rattle.mv_list.specs.Listing.{switch_name, function_name, pointer_name, target_name, kind_name};

use crate::parts::behind;
use mv_image::Image;
use mv_num::kind::Kind;
use mv_num::text::Text;

/// The name with a number.
#[tactic(auto, using(std::proofs::lemmas::Option::get_or_from_slice_get, crate::proofs::Missing::item_missing))]
fn name_at(names: &[Text], number: usize) -> &[u8]
    ensures { result.now ≡ slice_index_or names.now number [] }
{
    match names.get(number) {
        Some(name) => name.bytes(),
        None => &[],
    }
}

/// The name of a switch.
pub(crate) fn switch_name(image: &Image, switch: usize) -> &[u8]
    ensures { result.now ≡ switch_name image.now switch }
{
    name_at(image.names().as_slice(), switch)
}

/// The name of a function.
pub fn function_name(image: &Image, function: usize) -> &[u8]
    ensures { result.now ≡ function_name image.now function }
{
    let names = behind(image.names().as_slice(), image.switches().len());
    name_at(names, function)
}

/// The name of a pointer switch.
pub fn pointer_name(image: &Image, pointer: usize) -> &[u8]
    ensures { result.now ≡ pointer_name image.now pointer }
{
    let names = behind(image.names().as_slice(), image.switches().len());
    name_at(behind(names, image.functions().len()), pointer)
}

/// The name of a target.
pub fn target_name(image: &Image, target: usize) -> &[u8]
    ensures { result.now ≡ target_name image.now target }
{
    let names = behind(image.names().as_slice(), image.switches().len());
    let names = behind(names, image.functions().len());
    name_at(behind(names, image.pointers().len()), target)
}

/// The number of the kind of a switch.
pub(crate) fn kind_of(image: &Image, switch: u32) -> u32
    ensures { result ≡ kind_of image.now switch }
{
    match image.switches().get(switch as usize) {
        Some(row) => row.kind.number(),
        None => 0,
    }
}

/// The name of a kind.
#[tactic(auto, unfolding(crate::specs::Listing::kind_name))]
pub(crate) fn kind_name(kind: Kind) -> &'static [u8]
    ensures { result.now ≡ kind_name kind }
{
    match kind {
        Kind::Bool => b"_Bool",
        Kind::SChar => b"signed char",
        Kind::UChar => b"unsigned char",
        Kind::Short => b"short",
        Kind::UShort => b"unsigned short",
        Kind::Int => b"int",
        Kind::UInt => b"unsigned int",
    }
}
