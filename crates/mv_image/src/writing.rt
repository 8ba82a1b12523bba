//! The bytes of an image.

ghost use Rattle.std.specs.Prelude.{◌≡◌, ◌≤◌, ◌<◌, ◌+◌, ◌-◌, ◌*◌, ◌^◌, ◌++◌, ℕ, All, length, replicate, OnOk, IfOk};
ghost use Rattle.std.specs.List.{flat_map};
ghost use Rattle.mv_num.specs.Bytes.{bytes_of};
ghost use Rattle.mv_image.specs.Spelling.{Fields, joined, header_of, later_of, words_in, names_in, spelling};
ghost use Rattle.mv_descriptors.specs.Widths.{switch_words, function_words, variant_words, guard_words, site_words, pointer_words, point_words, target_words};
ghost use Rattle.mv_image.specs.Faults.{Rules, Spells, CountsFit};

use crate::image::Image;
use mv_descriptors::{FunctionRow, Row, SwitchRow, VariantRow, push_all};
use mv_num::bytes::bytes_of_words;
use mv_num::list::List;
use mv_num::text::Text;
use std::alloc::{AllocError, Global};

fn push_rows<R: Row>(to: &mut List<u32>, rows: &[R]) -> Result<(), AllocError>
    requires { All R.is_clean rows.now }
    ensures { OnOk result (to.new ≡ to.old ++ flat_map R.row_words rows.now) }
{
    for row in rows {
        row.write(to)?;
    }
    Ok(())
}

fn push_names(to: &mut Vec<u8>, names: &[Text]) -> Result<(), AllocError>
    ensures { OnOk result (to.new.items ≡ to.old.items ++ joined names.now) }
{
    for name in names {
        to.extend_from_slice(name.bytes())?;
    }
    Ok(())
}

fn push_zeros(to: &mut Vec<u8>, count: usize) -> Result<(), AllocError>
    ensures { OnOk result (to.new.items ≡ to.old.items ++ replicate count 0) }
{
    for _ in 0..count {
        to.push(0)?;
    }
    Ok(())
}

/// Puts the header of an image whose names have so many bytes.
#[tactic(auto, unfolding(crate::specs::Spelling::header_of, crate::specs::Spelling::later_of))]
fn push_header(to: &mut List<u32>, image: &Image, names: usize) -> Result<(), AllocError>
    requires counts { CountsFit image.now }
    requires names { names ≡ length (joined image.now.names) }
    ensures { OnOk result (to.new ≡ to.old ++ header_of image.now) }
{
    let front = [
        0x3149564D,
        image.version(),
        image.entry(),
        image.text().len() as u32,
        image.globals().len() as u32,
        image.switches().len() as u32,
        image.functions().len() as u32,
        image.variants().len() as u32,
        image.guards().len() as u32,
        image.sites().len() as u32,
        names as u32,
        0,
    ];
    push_all(to, &front)?;
    if image.version() == 2 {
        let later = [
            image.pointers().len() as u32,
            image.points().len() as u32,
            image.targets().len() as u32,
            image.check(),
        ];
        push_all(to, &later)?;
    }
    Ok(())
}

fn push_tables(to: &mut List<u32>, image: &Image) -> Result<(), AllocError>
    requires switches { All ⟦<SwitchRow as Row>⟧.is_clean image.now.switches }
    requires functions { All ⟦<FunctionRow as Row>⟧.is_clean image.now.functions }
    requires variants { All ⟦<VariantRow as Row>⟧.is_clean image.now.variants }
    ensures { OnOk result (to.new ≡ to.old ++ flat_map switch_words image.now.switches ++ flat_map function_words image.now.functions ++ flat_map variant_words image.now.variants ++ flat_map guard_words image.now.guards ++ flat_map site_words image.now.sites ++ flat_map pointer_words image.now.pointers ++ flat_map point_words image.now.points ++ flat_map target_words image.now.targets) }
{
    push_rows(to, image.switches().as_slice())?;
    push_rows(to, image.functions().as_slice())?;
    push_rows(to, image.variants().as_slice())?;
    push_rows(to, image.guards().as_slice())?;
    push_rows(to, image.sites().as_slice())?;
    push_rows(to, image.pointers().as_slice())?;
    push_rows(to, image.points().as_slice())?;
    push_rows(to, image.targets().as_slice())
}

/// The words of an image whose names have so many bytes.
#[tactic(auto, unfolding(crate::specs::Spelling::words_in))]
fn words_of_image(alloc: Global, image: &Image, names: usize) -> Result<List<u32>, AllocError>
    requires rules { Rules image.now }
    requires names { names ≡ length (joined image.now.names) }
    ensures { IfOk result (λ words. words ≡ words_in image.now) }
{
    let mut words = List::new(alloc);
    push_header(&mut words, image, names)?;
    push_all(&mut words, image.text().as_slice())?;
    push_all(&mut words, image.globals().as_slice())?;
    push_tables(&mut words, image)?;
    Ok(words)
}

/// The one spelling of an image.
pub fn write(alloc: Global, image: &Image) -> Result<Vec<u8>, AllocError>
    ensures { IfOk result (λ bytes. Spells bytes.items image.now) }
{
    let _entry = image.entry();
    let mut names = Vec::new(alloc);
    push_names(&mut names, image.names().as_slice())?;
    let names = names.as_slice();
    let words = words_of_image(alloc, image, names.len())?;
    let mut bytes = bytes_of_words(alloc, &words)?;
    bytes.extend_from_slice(names)?;
    push_zeros(&mut bytes, (4 - names.len() % 4) % 4)?;
    Ok(bytes)
}
