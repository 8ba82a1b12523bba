//! How much code there is, and how much there may be.

ghost use Rattle.std.specs.Prelude.{◌≡◌, ◌↔◌, IsTrue};
ghost use Rattle.mv_isa.specs.Code.{least_words};
ghost use Rattle.mv_variants.specs.Sizes.{line_sites, Fits, IsWithLines};

use mv_isa::labelled::Line;
use mv_num::limits::SITE_LIMIT;
use mv_num::regions::TEXT_LIMIT;

/// How many words code has at least, as each branch has one, and how many sites; each as far as a `u64` goes.
#[derive(Clone, Copy, Debug)]
pub struct Size {
    pub words: u64,
    pub sites: u64,
}

/// The size of code with some lines behind it.
pub fn with_lines(size: Size, lines: &[Line]) -> Size
    ensures { IsWithLines size lines.now result }
{
    let mut words = size.words;
    let mut sites = size.sites;
    for line in lines {
        words = words.saturating_add(least_words(*line));
        sites = sites.saturating_add(sites_of(*line));
    }
    Size { words, sites }
}

/// Whether text has room for so much code, and an image for so many sites.
pub fn fits(size: Size) -> bool
    ensures { IsTrue result ↔ Fits size }
{
    size.words <= TEXT_LIMIT as u64 && size.sites <= SITE_LIMIT as u64
}

// How many words an item has at least.
fn least_words(line: Line) -> u64
    ensures { result ≡ least_words line }
{
    match line {
        Line::Label(_) => 0,
        Line::Word(_) => 1,
        Line::Jump(_, _) => 1,
        Line::Branch(_, _, _, _) => 1,
        Line::Entry(_, _) => 2,
        Line::Slot(_) => 2,
        Line::Point(_) => 4,
    }
}

// How many sites an item is.
fn sites_of(line: Line) -> u64
    ensures { result ≡ line_sites line }
{
    match line {
        Line::Slot(_) => 1,
        Line::Point(_) => 2,
        Line::Label(_) => 0,
        Line::Word(_) => 0,
        Line::Jump(_, _) => 0,
        Line::Branch(_, _, _, _) => 0,
        Line::Entry(_, _) => 0,
    }
}
