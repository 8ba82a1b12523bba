//! How fetches pick, by a name.

ghost use Rattle.std.specs.Prelude.{None};

use mv_probe::{FetchOracle, Fresh, Oldest, Table};
use std::alloc::{AllocError, Global};

/// Picks the present word as long as it is asked of these addresses, in order, and the oldest one from the first other address on.
#[derive(Drop)]
pub(crate) struct Told {
    addresses: Vec<u32>,
    place: usize,
    has_strayed: bool,
}

/// An oracle that a row names.
#[derive(Drop)]
pub(crate) enum Picks {
    Fresh,
    Oldest,
    Table(Table),
    Told(Told),
}

impl Told {
    // Whether this address or one before it is another than that which was told.
    fn strays(&mut self, address: u32) -> bool {
        if self.addresses.get(self.place) != Some(&address) {
            self.has_strayed = true;
        }
        self.place = self.place.saturating_add(1);
        self.has_strayed
    }
}

impl FetchOracle for Picks {
    ghost way = { λ _. None };

    fn pick(&mut self, address: u32, choices: u64) -> u64 {
        match self {
            Picks::Fresh => Fresh.pick(address, choices),
            Picks::Oldest => Oldest.pick(address, choices),
            Picks::Table(table) => table.pick(address, choices),
            Picks::Told(told) => { if told.strays(address) { choices - 1 } else { 0 } }
        }
    }
}

// The numbers of a list in hexadecimal, with commas between.
fn numbers_of(alloc: Global, list: &str) -> Result<Vec<u32>, AllocError> {
    let mut numbers = Vec::new(alloc);
    for number in list.split(',') {
        numbers.push(u32::from_str_radix(number, 16).unwrap_or(0))?;
    }
    Ok(numbers)
}

/// The picks of a name: `fresh`, `oldest`, the numbers of a table, or `told:` and addresses.
pub(crate) fn picks_of(alloc: Global, name: &str) -> Result<Picks, AllocError> {
    if let Some(list) = name.strip_prefix("told:") {
        return Ok(Picks::Told(Told {
            addresses: numbers_of(alloc, list)?,
            place: 0,
            has_strayed: false,
        }));
    }
    match name {
        "fresh" => Ok(Picks::Fresh),
        "oldest" => Ok(Picks::Oldest),
        _ => Ok(Picks::Table(Table::new(numbers_of(alloc, name)?))),
    }
}
