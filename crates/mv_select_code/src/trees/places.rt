// Where values stand while code runs.

ghost use Rattle.std.specs.Prelude.{◌≡◌};
ghost use Rattle.mv_select_code.specs.Trees.TreeCode.{register_of, pinned_in};

use crate::trees::leaves::temp_register;
use mv_ir::body::Room;

/// The registers in which a function keeps its temporaries.
#[derive(Clone, Copy, PartialEq, Eq, Debug)]
pub enum Keeping {
    /// The first nine in s1 to s9, which it saves.
    Saved,
    /// The first eight in a0 to a7, where its arguments come: it calls nothing.
    Arguments,
    /// The first eight as those, and the next nine in s1 to s9, which it saves.
    Mixed,
}

impl Keeping {
    /// The register of a temporary. The others stand in the frame.
    #[tactic(auto, unfolding(crate::specs::Trees::TreeCode::register_of))]
    pub fn register(self, temp: u32) -> Option<u8>
        ensures { result ≡ register_of self temp }
    {
        match self {
            Keeping::Saved => if temp < 9 {
                Some(temp_register(temp))
            } else {
                None
            },
            Keeping::Arguments => if temp < 8 {
                Some(10 + temp as u8)
            } else {
                None
            },
            Keeping::Mixed => if temp < 8 {
                Some(10 + temp as u8)
            } else if temp < 17 {
                Some(temp_register(temp - 8))
            } else {
                None
            },
        }
    }
}

/// A number that stands in a register.
#[derive(Clone, Copy, PartialEq, Eq, Debug, Drop)]
pub struct Pin {
    pub number: u32,
    pub register: u8,
}

/// Where the globals, the temporaries and some numbers stand.
#[derive(Clone, Copy, Debug, Drop)]
pub struct Places<'a> {
    /// The globals, at their addresses.
    pub rooms: &'a [Room],
    /// The temporaries.
    pub keeping: Keeping,
    /// The numbers.
    pub pins: &'a [Pin],
}

/// The register of a number, if it has one.
pub fn pinned(pins: &[Pin], number: u32) -> Option<u8>
    ensures { result ≡ pinned_in pins.now number }
{
    for pin in pins {
        if pin.number == number {
            return Some(pin.register);
        }
    }
    None
}
