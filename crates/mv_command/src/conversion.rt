//! What one file is made of another.

ghost use Rattle.std.specs.Prelude.{◌≡◌, ◌≢◌, MatchOption};
ghost use Rattle.mv_command.specs.Conversions.{from_of, name_of, to_of};

use crate::options::{ASM, ELF, FILE, IMAGE, OUT, UNELF, UPGRADE};

/// What one file is made of another.
#[derive(Clone, Copy)]
pub enum Conversion {
    /// The image in version 2 of an image.
    Upgrade,
    /// The image of an assembler text.
    Assemble,
    /// The ELF file of an image.
    ToElf,
    /// The image of an ELF file.
    FromElf,
}

impl Conversion {
    /// The one that a command makes, where it makes one.
    pub(crate) fn by_command(name: &str) -> Option<Conversion>
        ensures { MatchOption result ((conversion : Conversion) → name.now ≢ name_of conversion) (λ conversion. name.now ≡ name_of conversion) }
    {
        if name == UPGRADE {
            Some(Conversion::Upgrade)
        } else if name == ASM {
            Some(Conversion::Assemble)
        } else if name == ELF {
            Some(Conversion::ToElf)
        } else if name == UNELF {
            Some(Conversion::FromElf)
        } else {
            None
        }
    }

    /// The operand of which it makes a file.
    pub(crate) fn from_operand(self) -> &'static str
        ensures { result.now ≡ from_of self }
    {
        match self {
            Conversion::Upgrade | Conversion::ToElf => IMAGE,
            Conversion::Assemble | Conversion::FromElf => FILE,
        }
    }

    /// The operand that names what it makes.
    pub(crate) fn to_operand(self) -> &'static str
        ensures { result.now ≡ to_of self }
    {
        match self {
            Conversion::Assemble => IMAGE,
            Conversion::Upgrade | Conversion::ToElf | Conversion::FromElf => OUT,
        }
    }
}
