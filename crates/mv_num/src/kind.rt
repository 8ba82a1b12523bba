ghost use Rattle.std.specs.Prelude.{◌≡◌, ◌≤◌, ◌<◌, IfSome, IfNone};
ghost use Rattle.mv_num.specs.Kinds.{kind_number};

/// The integer types (C11 6.2.5): `_Bool`, `signed char`, `unsigned char`, `short`, `unsigned short`, `int` and `unsigned int`. Plain
/// `char` is `unsigned char`, `short` has 16 bits and `int` 32.
#[derive(Clone, Copy, Debug, PartialEq, Eq, Drop)]
pub enum Kind {
    Bool,
    SChar,
    UChar,
    Short,
    UShort,
    Int,
    UInt,
}

impl Kind {
    /// The number that stands for it in tables, from 0 for `_Bool` to 6 for `unsigned int`.
    pub fn number(self) -> u32
        ensures value { result ≡ kind_number self }
        ensures small { result ≤ 6 }
    {
        match self {
            Kind::Bool => 0,
            Kind::SChar => 1,
            Kind::UChar => 2,
            Kind::Short => 3,
            Kind::UShort => 4,
            Kind::Int => 5,
            Kind::UInt => 6,
        }
    }

    /// The kind that a number stands for, and `None` for each number above 6.
    pub fn of_number(number: u32) -> Option<Kind>
        ensures some { IfSome result (λ kind. kind_number kind ≡ number) }
        ensures none { IfNone result (6 < number) }
    {
        match number {
            0 => Some(Kind::Bool),
            1 => Some(Kind::SChar),
            2 => Some(Kind::UChar),
            3 => Some(Kind::Short),
            4 => Some(Kind::UShort),
            5 => Some(Kind::Int),
            6 => Some(Kind::UInt),
            _ => None,
        }
    }
}
