// What stands around a statement.

ghost use Rattle.std.specs.Prelude.{◌≡◌};
ghost use Rattle.mv_check_statements.specs.Surroundings.{in_function, in_loop, in_switch};

use mv_ast::program::CType;

/// What stands around a statement: whether there is something that a `break` leaves, a loop that a `continue` goes on with, and the
/// result of the function.
#[derive(Clone, Copy, PartialEq, Eq, Debug)]
pub struct Around {
    pub breaks: bool,
    pub continues: bool,
    pub returns: CType,
}

impl Around {
    /// Outside all loops, in a function with this result.
    pub fn in_function(returns: CType) -> Around
        ensures { result ≡ in_function returns }
    {
        Around {
            breaks: false,
            continues: false,
            returns,
        }
    }

    /// In the body of a loop.
    pub fn in_loop(self) -> Around
        ensures { result ≡ in_loop self }
    {
        Around {
            breaks: true,
            continues: true,
            returns: self.returns,
        }
    }

    /// In the body of a `switch`.
    pub fn in_switch(self) -> Around
        ensures { result ≡ in_switch self }
    {
        Around {
            breaks: true,
            continues: self.continues,
            returns: self.returns,
        }
    }
}
