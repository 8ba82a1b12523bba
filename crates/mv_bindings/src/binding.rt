// Bindings, and the events that tell of changed ones.

ghost use Rattle.std.specs.Prelude.{◌≡◌};
ghost use Rattle.mv_bindings.specs.Bindings.{free};

/// What an attributed function is bound to: a value for each of its switches in their order, or nothing.
/// `count` is the number of its switches, and the values behind them are 0. A free one has `count` 0 and zeros alone.
/// A pointer switch is bound to a function: its `count` is 1, and its value is one more than the function's number.
#[derive(Clone, Copy, PartialEq, Eq, Debug)]
pub struct Binding {
    /// Whether it is bound to values at all.
    pub bound: bool,
    /// The number of switches, at most 6.
    pub count: u32,
    /// The value of each switch, and zeros behind them.
    pub values: [u32; 6],
}

impl Binding {
    /// The binding of what is bound to nothing, as all is at the start.
    pub fn free() -> Binding
        ensures { result ≡ free }
    {
        Binding {
            bound: false,
            count: 0,
            values: [0; 6],
        }
    }
}

/// A changed binding, of the attributed function with this number among the attributed ones, or of a pointer switch, whose
/// number counts on behind these.
#[derive(Clone, Copy, PartialEq, Eq, Debug)]
pub struct Event {
    /// The number among the attributed functions, in order of declaration from 0, and then among the pointer switches.
    pub function: u32,
    /// The new binding.
    pub binding: Binding,
}
