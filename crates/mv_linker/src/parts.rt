use mv_descriptors::GuardRow;
use mv_isa::labelled::Labelled;
use mv_num::kind::Kind;
use mv_num::list::List;
use mv_num::text::Text;

/// A word of data.
#[derive(Clone, Copy, Debug, Drop)]
pub enum Datum {
    /// A number.
    Number(u32),
    /// The address of a function's entry: the function's number.
    Function(u32),
}

/// A switch.
#[derive(Drop)]
pub struct PartSwitch {
    /// Its name in the source.
    pub name: Text,
    /// The index of its word in data.
    pub word: u32,
    /// Its type.
    pub kind: Kind,
    /// The values of its domain.
    pub values: List<u32>,
}

/// What an attributed function may be bound to.
#[derive(Drop)]
pub struct PartVariant {
    /// Its code, as that of a function: nothing names its entry.
    pub code: Labelled,
    /// The two words that stand at a site in place of a call, if its body fits there.
    pub inline: Option<[u32; 2]>,
    /// The values of the function's switches that lead to it.
    pub guards: List<GuardRow>,
}

/// An attributed function.
#[derive(Drop)]
pub struct PartFunction {
    /// Its name in the source.
    pub name: Text,
    /// Its number among all functions. Its own code is the generic one.
    pub function: u32,
    /// The numbers of its switches, ascending.
    pub switches: List<u32>,
    /// Its variants.
    pub variants: List<PartVariant>,
}

/// A pointer switch.
#[derive(Drop)]
pub struct PartPointer {
    /// Its name in the source.
    pub name: Text,
    /// The index of its word in data.
    pub word: u32,
}

/// What is linked: the functions of a program, counted from 0, its data, and what of it may be patched.
///
/// In the code of a function or variant, entries and slots name functions. Jumps and branches name own labels of the code, each
/// below its `labels`, the stubs of the traps 1 to 4, and the stub of commits, by the labels of
/// `mv_isa::labels`; and jumps name the entries of functions by theirs. The stub of commits, called with the number of the
/// environment call that carries out an order or a poll in a7, makes the call, stores the pairs of its plan, executes FENCE.I
/// and returns.
#[derive(Drop)]
pub struct Parts {
    /// The code of all functions.
    pub functions: List<Labelled>,
    /// The function at which a run begins.
    pub main: u32,
    /// The words of data.
    pub globals: List<Datum>,
    /// The switches, in order of declaration.
    pub switches: List<PartSwitch>,
    /// The attributed functions, their numbers ascending.
    pub attributed: List<PartFunction>,
    /// The pointer switches, in order of declaration.
    pub pointers: List<PartPointer>,
    /// The names of all functions where there is a pointer switch, and else none.
    pub targets: List<Text>,
}
