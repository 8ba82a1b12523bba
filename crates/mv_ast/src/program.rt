// The checked program: conversions written out, constants evaluated, names numbered.

use mv_num::boxed::Boxed;
use mv_num::kind::Kind;
use mv_num::list::List;
use mv_num::text::Text;

/// A type of a value (C11 6.2.5): none, an integer, or a pointer to a function of the signature with this number.
#[derive(Clone, Copy, PartialEq, Eq, Debug)]
pub enum CType {
    /// No value.
    Void,
    /// An integer of this kind.
    Scalar(Kind),
    /// A pointer to a function, by the index of its signature in the program.
    Pointer(u32),
}

/// The type of a function that a pointer may lead to.
#[derive(Drop)]
pub struct Signature {
    /// The type of what a call gives, `Void` where it gives nothing.
    pub result: CType,
    /// The types of the parameters in order.
    pub params: List<CType>,
}

/// A whole program: its defined functions and its globals in order of their first declaration, its switches, its pointer
/// switches, each signature once, and the number of the function `main`.
#[derive(Drop)]
pub struct Program {
    /// The types of functions, each once.
    pub signatures: List<Signature>,
    /// A global's number is its index here.
    pub globals: List<Global>,
    /// A function's number is its index here.
    pub functions: List<Function>,
    /// A switch's number is its index here.
    pub switches: List<Switch>,
    /// The globals of the pointer switches, which are marked function pointers, in order of declaration.
    pub pointers: List<u32>,
    /// The number of the function `main`.
    pub main: u32,
}

/// A global scalar, or an array where it has a size. `first` holds the given values alone; every further element starts at 0.
/// A function pointer's value is 0 for null and else one more than the function's number.
#[derive(Drop)]
pub struct Global {
    /// The name in the source.
    pub name: Text,
    /// The type of the scalar, or of each element.
    pub ctype: CType,
    /// The number of elements, at least 1, where it is an array.
    pub size: Option<u32>,
    /// The first values that are given, one word each, in order.
    pub first: List<u32>,
}

/// A marked global, with its domain in the written order.
#[derive(Drop)]
pub struct Switch {
    /// The number of the global that is the switch.
    pub global: u32,
    /// The values of the domain, each once.
    pub values: List<u32>,
}

/// A defined function. Its parameters are its first locals. An attributed one has the numbers of its switches in order of declaration.
#[derive(Drop)]
pub struct Function {
    /// The name in the source.
    pub name: Text,
    /// Whether it is marked, so that a commit may bind it.
    pub attributed: bool,
    /// The type of what a call gives.
    pub result: CType,
    /// How many parameters it has. They are its first locals.
    pub params: u32,
    /// A local's number is its index here.
    pub locals: List<Local>,
    /// The numbers of the switches that it names, ascending. None where it isn't attributed.
    pub switches: List<u32>,
    /// Its statements in order.
    pub body: List<Stmt>,
}

/// A local scalar, or an array where it has a size.
#[derive(Clone, Copy, PartialEq, Eq, Debug)]
pub struct Local {
    /// The type of the scalar, or of each element.
    pub ctype: CType,
    /// The number of elements, at least 1, where it is an array.
    pub size: Option<u32>,
}

/// An lvalue (C11 6.3.2.1): a scalar, or an element of an array with its index.
#[cycle(expr)]
#[derive(Drop)]
pub enum Target {
    /// A global scalar, by the global's number.
    Global(u32),
    /// A local scalar, by the local's number in its function.
    Local(u32),
    /// An element of a global array, and its index from 0.
    GlobalAt(u32, Boxed<Expr>),
    /// An element of a local array, and its index from 0.
    LocalAt(u32, Boxed<Expr>),
}

/// A function that is known without declaration. A plan is a commit or a revert, by its code (`mv_bindings::orders`): of all attributed
/// functions and pointer switches, of the attributed function with this index among the attributed ones, or of what refers to the
/// switch with this index: the functions that have it, or the pointer switch, whose index counts on behind the switches.
#[derive(Clone, Copy, PartialEq, Eq, Debug)]
pub enum Known {
    /// Gives the next byte of the input, or -1 at its end.
    Getchar,
    /// Writes the low byte of its argument and gives it.
    Putchar,
    /// Lets the operator act, and gives 1 where a switch is flipped, else 0.
    Poll,
    /// A commit or a revert: its code, and the index of what it addresses, 0 where it addresses all.
    Plan(u8, u32),
}

/// An expression with its type, all conversions written out (C11 6.5).
#[cycle(expr)]
#[derive(Drop)]
pub struct Expr {
    /// The type of its value.
    pub ctype: CType,
    /// What gives the value.
    pub what: Form,
}

/// What an expression is. An operator is the number of its mark, for `+=` and `++` that of `+`.
/// `Change` is a compound assignment, with the type in which it computes, or a `++` or `--` in front; `After` is one behind,
/// `++` where the flag says so. A call through a pointer evaluates its arguments before its callee.
#[cycle(expr)]
#[derive(Drop)]
pub enum Form {
    /// A constant, as a word of the type.
    Number(u32),
    /// The value in an lvalue.
    Read(Target),
    /// A pointer to the function with this number.
    Function(u32),
    /// One of `~`, `!`, `+`, `-`, which are 10 to 13, and its operand.
    Unary(u8, Boxed<Expr>),
    /// An operator other than `&&` and `||`, and its operands in order.
    Binary(u8, Boxed<Expr>, Boxed<Expr>),
    /// `&&`: 1 where both aren't 0, else 0. The second is evaluated only where the first isn't 0.
    Both(Boxed<Expr>, Boxed<Expr>),
    /// `||`: 0 where both are 0, else 1. The second is evaluated only where the first is 0.
    Either(Boxed<Expr>, Boxed<Expr>),
    /// `?:`: the test, the value where it isn't 0, and the value where it is.
    Choose(Boxed<Expr>, Boxed<Expr>, Boxed<Expr>),
    /// A value converted to the type of the expression.
    Convert(Boxed<Expr>),
    /// `=`: what is assigned to, and the value. It gives the value.
    Set(Target, Boxed<Expr>),
    /// The operator, the type in which it computes, what is assigned to, and the right operand. It gives the new value.
    Change(u8, CType, Target, Boxed<Expr>),
    /// `++` (true) or `--` (false) behind. It gives the old value.
    After(bool, Target),
    /// A call of the function with this number, and its arguments in order.
    Direct(u32, List<Expr>),
    /// A call through a pointer: the arguments in order, and the callee. One whose callee is the read of a pointer switch goes to
    /// the function to which that is bound, where it is bound.
    Through(List<Expr>, Boxed<Expr>),
    /// A call of a known function, and its arguments.
    Known(Known, List<Expr>),
}

/// A statement (C11 6.8). `Clear` declares a local: its words become 0, and then it gets its given values in order.
#[cycle(stmt)]
#[derive(Drop)]
pub enum Stmt {
    /// Statements in order.
    Block(List<Stmt>),
    /// The number of the local, and its given values.
    Clear(u32, List<Expr>),
    /// An expression whose value is dropped.
    Express(Expr),
    /// A test, what is done where it isn't 0, and what is done where it is.
    If(Expr, List<Stmt>, List<Stmt>),
    /// A test, and the body.
    While(Expr, List<Stmt>),
    /// The body, and the test behind it.
    Do(List<Stmt>, Expr),
    /// What is done first, the test (true where there is none), the step, and the body.
    For(List<Stmt>, Option<Expr>, Option<Expr>, List<Stmt>),
    /// The value that is looked for, and the arms, of which each falls through into the next.
    Switch(Expr, List<Arm>),
    /// Leaves the innermost loop or `switch`.
    Break,
    /// Ends the turn of the innermost loop.
    Continue,
    /// Ends the function, with a value unless it is `void`.
    Return(Option<Expr>),
}

/// The statements behind some labels of a `switch`.
#[cycle(stmt)]
#[derive(Drop)]
pub struct Arm {
    /// The values of its `case` labels in order, as words.
    pub labels: List<u32>,
    /// Whether `default` stands among the labels.
    pub other: bool,
    /// The statements up to the next label.
    pub body: List<Stmt>,
}
