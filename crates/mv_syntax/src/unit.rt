// The source as a tree: names as they are written, without types (C11 6.5, 6.7, 6.8, 6.9).
// An operator, a type word and a mark have the number of their word or mark in its row.

use crate::place::Place;
use mv_num::boxed::Boxed;
use mv_num::kind::Kind;
use mv_num::list::List;
use mv_num::text::Text;

/// A translation unit, and the place of its end.
#[derive(Drop)]
pub struct Unit {
    /// In the order of the source.
    pub items: List<Item>,
    /// The place behind the last byte of the source.
    pub end: Place,
}

/// A declaration, or the definition of a function where it has a body.
#[derive(Drop)]
pub struct Item {
    /// What stands before the first declarator.
    pub specs: Specs,
    /// What is declared; one, the function, where there is a body.
    pub names: List<Declarator>,
    /// The block of a defined function.
    pub body: Option<Line>,
}

/// The specifiers of a declaration: whether `static` and `const` stand among them, the type words
/// in their order, the enums and the attributes.
#[cycle(expression)]
#[derive(Drop)]
pub struct Specs {
    /// The place of the first specifier.
    pub place: Place,
    /// Whether `static` is there.
    pub hidden: bool,
    /// Whether `const` is there.
    pub fixed: bool,
    /// The type words, by their numbers as keywords.
    pub words: List<u8>,
    /// The enum specifiers in order.
    pub tags: List<EnumSpec>,
    /// The attributes in order.
    pub marks: List<Mark>,
}

/// An enum specifier, with its enumerators where it has a list of them.
#[cycle(expression)]
#[derive(Drop)]
pub struct EnumSpec {
    /// The name behind `enum`, if any.
    pub tag: Option<Text>,
    /// The enumerators in braces, if any.
    pub members: Option<List<Member>>,
}

/// An enumerator.
#[cycle(expression)]
#[derive(Drop)]
pub struct Member {
    /// The place of its name.
    pub place: Place,
    /// Its name.
    pub name: Text,
    /// What stands behind `=`, if anything.
    pub value: Option<Node>,
}

/// The attribute `multiverse`, with its values where it has a list of them.
#[cycle(expression)]
#[derive(Drop)]
pub struct Mark {
    /// The place of `__attribute__`.
    pub place: Place,
    /// The values in parentheses, if any.
    pub values: Option<List<Node>>,
}

/// An expression, at the place of its first token.
#[cycle(expression)]
#[derive(Drop)]
pub struct Node {
    /// Where it begins; for one in parentheses, inside of them.
    pub place: Place,
    /// Its form.
    pub what: What,
}

/// The forms of an expression. The flag of `Before` and `After` says `++`.
#[cycle(expression)]
#[derive(Drop)]
pub enum What {
    /// An integer or a character constant, with its type.
    Number(u32, Kind),
    /// An identifier.
    Name(Text),
    /// One of `~`, `!`, `+`, `-`, `*`, `&` before an operand, by the number of its mark.
    Unary(u8, Boxed<Node>),
    /// An operator by the number of its mark, `&&` and `||` included, and its operands in order.
    Binary(u8, Boxed<Node>, Boxed<Node>),
    /// `?:`: the test, what stands before the colon, and what stands behind it.
    Choose(Boxed<Node>, Boxed<Node>, Boxed<Node>),
    /// `=` or a compound one by the number of its mark, and its sides in order.
    Assign(u8, Boxed<Node>, Boxed<Node>),
    /// `++` or `--` before an operand.
    Before(bool, Boxed<Node>),
    /// `++` or `--` behind an operand.
    After(bool, Boxed<Node>),
    /// What is indexed, and the index.
    Index(Boxed<Node>, Boxed<Node>),
    /// What is called, and the arguments in order.
    Call(Boxed<Node>, List<Node>),
    /// The type in parentheses, and the operand.
    Cast(Specs, Boxed<Node>),
}

/// A declarator with its attributes and its initial value. A parameter may have no name.
#[cycle(declarator)]
#[derive(Drop)]
pub struct Declarator {
    /// The place of its first token; where it has none, that of the specifiers.
    pub place: Place,
    /// The declared name, if any.
    pub name: Option<Text>,
    /// What the name is declared to be.
    pub shape: Shape,
    /// The attributes behind it, in order.
    pub marks: List<Mark>,
    /// What stands behind `=`, if anything.
    pub initial: Option<Initial>,
}

/// What a declarator declares. The flag of the pointers says `const`.
#[cycle(declarator)]
#[derive(Drop)]
pub enum Shape {
    /// A scalar of the type that the specifiers name.
    Plain,
    /// An array, with its size where one is written.
    Array(Option<Node>),
    /// A function of these parameters.
    Function(List<Param>),
    /// A pointer to a function of these parameters.
    Pointer(bool, List<Param>),
    /// An array of such pointers, with its size where one is written.
    PointerArray(bool, Option<Node>, List<Param>),
}

/// A parameter.
#[cycle(declarator)]
#[derive(Drop)]
pub struct Param {
    /// What stands before the declarator.
    pub specs: Specs,
    /// The declarator, of a shape `Plain` or `Pointer`.
    pub name: Declarator,
}

/// An initial value, a list of them, or the characters of strings.
#[derive(Drop)]
pub enum Initial {
    /// One value.
    Value(Node),
    /// A list in braces, of one value or more.
    Values(List<Node>),
    /// The bytes of strings that follow one another, without a closing 0.
    Chars(List<u8>),
}

/// A statement or a local declaration, at the place of its first token.
#[cycle(statement)]
#[derive(Drop)]
pub struct Line {
    /// The place of its first token.
    pub place: Place,
    /// Its form.
    pub what: Act,
}

/// The forms of a statement.
#[cycle(statement)]
#[derive(Drop)]
pub enum Act {
    /// What stands in braces, in order.
    Block(List<Line>),
    /// A local declaration.
    Declare(Specs, List<Declarator>),
    /// An expression, or a `;` alone.
    Express(Option<Node>),
    /// The test, the first branch, and the one behind `else`.
    If(Node, Boxed<Line>, Option<Boxed<Line>>),
    /// The test, and the body.
    While(Node, Boxed<Line>),
    /// The body, and the test behind it.
    Do(Boxed<Line>, Node),
    /// A declaration or an expression that comes first, the test, the step, and the body.
    For(Option<Boxed<Line>>, Option<Node>, Option<Node>, Boxed<Line>),
    /// The value that is looked for, and the body with its labels.
    Switch(Node, Boxed<Line>),
    /// The label `case` by itself: what it labels is the next statement.
    Case(Node),
    /// The label `default` by itself.
    Default,
    /// `break`
    Break,
    /// `continue`
    Continue,
    /// `return`, with a value where one is written.
    Return(Option<Node>),
}
