/// A limit that a program exceeds: its number, and the count that exceeds it. The limits by number: 1 functions, 2 globals,
/// 3 parameters of a function or of the type of a function pointer, 4 switches, 5 values of a switch's domain, 6 switches of an
/// attributed function, 7 combinations of their values, 8 elements of an array.
#[derive(Clone, Copy, Debug, PartialEq, Eq)]
pub struct Exceeded {
    pub limit: u8,
    pub count: u64,
}
