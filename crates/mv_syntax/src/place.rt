/// A place in the source. Lines and columns count from 1, columns in bytes.
#[derive(Clone, Copy, Debug, PartialEq, Eq)]
pub struct Place {
    /// From 1 on. A line feed ends a line.
    pub line: u32,
    /// From 1 on, in bytes: a tab is one column.
    pub column: u32,
}
