//! A row, and what is said behind its words.

/// A row, or a remark.
#[derive(Clone, Copy)]
pub(crate) struct Row<'a> {
    /// The words, and what is said behind them.
    pub(crate) line: &'a str,
    /// The text of the file `a.c`.
    pub(crate) text: &'a str,
}

impl<'a> Row<'a> {
    /// The words.
    pub(crate) fn words(self) -> &'a str {
        self.line.split(" !").next().unwrap_or("")
    }

    /// What is said by a mark, and nothing where it isn't there.
    pub(crate) fn said(self, name: &str) -> &'a str {
        for mark in self.line.split(" !").skip(1) {
            let (own, value) = mark.split_once(' ').unwrap_or((mark, ""));
            if own == name {
                return value;
            }
        }
        ""
    }

    /// The number at a place of what is said by a mark, and another one where there is none.
    pub(crate) fn number(self, name: &str, place: usize, otherwise: u32) -> u32 {
        let number = self.said(name).split(' ').nth(place).unwrap_or("");
        number.parse::<u32>().unwrap_or(otherwise)
    }
}
