ghost use Rattle.mv_num.specs.Bytes.{AreWords};

use mv_num::list::List;

/// Code and first data, as an image has them.
#[derive(Debug, Drop)]
pub struct Code {
    /// The address at which a run begins.
    pub entry: u32,
    /// The words of text.
    pub text: List<u32>,
    /// The words of data.
    pub globals: List<u32>,
}

impl Code {
    /// Words are numbers below 2^32, as their type has it. The call does nothing.
    pub(crate) fn has_words(&self)
        ensures text { AreWords self.now.text }
        ensures globals { AreWords self.now.globals }
    {
        are_words(self.text.as_slice());
        are_words(self.globals.as_slice());
    }
}

fn are_words(words: &[u32])
    ensures { AreWords words.now }
{}
