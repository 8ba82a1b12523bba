//! Different values.

ghost use Rattle.std.specs.Prelude.{◌≡◌, [], not, IfOk, OnOk};
ghost use Rattle.mv_num.specs.Lists.{is_among};
ghost use Rattle.mv_check_declarations.specs.ValueSets.{with_member};

use mv_num::list::List;
use std::alloc::{AllocError, Global};
use std::collections::BTreeSet;
use std::marker::Model;

/// Values in the order in which they were added, each once. Whether one is there is found in an ordered set, with no search through
/// the others.
#[derive(Drop)]
pub struct ValueSet {
    values: Vec<u32>,
    present: BTreeSet<u32>,
}

impl Model for ValueSet {
    ghost use Rattle.std.specs.Prelude.{ℕ, List};
    ghost use Rattle.mv_check_declarations.specs.ValueSets.{HasEach};

    ghost Value = { List ℕ };

    ghost view = { λ s. s.values.items };

    ghost invariant = { λ s. HasEach s.present.keys s.values.items };
}

impl ValueSet {
    /// No values.
    pub fn new(alloc: Global) -> ValueSet
        ensures { result ≡ [] }
    {
        ValueSet {
            values: Vec::new(alloc),
            present: BTreeSet::new(alloc),
        }
    }

    /// Adds a value at the end, unless it is there. The answer says whether it was new.
    pub fn add(&mut self, value: u32) -> Result<bool, AllocError>
        ensures new { IfOk result (λ new. new ≡ not (is_among value self.old)) }
        ensures added { OnOk result (self.new ≡ with_member self.old value) }
    {
        if self.present.contains(&value) {
            return Ok(false);
        }
        self.values.push(value)?;
        if self.present.insert(value).is_err() {
            self.values.pop();
            return Err(AllocError);
        }
        Ok(true)
    }

    /// The values as a list.
    pub fn to_list(&self, alloc: Global) -> Result<List<u32>, AllocError>
        ensures { IfOk result (λ list. list ≡ self.now) }
    {
        let values = Vec::from_slice(alloc, self.values.as_slice())?;
        Ok(List::from_vec(values))
    }
}
