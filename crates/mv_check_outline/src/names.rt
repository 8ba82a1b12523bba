ghost use Rattle.std.specs.Prelude.{◌≡◌, [], ◌∷◌, ◌++◌, ◌<◌, length, map, false, Some, IfSome, IfOk, OnOk, OnErr};
ghost use Rattle.mv_check_outline.specs.Names.{is_among, with_name, place_of, number_in, among};

use mv_num::list::List;
use std::alloc::{AllocError, Global};
use std::collections::BTreeMap;
use std::marker::Model;

/// Names in order of their first appearance, each once. They are found in an ordered map, so that no choice of names makes a look-up slow.
#[derive(Drop)]
pub struct Names {
    names: Vec<Vec<u8>>,
    places: BTreeMap<Vec<u8>, usize>,
}

impl Model for Names {
    ghost use Rattle.std.specs.Prelude.{ℕ, List};
    ghost use Rattle.mv_check_outline.specs.Names.{names_of};
    ghost use Rattle.mv_check_outline.specs.Places.{ArePlaces};

    ghost Value = { List (List ℕ) };

    ghost view = { λ n. names_of n.names.items };

    ghost invariant = { λ n. ArePlaces n.places.entries (names_of n.names.items) };
}

impl Names {
    /// No names.
    pub fn new(alloc: Global) -> Names
        ensures { result ≡ [] }
    {
        Names {
            names: Vec::new(alloc),
            places: BTreeMap::new(alloc),
        }
    }

    // Adds a name that is new at the end.
    fn push(&mut self, alloc: Global, name: &[u8]) -> Result<(), AllocError>
        requires { is_among name.now self.old ≡ false }
        ensures added { OnOk result (self.new ≡ self.old ++ name.now ∷ []) }
        ensures kept { OnErr result (self.new ≡ self.old) }
    {
        let place = self.names.len();
        let key = Vec::from_slice(alloc, name)?;
        let name = Vec::from_slice(alloc, name)?;
        self.names.push(name)?;
        if self.places.insert(key, place).is_err() {
            self.names.pop();
            return Err(AllocError);
        }
        Ok(())
    }

    /// The number of a name, which it gets if it has none yet.
    pub fn number(&mut self, alloc: Global, name: &[u8]) -> Result<usize, AllocError>
        ensures number { IfOk result (λ number. place_of name.now self.new ≡ Some number) }
        ensures added { OnOk result (self.new ≡ with_name self.old name.now) }
        ensures kept { OnErr result (self.new ≡ self.old) }
    {
        match self.number_of(name) {
            Some(number) => Ok(number),
            None => {
                let number = self.len();
                self.push(alloc, name)?;
                Ok(number)
            }
        }
    }

    /// Adds a name at the end, unless it is there.
    pub fn add(&mut self, alloc: Global, name: &[u8]) -> Result<(), AllocError>
        ensures { OnOk result (self.new ≡ with_name self.old name.now) }
    {
        if self.has(name) {
            return Ok(());
        }
        self.push(alloc, name)
    }

    /// Whether a name is there.
    pub fn has(&self, name: &[u8]) -> bool
        ensures { result ≡ is_among name.now self.now }
    {
        self.places.contains_key(name)
    }

    /// The number of a name: how many stand before it.
    pub fn number_of(&self, name: &[u8]) -> Option<usize>
        ensures number { result ≡ place_of name.now self.now }
        ensures within { IfSome result (λ n. n < length self.now) }
    {
        self.places.get(name).copied()
    }

    // The number of a name that is there. There is no memory for a 2^32nd name.
    fn short_number_of(&self, name: &[u8]) -> Result<u32, AllocError>
        ensures { IfOk result (λ number. number ≡ number_in self.now name.now) }
    {
        match u32::try_from(self.number_of(name).unwrap_or(0)) {
            Ok(number) => Ok(number),
            Err(_) => Err(AllocError),
        }
    }

    /// The numbers of the names among others that have them all.
    pub fn numbers_in(&self, alloc: Global, others: &Names) -> Result<List<u32>, AllocError>
        ensures { IfOk result (λ numbers. numbers ≡ map (number_in others.now) self.now) }
    {
        let mut numbers = List::new(alloc);
        for name in self.names.as_slice() {
            numbers.push(others.short_number_of(name.as_slice())?)?;
        }
        Ok(numbers)
    }

    /// How many names there are.
    pub fn len(&self) -> usize
        ensures { result ≡ length self.now }
    {
        self.names.len()
    }

    /// Those of the names that stand among others too, in their order.
    pub fn among(&self, alloc: Global, others: &Names) -> Result<Names, AllocError>
        ensures { IfOk result (λ names. names ≡ among others.now self.now) }
    {
        let mut names = Names::new(alloc);
        for name in self.names.as_slice() {
            let name = name.as_slice();
            if others.has(name) {
                names.add(alloc, name)?;
            }
        }
        Ok(names)
    }
}
