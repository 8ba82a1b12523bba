//! A shelf in memory.
ghost use Rattle.std.specs.Prelude.{◌≡◌, ◌≤◌, ◌⊎◌, ◌↔◌, [], Some, option_copied, OnOk, OnErr, IsErrOf, IsTrue};
ghost use Rattle.mv_io.specs.Outside.{Rose, CountAfter};
ghost use Rattle.mv_io.specs.Shelves.{unasked, AsksFor, is_fault, Lacks, Loads, Saves, KeepsOthers};
ghost use Rattle.mv_io.specs.Schedules.{unused, fails_next, called};
ghost use Rattle.mv_io.specs.Memory.{file_of};

use crate::faults::FaultSchedule;
use crate::outside::{Shelf, ShelfError};
use std::alloc::{AllocError, Global};
use std::collections::BTreeMap;
use std::marker::Model;

/// A shelf in memory. Calls of `load` and `save` are numbered from 1 in one row, and those that are listed fail.
/// The others fail only where there is no such file to load.
#[derive(Drop)]
pub struct MemShelf {
    files: BTreeMap<String, Vec<u8>>,
    schedule: FaultSchedule,
}

impl Model for MemShelf {
    ghost use Rattle.mv_io.specs.Memory.{ShelfInMemory, named_bytes};

    ghost Value = { ShelfInMemory };

    ghost view = { λ s. record { files = named_bytes s.files.entries; schedule = s.schedule } };
}

impl MemShelf {
    /// A shelf without files, of which the calls numbered in `failing` fail.
    pub fn new(alloc: Global, failing: Vec<u32>) -> MemShelf
        ensures { result ≡ record { files = []; schedule = unused failing.items } }
    {
        MemShelf {
            files: BTreeMap::new(alloc),
            schedule: FaultSchedule::new(failing),
        }
    }

    /// Puts a file, in place of that of this name. This isn't counted as a call, and never fails as one.
    pub fn put(&mut self, alloc: Global, name: &str, bytes: &[u8]) -> Result<(), AllocError>
        ensures put { OnOk result (file_of self.new name.now ≡ Some bytes.now) }
        ensures others { KeepsOthers (file_of self.old) (file_of self.new) name.now }
        ensures err { OnErr result (self.new.files ≡ self.old.files) }
        ensures uncounted { self.new.schedule ≡ self.old.schedule }
    {
        let name = String::from_str(alloc, name)?;
        let bytes = bytes.to_vec(alloc)?;
        self.files.insert(name, bytes)?;
        Ok(())
    }

    /// The bytes of a file, and none exactly where there is no file of this name.
    #[tactic(auto, using(crate::proofs::Files::found))]
    pub fn file(&self, name: &str) -> Option<&[u8]>
        ensures { option_copied result ≡ file_of self.now name.now }
    {
        Some(self.files.get(name)?.as_slice())
    }
}

impl Shelf for MemShelf {
    ghost files = { λ s. Some (file_of s) };

    ghost asked = { λ _. unasked };

    ghost faults = { λ s. s.schedule.faults };

    fn load(&mut self, alloc: Global, name: &str) -> Result<Vec<u8>, ShelfError>
        ensures bytes { Loads (Some (file_of self.old)) name.now result }
        ensures absent { Lacks (Some (file_of self.old)) name.now → IsErrOf result ShelfError.Failed }
        ensures same { Some (file_of self.new) ≡ Some (file_of self.old) }
        ensures asks { AsksFor unasked unasked name.now }
        ensures later { self.old.schedule.faults ≤ self.new.schedule.faults }
        ensures failed { IsErrOf result ShelfError.Failed → Rose self.old.schedule.faults self.new.schedule.faults ⊎ Lacks (Some (file_of self.old)) name.now }
        ensures count { CountAfter (is_fault result) self.old.schedule.faults self.new.schedule.faults }
        ensures exactly { IsErrOf result ShelfError.Failed ↔ (IsTrue (fails_next self.old.schedule) ⊎ Lacks (Some (file_of self.old)) name.now) }
        ensures counts { self.new.schedule ≡ called self.old.schedule (fails_next self.old.schedule) }
        ensures files { self.new.files ≡ self.old.files }
    {
        if self.schedule.call(false).is_err() {
            return Err(ShelfError::Failed);
        }
        let Some(bytes) = self.file(name) else {
            return Err(ShelfError::Failed);
        };
        bytes.to_vec(alloc).map_err(ShelfError::Memory)
    }

    fn save(&mut self, alloc: Global, name: &str, bytes: &[u8]) -> Result<(), ShelfError>
        ensures bytes { Saves (Some (file_of self.old)) (Some (file_of self.new)) name.now bytes.now result }
        ensures asks { unasked ≡ unasked }
        ensures later { self.old.schedule.faults ≤ self.new.schedule.faults }
        ensures failed { IsErrOf result ShelfError.Failed → Rose self.old.schedule.faults self.new.schedule.faults }
        ensures count { CountAfter (is_fault result) self.old.schedule.faults self.new.schedule.faults }
        ensures exactly { IsErrOf result ShelfError.Failed ↔ IsTrue (fails_next self.old.schedule) }
        ensures counts { self.new.schedule ≡ called self.old.schedule (fails_next self.old.schedule) }
        ensures err { OnErr result (self.new.files ≡ self.old.files) }
    {
        if self.schedule.call(false).is_err() {
            return Err(ShelfError::Failed);
        }
        self.put(alloc, name, bytes).map_err(ShelfError::Memory)
    }
}
