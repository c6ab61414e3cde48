//! Files in memory.
ghost use Rattle.std.specs.Prelude.{◌≡◌, ◌⊎◌, Contains, IsNone, IsErrOf};

use super::is_failing_call;
use crate::outside::{Files, LoadFault};
use std::alloc::Global;
use std::collections::BTreeMap;

/// Files that are held in memory, by path.
#[derive(Drop)]
pub struct MemoryFiles {
    /// What is held.
    pub entries: BTreeMap<String, Vec<u8>>,
    /// The numbers, from 1, of the calls that fail.
    pub fail: Vec<u64>,
    /// How many calls of `load` there were.
    pub calls: u64,
    /// The faults of each path that is held.
    pub faults: u64,
    /// The faults of each path that isn't held.
    pub misses: u64,
}

impl MemoryFiles {
    /// Files of which the calls of these numbers, from 1, fail.
    pub fn new(entries: BTreeMap<String, Vec<u8>>, fail: Vec<u64>) -> MemoryFiles
        ensures { result ≡ record { entries = entries; fail = fail; calls = 0; faults = 0; misses = 0 } }
    {
        MemoryFiles {
            entries,
            fail,
            calls: 0,
            faults: 0,
            misses: 0,
        }
    }
}

impl Files for MemoryFiles {
    ghost use Rattle.smithy_outside.specs.Memory.{files_told, IsCountedIf};
    ghost use Rattle.std.specs.BTreeMap.{get_by_text};
    ghost use Rattle.smithy_outside.specs.Outside.{counted, Loads};

    ghost told = { files_told };

    fn load(&mut self, alloc: Global, path: &str, limit: usize) -> Result<Vec<u8>, LoadFault>
        ensures loads { Loads (files_told self.old) (files_told self.new) path.now limit result }

        // Loads fail at the calls that are to fail, and for a path that isn't held.
        ensures calls { self.new.calls ≡ counted self.old.calls }
        ensures fails { Contains self.old.fail.items self.new.calls → IsErrOf result LoadFault.Failed }
        ensures fails_only { IsErrOf result LoadFault.Failed → Contains self.old.fail.items self.new.calls ⊎ IsNone (get_by_text self.old.entries path.now) }

        // `faults` is the count of each path that is held, `misses` that of any other.
        ensures faults { IsCountedIf (Contains self.old.fail.items self.new.calls) self.old.faults self.new.faults }
        ensures misses { IsCountedIf (Contains self.old.fail.items self.new.calls ⊎ IsNone (get_by_text self.old.entries path.now)) self.old.misses self.new.misses }

        // What is held stays, and which calls fail.
        ensures entries { self.new.entries ≡ self.old.entries }
        ensures fail { self.new.fail ≡ self.old.fail }
    {
        if is_failing_call(&mut self.calls, &self.fail) {
            self.faults = self.faults.saturating_add(1);
            self.misses = self.misses.saturating_add(1);
            return Err(LoadFault::Failed);
        }
        let Some(bytes) = self.entries.get(path) else {
            self.misses = self.misses.saturating_add(1);
            return Err(LoadFault::Failed);
        };
        if bytes.len() > limit {
            return Err(LoadFault::TooLong);
        }
        Ok(bytes.to_vec(alloc)?)
    }
}
