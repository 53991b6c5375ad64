ghost use Rattle.std.specs.Prelude.{◌≡◌, [], OnOk, OnErr, IfOk};
ghost use Rattle.member_keeper.specs.Tables.{put_all, IsTable};
ghost use Rattle.member_keeper.specs.Calls.{IsCaused};
ghost use Rattle.member_keeper.specs.InMemory.{Counts};

use crate::calls::CallCount;
use crate::keeper::{Keeper, KeeperError};
use crate::stored::Stored;
use crate::table::MemoryTable;
use std::alloc::Global;
use std::marker::Model;

/// A keeper in memory.
///
/// Exactly the calls fail whose numbers are named. The calls of the three kinds are counted together, from 0, and those
/// that are answered with want of memory are left out.
#[derive(Drop)]
pub struct MemoryKeeper {
    table: MemoryTable,
    calls: CallCount,
}

impl Model for MemoryKeeper {
    ghost use Rattle.member_keeper.specs.InMemory.{Kept};

    ghost Value = { Kept };

    ghost view = { λ k. record { table = k.table.entries; calls = k.calls } };
}

impl MemoryKeeper {
    /// A keeper without an entry, which fails at the calls named.
    pub fn new(alloc: Global, failing: Vec<u64>) -> MemoryKeeper
        ensures table { result.table ≡ [] }
        ensures calls { result.calls ≡ record { failing = failing.items; calls = 0; faults = 0 } }
    {
        MemoryKeeper {
            table: MemoryTable::new(alloc),
            calls: CallCount::new(failing),
        }
    }

    /// The entries, in the order of their keys. This is no call that is counted.
    pub fn entries(&self) -> &[Stored]
        ensures entries { result.now ≡ self.now.table }
        ensures in_order { IsTable self.now.table }
    {
        self.table.entries()
    }
}

impl Keeper for MemoryKeeper {
    ghost use Rattle.std.specs.Prelude.{Some, refl};
    ghost use Rattle.member_keeper.specs.InMemory.{answers_of};

    ghost table = { λ k. Some k.table };

    ghost answers = { λ k. Some (answers_of k.calls) };

    ghost faults = { λ k. k.calls.faults };

    ghost tells_alike = { λ _ _. refl };

    fn store(&mut self, entries: &[Stored]) -> Result<(), KeeperError>
        ensures ok { OnOk result (self.new.table ≡ put_all self.old.table entries.now) }
        ensures err { OnErr result (self.new.table ≡ self.old.table) }
        ensures counts { Counts self.old.calls self.new.calls result }
        ensures cause { IsCaused self.old.calls.faults self.new.calls.faults result }
    {
        let copies = self.table.prepare(entries)?;
        match self.calls.answer() {
            Ok(()) => {
                self.table.put_all(copies);
                Ok(())
            }
            Err(error) => Err(error),
        }
    }

    fn load(&mut self) -> Result<Vec<Stored>, KeeperError>
        ensures loaded { IfOk result (λ loaded. loaded.items ≡ self.old.table) }
        ensures in_order { IsTable self.old.table }
        ensures table { self.new.table ≡ self.old.table }
        ensures counts { Counts self.old.calls self.new.calls result }
        ensures cause { IsCaused self.old.calls.faults self.new.calls.faults result }
    {
        let copies = self.table.copies()?;
        match self.calls.answer() {
            Ok(()) => Ok(copies),
            Err(error) => Err(error),
        }
    }

    fn clear(&mut self) -> Result<(), KeeperError>
        ensures ok { OnOk result (self.new.table ≡ []) }
        ensures err { OnErr result (self.new.table ≡ self.old.table) }
        ensures counts { Counts self.old.calls self.new.calls result }
        ensures cause { IsCaused self.old.calls.faults self.new.calls.faults result }
    {
        match self.calls.answer() {
            Ok(()) => {
                self.table.clear();
                Ok(())
            }
            Err(error) => Err(error),
        }
    }
}
