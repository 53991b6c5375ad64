//! A keeper over a database that is open, in any store.

ghost use Rattle.std.specs.Prelude.{◌≡◌, OnOk, OnErr, IfOk};
ghost use Rattle.sqlite.specs.Held.{state};
ghost use Rattle.sqlite.specs.State.{HasCleanDisk};
ghost use Rattle.member_keeper.specs.Tables.{put_all, IsTable};
ghost use Rattle.member_keeper.specs.Calls.{IsCaused, CountsFailures};
ghost use Rattle.member_sqlite.specs.InStore.{PutsAllIn, FindsAllIn, DeletesAllIn, AnswersIn};

use crate::database::{clear_rows, find_rows, put_rows};
use crate::keeper::counted;
use crate::writes::Writes;
use member_keeper::{Keeper, KeeperError, MemoryTable, Stored};
use sqlite::{Alter, Connection};

/// A keeper over a database that is open.
///
/// Beside the database it keeps the entries that were there when it was opened and those of its accepted calls, and these it
/// tells as its table. Each refusal of the database other than want of memory is a fault, and so is each load in which the
/// database has other entries.
#[derive(Drop)]
pub struct StoreKeeper<S: Alter> {
    pub(crate) table: MemoryTable,
    pub(crate) conn: Connection<S>,
    pub(crate) writes: Writes,
    pub(crate) faults: u64,
}

impl<S: Alter + Drop> Keeper for StoreKeeper<S> {
    ghost use Rattle.std.specs.Prelude.{Some, None, [], refl};

    ghost table = { λ k. Some k.table.entries };

    ghost answers = { λ _. None };

    ghost faults = { λ k. k.faults };

    ghost tells_alike = { λ _ _. refl };

    fn store(&mut self, entries: &[Stored]) -> Result<(), KeeperError>
        ensures ok { OnOk result (self.new.table.entries ≡ put_all self.old.table.entries entries.now) }
        ensures err { OnErr result (self.new.table.entries ≡ self.old.table.entries) }
        ensures asked { HasCleanDisk (state S.Store self.new.conn) → AnswersIn (PutsAllIn S.Store entries.now) self.old.conn self.new.conn result }
        ensures cause { IsCaused self.old.faults self.new.faults result }
        ensures counted { CountsFailures self.old.faults self.new.faults result }
    {
        let copies = self.table.prepare(entries)?;
        let outcome = put_rows(&mut self.conn, &self.writes, entries);
        match counted(&mut self.faults, outcome) {
            Ok(()) => {
                self.table.put_all(copies);
                Ok(())
            }
            Err(error) => Err(error),
        }
    }

    fn load(&mut self) -> Result<Vec<Stored>, KeeperError>
        ensures loaded { IfOk result (λ loaded. loaded.items ≡ self.old.table.entries) }
        ensures in_order { IsTable self.old.table.entries }
        ensures table { self.new.table.entries ≡ self.old.table.entries }
        ensures asked { HasCleanDisk (state S.Store self.new.conn) → AnswersIn (FindsAllIn S.Store self.old.table.entries) self.old.conn self.new.conn result }
        ensures cause { IsCaused self.old.faults self.new.faults result }
        ensures counted { CountsFailures self.old.faults self.new.faults result }
    {
        let copies = self.table.copies()?;
        let outcome = find_rows(&mut self.conn, &copies);
        match counted(&mut self.faults, outcome) {
            Ok(()) => {}
            Err(error) => return Err(error),
        }
        Ok(copies)
    }

    fn clear(&mut self) -> Result<(), KeeperError>
        ensures ok { OnOk result (self.new.table.entries ≡ []) }
        ensures err { OnErr result (self.new.table.entries ≡ self.old.table.entries) }
        ensures asked { HasCleanDisk (state S.Store self.new.conn) → AnswersIn (DeletesAllIn S.Store) self.old.conn self.new.conn result }
        ensures cause { IsCaused self.old.faults self.new.faults result }
        ensures counted { CountsFailures self.old.faults self.new.faults result }
    {
        let outcome = clear_rows(&mut self.conn);
        match counted(&mut self.faults, outcome) {
            Ok(()) => {
                self.table.clear();
                Ok(())
            }
            Err(error) => Err(error),
        }
    }
}
