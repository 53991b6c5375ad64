ghost use Rattle.std.specs.Prelude.{◌≡◌, [], None, OnOk, OnErr, IfOk, IfErr};
ghost use Rattle.member_keeper.specs.Tables.{put_all, IsTable};
ghost use Rattle.member_keeper.specs.Calls.{IsCaused, CountsFailures};
ghost use Rattle.member_sqlite.specs.Causes.{answer_to};
ghost use Rattle.member_sqlite.specs.Asked.{PutsAll, FindsAll, DeletesAll, IsReady, IsUnopened, Asks, Answers};

use crate::causes::Refusal;
use crate::database::Database;
use member_keeper::{Keeper, KeeperError, MemoryTable, Stored};
use std::alloc::Global;
use std::marker::Model;

/// A keeper over a database in memory, which its first call opens.
///
/// Beside the database it keeps the entries that its accepted calls left, and these it tells as its table. Each refusal of
/// the database other than want of memory is a fault, and so is each load in which the database has other entries.
#[derive(Drop)]
pub struct SqliteKeeper {
    alloc: Global,
    table: MemoryTable,
    database: Option<Database>,
    faults: u64,
}

impl Model for SqliteKeeper {
    ghost use Rattle.member_sqlite.specs.InDatabase.{Kept, kept_code};

    ghost Value = { Kept };

    ghost coded = { kept_code };

    ghost view = { λ k. record { table = k.table.entries; faults = k.faults; database = k.database } };
}

impl SqliteKeeper {
    /// A keeper without an entry. Its first call opens the database; where that is refused, the next one tries again.
    pub fn in_memory(alloc: Global) -> SqliteKeeper
        ensures { result ≡ record { table = []; faults = 0; database = None } }
    {
        SqliteKeeper {
            alloc,
            table: MemoryTable::new(alloc),
            database: None,
            faults: 0,
        }
    }
}

impl Keeper for SqliteKeeper {
    ghost use Rattle.std.specs.Prelude.{Some, None, refl};

    ghost table = { λ k. Some k.table };

    ghost answers = { λ _. None };

    ghost faults = { λ k. k.faults };

    ghost tells_alike = { λ _ _. refl };

    fn store(&mut self, entries: &[Stored]) -> Result<(), KeeperError>
        ensures ok { OnOk result (self.new.table ≡ put_all self.old.table entries.now) }
        ensures err { OnErr result (self.new.table ≡ self.old.table) }
        ensures asked { Answers (PutsAll entries.now) self.old.database self.new.database result }
        ensures cause { IsCaused self.old.faults self.new.faults result }
        ensures counted { CountsFailures self.old.faults self.new.faults result }
    {
        let copies = self.table.prepare(entries)?;
        let outcome = put_in(self.alloc, &mut self.database, entries);
        match counted(&mut self.faults, outcome) {
            Ok(()) => {
                self.table.put_all(copies);
                Ok(())
            }
            Err(error) => Err(error),
        }
    }

    fn load(&mut self) -> Result<Vec<Stored>, KeeperError>
        ensures loaded { IfOk result (λ loaded. loaded.items ≡ self.old.table) }
        ensures in_order { IsTable self.old.table }
        ensures table { self.new.table ≡ self.old.table }
        ensures asked { Answers (FindsAll self.old.table) self.old.database self.new.database result }
        ensures cause { IsCaused self.old.faults self.new.faults result }
        ensures counted { CountsFailures self.old.faults self.new.faults result }
    {
        let copies = self.table.copies()?;
        let outcome = find_in(self.alloc, &mut self.database, &copies);
        match counted(&mut self.faults, outcome) {
            Ok(()) => {}
            Err(error) => return Err(error),
        }
        Ok(copies)
    }

    fn clear(&mut self) -> Result<(), KeeperError>
        ensures ok { OnOk result (self.new.table ≡ []) }
        ensures err { OnErr result (self.new.table ≡ self.old.table) }
        ensures asked { Answers DeletesAll self.old.database self.new.database result }
        ensures cause { IsCaused self.old.faults self.new.faults result }
        ensures counted { CountsFailures self.old.faults self.new.faults result }
    {
        let outcome = clear_in(self.alloc, &mut self.database);
        match counted(&mut self.faults, outcome) {
            Ok(()) => {
                self.table.clear();
                Ok(())
            }
            Err(error) => Err(error),
        }
    }
}

/// What the keeper answers, with a fault counted for a refusal other than want of memory.
pub(crate) fn counted(faults: &mut u64, outcome: Result<(), Refusal>) -> Result<(), KeeperError>
    ensures cause { IsCaused faults.old faults.new result }
    ensures counted { CountsFailures faults.old faults.new result }
    ensures answer { result ≡ answer_to outcome }
{
    match outcome {
        Ok(()) => Ok(()),
        Err(Refusal::Memory) => Err(KeeperError::Memory),
        Err(Refusal::Other) => {
            *faults = faults.saturating_add(1);
            Err(KeeperError::Failed)
        }
    }
}

/// Opens the database, unless it is open.
fn open(alloc: Global, database: &mut Option<Database>) -> Result<(), Refusal>
    ensures ready { OnOk result (IsReady database.old database.new) }
    ensures unopened { IfErr result IsUnopened }
    ensures none { OnErr result ((database.old ≡ None) × (database.new ≡ None)) }
{
    if database.is_some() {
        return Ok(());
    }
    match Database::open(alloc) {
        Ok(opened) => {
            *database = Some(opened);
            Ok(())
        }
        Err(why) => Err(why),
    }
}

fn put_in(alloc: Global, database: &mut Option<Database>, entries: &[Stored]) -> Result<(), Refusal>
    ensures { Asks (PutsAll entries.now) database.old database.new result }
{
    match open(alloc, database) {
        Ok(()) => {}
        Err(why) => return Err(why),
    }
    match database {
        Some(database) => database.put_all(entries),
        None => Err(Refusal::Other),
    }
}

/// Refuses where the database has other entries than these.
fn find_in(
    alloc: Global,
    database: &mut Option<Database>,
    entries: &[Stored],
) -> Result<(), Refusal>
    ensures { Asks (FindsAll entries.now) database.old database.new result }
{
    match open(alloc, database) {
        Ok(()) => {}
        Err(why) => return Err(why),
    }
    match database {
        Some(database) => database.find(entries),
        None => Err(Refusal::Other),
    }
}

fn clear_in(alloc: Global, database: &mut Option<Database>) -> Result<(), Refusal>
    ensures { Asks DeletesAll database.old database.new result }
{
    match open(alloc, database) {
        Ok(()) => {}
        Err(why) => return Err(why),
    }
    match database {
        Some(database) => database.clear(),
        None => Err(Refusal::Other),
    }
}
