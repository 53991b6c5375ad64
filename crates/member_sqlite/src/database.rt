ghost use Rattle.std.specs.Prelude.{IfOk, IfErr, MatchResult};
ghost use Rattle.sqlite.specs.Steps.{over_memory};
ghost use Rattle.member_sqlite.specs.Made.{IsMade, IsUnmade};
ghost use Rattle.sqlite.specs.Held.{state};
ghost use Rattle.sqlite.specs.State.{HasCleanDisk};
ghost use Rattle.member_sqlite.specs.InStore.{PutsAllIn, FindsAllIn, DeletesAllIn};
ghost use Rattle.member_sqlite.specs.Asked.{PutsAll, FindsAll, DeletesAll, IsOpened, IsUnopened};

use crate::causes::{Refusal, refusal_of};
use crate::rows::are_rows;
use crate::statements::{prepare, put, run, run_to};
use crate::together::put_together;
use crate::writes::Writes;
use member_keeper::Stored;
use sqlite::{Alter, Connection, MemStore};
use std::alloc::Global;
use std::marker::Model;

const TABLE: &str = "CREATE TABLE entries (key TEXT PRIMARY KEY, bytes BLOB NOT NULL)";

const CHANGE: &str = "UPDATE entries SET bytes = ?2 WHERE key = ?1";

const ADD: &str = "INSERT INTO entries (key, bytes) VALUES (?1, ?2)";

const ALL: &str = "SELECT key, bytes FROM entries ORDER BY key";

const CLEAR: &str = "DELETE FROM entries";

/// The table of entries in a database in memory, which contracts see as its connection.
#[derive(Drop)]
pub(crate) struct Database {
    conn: Connection<MemStore>,
    writes: Writes,
}

impl Model for Database {
    ghost use Rattle.sqlite_trees.specs.declared.memory.MemStore.{MemStore};
    ghost use Rattle.sqlite_trees.specs.contracts.memory.MemStore as store;
    ghost use Rattle.sqlite.specs.Held.{Held, held_code};

    ghost Value = { Held MemStore };

    ghost coded = { held_code store.the_row.coded };

    ghost view = { λ d. d.conn };
}

impl Database {
    /// Opens a database, and makes the table. Nobody opens it again, so that no version is kept.
    pub(crate) fn open(alloc: Global) -> Result<Database, Refusal>
        ensures opened { IfOk result IsOpened }
        ensures unopened { IfErr result IsUnopened }
    {
        let mut conn = match Connection::open_in_memory(alloc) {
            Ok(conn) => conn,
            Err(_) => return Err(Refusal::Memory),
        };
        match make(&mut conn) {
            Ok(writes) => Ok(Database { conn, writes }),
            Err(why) => Err(why),
        }
    }

    /// Its two statements that put an entry, which mean their texts on every connection.
    pub(crate) fn into_writes(self) -> Writes {
        self.writes
    }

    /// Puts the entries in one transaction. A statement alone is one by itself.
    pub(crate) fn put_all(&mut self, entries: &[Stored]) -> Result<(), Refusal>
        ensures { PutsAll entries.now self.old self.new result }
    {
        put_rows(&mut self.conn, &self.writes, entries)
    }

    /// Refuses where the table has other entries than these.
    pub(crate) fn find(&mut self, entries: &[Stored]) -> Result<(), Refusal>
        ensures { FindsAll entries.now self.old self.new result }
    {
        find_rows(&mut self.conn, entries)
    }

    /// Empties the table.
    pub(crate) fn clear(&mut self) -> Result<(), Refusal>
        ensures { DeletesAll self.old self.new result }
    {
        clear_rows(&mut self.conn)
    }
}

/// Makes the table, and prepares the two statements that put an entry.
fn make(conn: &mut Connection<MemStore>) -> Result<Writes, Refusal>
    ensures { MatchResult result (λ _. IsMade over_memory conn.old conn.new) (IsUnmade over_memory conn.old conn.new) }
{
    match run(conn, TABLE) {
        Ok(_) => {}
        Err(why) => return Err(why),
    }
    let change = match prepare(conn, CHANGE) {
        Ok(change) => change,
        Err(why) => return Err(why),
    };
    match prepare(conn, ADD) {
        Ok(add) => Ok(Writes { change, add }),
        Err(why) => Err(why),
    }
}

/// Puts the entries in one transaction. A statement alone is one by itself.
pub(crate) fn put_rows<S: Alter>(
    conn: &mut Connection<S>,
    writes: &Writes,
    entries: &[Stored],
) -> Result<(), Refusal>
    ensures { HasCleanDisk (state S.Store conn.new) → PutsAllIn S.Store entries.now conn.old conn.new result }
{
    match entries {
        [entry] => put(conn, writes, entry),
        _ => put_together(conn, writes, entries),
    }
}

/// Deletes all rows.
pub(crate) fn clear_rows<S: Alter>(conn: &mut Connection<S>) -> Result<(), Refusal>
    ensures { HasCleanDisk (state S.Store conn.new) → DeletesAllIn S.Store conn.old conn.new result }
{
    run_to(conn, CLEAR)
}

/// Asks the database for all of its rows, and refuses where they are not these entries.
pub(crate) fn find_rows<S: Alter>(
    conn: &mut Connection<S>,
    entries: &[Stored],
) -> Result<(), Refusal>
    ensures { HasCleanDisk (state S.Store conn.new) → FindsAllIn S.Store entries.now conn.old conn.new result }
{
    match conn.query_all(ALL, &[]) {
        Ok(rows) => {
            if are_rows(entries, &rows) {
                Ok(())
            } else {
                Err(Refusal::Other)
            }
        }
        Err(error) => Err(refusal_of(error)),
    }
}
