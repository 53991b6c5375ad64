//! What a database that was opened has for a keeper, over any store of a database.

ghost use Rattle.std.specs.Prelude.{◌≡◌, ◌≤◌, ◌↔◌, IsTrue, IfOk, MatchResult};
ghost use Rattle.sqlite_trees.specs.View.{doubt};
ghost use Rattle.sqlite_value.specs.declared.value.Value.TheVariants.{Int};
ghost use Rattle.sqlite_value.specs.Value.{owned};
ghost use Rattle.sqlite_value.specs.Order.{column};
ghost use Rattle.sqlite.specs.Held.{state};
ghost use Rattle.sqlite.specs.State.{HasCleanDisk};
ghost use Rattle.member_sqlite.specs.Rows.{AreRows};
ghost use Rattle.member_sqlite.specs.Adopting.{one, IsFirstVersion, IsChecked, IsUnchecked, IsRead, IsUnread, IsNoTable, IsFound, IsUnfound, IsFilled, IsUnfilled, IsAdopted, IsUnadopted};

use crate::layout::lay_out;
use crate::rows::are_rows;
use crate::told::{OpenError, told};
use base_bytes::{Items, Memory, Text};
use member_keeper::{MemoryTable, Stored};
use sqlite::types::ValueRef;
use sqlite::{Alter, Connection, Row};
use std::alloc::Global;

const LISTED: &str = "SELECT name FROM sqlite_schema";

const VERSION: &str = "SELECT version FROM format";

const ALL: &str = "SELECT key, bytes FROM entries ORDER BY key";

/// The table that the rows of a database are. One without a table gets those of this version.
pub(crate) fn adopt<S: Alter>(
    alloc: Global,
    conn: &mut Connection<S>,
) -> Result<MemoryTable, OpenError>
    ensures adopted { HasCleanDisk (state S.Store conn.new) → MatchResult result (λ table. IsAdopted S.Store conn.old conn.new table.entries) (IsUnadopted S.Store conn.old conn.new) }
    ensures clean { doubt (state S.Store conn.old).is_clean ≤ doubt (state S.Store conn.new).is_clean }
{
    match conn.query_all(LISTED, &[]) {
        Ok(rows) => {
            if rows.is_empty() {
                fill(alloc, conn)
            } else {
                find(alloc, conn)
            }
        }
        Err(error) => Err(told(error)),
    }
}

/// Makes the tables of a database that has none.
fn fill<S: Alter>(alloc: Global, conn: &mut Connection<S>) -> Result<MemoryTable, OpenError>
    ensures filled { HasCleanDisk (state S.Store conn.new) → MatchResult result (λ table. IsFilled S.Store conn.old conn.new table.entries) (IsUnfilled S.Store conn.old conn.new) }
    ensures clean { doubt (state S.Store conn.old).is_clean ≤ doubt (state S.Store conn.new).is_clean }
{
    match lay_out(conn) {
        Ok(()) => Ok(MemoryTable::new(alloc)),
        Err(error) => Err(told(error)),
    }
}

/// The table of a database that has tables of this version.
fn find<S: Alter>(alloc: Global, conn: &mut Connection<S>) -> Result<MemoryTable, OpenError>
    ensures found { HasCleanDisk (state S.Store conn.new) → MatchResult result (λ table. IsFound S.Store conn.old conn.new table.entries) (IsUnfound S.Store conn.old conn.new) }
    ensures clean { doubt (state S.Store conn.old).is_clean ≤ doubt (state S.Store conn.new).is_clean }
{
    match check(conn) {
        Ok(()) => read(alloc, conn),
        Err(why) => Err(why),
    }
}

/// Refuses a database that is not of this version.
fn check<S: Alter>(conn: &mut Connection<S>) -> Result<(), OpenError>
    ensures checked { HasCleanDisk (state S.Store conn.new) → MatchResult result (λ _. IsChecked S.Store conn.old conn.new) (IsUnchecked S.Store conn.old conn.new) }
    ensures clean { doubt (state S.Store conn.old).is_clean ≤ doubt (state S.Store conn.new).is_clean }
{
    match conn.query_all(VERSION, &[]) {
        Ok(rows) => {
            if is_first_version(&rows) {
                Ok(())
            } else {
                Err(OpenError::OtherVersion)
            }
        }
        Err(error) => Err(told(error)),
    }
}

/// The rows of a database, as a table.
fn read<S: Alter>(alloc: Global, conn: &mut Connection<S>) -> Result<MemoryTable, OpenError>
    ensures read { HasCleanDisk (state S.Store conn.new) → MatchResult result (λ table. IsRead S.Store conn.old conn.new table.entries) (IsUnread S.Store conn.old conn.new) }
    ensures clean { doubt (state S.Store conn.old).is_clean ≤ doubt (state S.Store conn.new).is_clean }
{
    match conn.query_all(ALL, &[]) {
        Ok(rows) => table_of(alloc, &rows),
        Err(error) => Err(told(error)),
    }
}

/// Whether the rows say that the tables are those of version 1.
fn is_first_version(rows: &[Row]) -> bool
    ensures { IsTrue result ↔ IsFirstVersion rows.now }
{
    match rows {
        [row] => has_one(row),
        _ => false,
    }
}

/// Whether the first value of a row is 1.
fn has_one(row: &Row) -> bool
    ensures { IsTrue result ↔ (column row.now 0 ≡ one) }
{
    match row.get_ref(0) {
        Ok(value) => is_one(value),
        Err(_) => false,
    }
}

fn is_one(value: ValueRef<'_>) -> bool
    ensures { IsTrue result ↔ (owned value.entry ≡ one) }
{
    match value {
        ValueRef::Int(found) => found == 1,
        ValueRef::Null => false,
        ValueRef::Real(_) => false,
        ValueRef::Text(_) => false,
        ValueRef::Blob(_) => false,
    }
}

/// The table that rows are, if they are one.
fn table_of(alloc: Global, rows: &[Row]) -> Result<MemoryTable, OpenError>
    ensures { MatchResult result (λ table. AreRows table.entries rows.now) IsNoTable }
{
    let mut table = MemoryTable::new(alloc);
    match put_rows(alloc, &mut table, rows) {
        Ok(()) => {}
        Err(Flaw::NoEntry) => return Err(OpenError::Damaged),
        Err(Flaw::Memory) => return Err(OpenError::Memory),
    }
    if are_rows(table.entries(), rows) {
        Ok(table)
    } else {
        Err(OpenError::Damaged)
    }
}

/// Why a row was not read.
#[derive(Clone, Copy)]
enum Flaw {
    NoEntry,
    Memory,
}

impl From<Memory> for Flaw {
    fn from(_refused: Memory) -> Flaw {
        Flaw::Memory
    }
}

/// Puts what the rows are. Whether the table is then what they are is for the caller to test.
fn put_rows(alloc: Global, table: &mut MemoryTable, rows: &[Row]) -> Result<(), Flaw> {
    let entries = entries_of(alloc, rows)?;
    let copies = table.prepare(&entries)?;
    table.put_all(copies);
    Ok(())
}

/// The entries that rows are.
fn entries_of(alloc: Global, rows: &[Row]) -> Result<Vec<Stored>, Flaw> {
    let mut entries = Items::new(alloc);
    for row in rows {
        entries.push(entry_of(alloc, row)?)?;
    }
    Ok(entries.into_vec())
}

/// The entry that a row is.
fn entry_of(alloc: Global, row: &Row) -> Result<Stored, Flaw> {
    let key = match row.get_ref(0) {
        Ok(ValueRef::Text(bytes)) => key_of(bytes)?,
        _ => return Err(Flaw::NoEntry),
    };
    match row.get_ref(1) {
        Ok(ValueRef::Blob(bytes)) => {
            let bytes = Items::from_vec(bytes_of(alloc, bytes)?);
            Ok(Stored { key, bytes })
        }
        _ => Err(Flaw::NoEntry),
    }
}

fn key_of(bytes: &[u8]) -> Result<Text, Flaw> {
    match std::str::from_utf8(bytes) {
        Ok(text) => Text::new(text).or(Err(Flaw::NoEntry)),
        Err(_) => Err(Flaw::NoEntry),
    }
}

fn bytes_of(alloc: Global, bytes: &[u8]) -> Result<Vec<u8>, Flaw> {
    match Vec::from_slice(alloc, bytes) {
        Ok(bytes) => Ok(bytes),
        Err(_) => Err(Flaw::Memory),
    }
}
