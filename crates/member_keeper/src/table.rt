ghost use Rattle.std.specs.Prelude.{◌≡◌, ◌≤◌, ◌<◌, ◌+◌, [], length, vec_len, vec_capacity, OnOk, IfOk};
ghost use Rattle.member_keeper.specs.Tables.{put, put_all, IsTable};

use crate::search::{Place, find_place};
use crate::stored::Stored;
use base_bytes::Memory;
use std::alloc::Global;
use std::marker::Model;

/// A table in memory: each key once, in the order of the keys' bytes.
///
/// Contracts see its entries, and for how many more it has room. `prepare` makes room, and what was prepared is put
/// without taking memory.
#[derive(Drop)]
pub struct MemoryTable {
    alloc: Global,
    entries: Vec<Stored>,
}

impl Model for MemoryTable {
    ghost use Rattle.std.specs.Prelude.{◌-◌, vec_len, vec_capacity};
    ghost use Rattle.member_keeper.specs.InMemory.{RoomyTable};

    ghost Value = { RoomyTable };

    ghost use Rattle.member_keeper.specs.Tables.{IsTable};

    ghost view = { λ t. record { entries = t.entries.items; room = vec_capacity t.entries - vec_len t.entries } };

    ghost invariant = { λ t. IsTable t.entries.items };
}

impl MemoryTable {
    /// The table without an entry.
    pub fn new(alloc: Global) -> MemoryTable
        ensures { result.entries ≡ [] }
    {
        MemoryTable {
            alloc,
            entries: Vec::new(alloc),
        }
    }

    /// The entries, in the order of their keys.
    pub fn entries(&self) -> &[Stored]
        ensures entries { result.now ≡ self.now.entries }
        ensures in_order { IsTable self.now.entries }
    {
        &self.entries
    }

    /// Copies of the entries, in the order of their keys.
    pub fn copies(&self) -> Result<Vec<Stored>, Memory>
        ensures copies { IfOk result (λ copies. copies.items ≡ self.now.entries) }
        ensures in_order { IsTable self.now.entries }
    {
        copied(self.alloc, &self.entries)
    }

    /// Copies of entries, for which the table then has room.
    pub fn prepare(&mut self, entries: &[Stored]) -> Result<Vec<Stored>, Memory>
        ensures same { self.new.entries ≡ self.old.entries }
        ensures copies { IfOk result (λ copies. copies.items ≡ entries.now) }
        ensures room { OnOk result (length entries.now ≤ self.new.room) }
    {
        let copies = copied(self.alloc, entries)?;
        self.entries.reserve(entries.len())?;
        Ok(copies)
    }

    /// Puts entries for which there is room, one after the other.
    pub fn put_all(&mut self, entries: Vec<Stored>)
        requires { length entries.items ≤ self.old.room }
        ensures { self.new.entries ≡ put_all self.old.entries entries.items }
    {
        put_each(&mut self.entries, entries);
    }

    /// Forgets all entries.
    pub fn clear(&mut self)
        ensures { self.new.entries ≡ [] }
    {
        self.entries.clear();
    }
}

/// Copies of entries.
fn copied(alloc: Global, entries: &[Stored]) -> Result<Vec<Stored>, Memory>
    ensures { IfOk result (λ copies. copies.items ≡ entries.now) }
{
    let mut copies = Vec::new(alloc);
    for entry in entries {
        let copy = entry.copy(alloc)?;
        copies.push(copy)?;
    }
    Ok(copies)
}

/// Puts entries into a table that has room for them, one after the other.
fn put_each(table: &mut Vec<Stored>, entries: Vec<Stored>)
    requires { vec_len table.old + length entries.items ≤ vec_capacity table.old }
    ensures { table.new.items ≡ put_all table.old.items entries.items }
{
    for entry in entries {
        put_one(table, entry);
    }
}

/// Puts an entry into a table that has room for it.
fn put_one(table: &mut Vec<Stored>, entry: Stored)
    requires { vec_len table.old < vec_capacity table.old }
    ensures put { table.new.items ≡ put table.old.items entry }
    ensures len { vec_len table.new ≤ vec_len table.old + 1 }
    ensures capacity { vec_capacity table.old ≤ vec_capacity table.new }
{
    match find_place(table, &entry) {
        Place::At(index) => {
            let here = &mut table[index];
            *here = entry;
        }
        Place::Before(index) => {
            let _ = table.insert(index, entry);
        }
    }
}
