//! The keeper in memory.

ghost use Rattle.member_keeper.specs.Calls.{IsCaused};

use crate::same::{holds, same};
use base_bytes::{Items, Text};
use member_keeper::{Keeper, KeeperError, MemoryKeeper, Stored};
use std::alloc::Global;
use std::mem;
use std::test::Fail;

fn entry(alloc: Global, key: &str, bytes: &[u8]) -> Result<Stored, Fail> {
    match Text::new(key) {
        Ok(key) => Ok(Stored {
            key,
            bytes: Items::from_vec(Vec::from_slice(alloc, bytes)?),
        }),
        Err(_) => Err("no text".into()),
    }
}

/// Under each key one byte.
pub(crate) fn entries(alloc: Global, rows: &[(&str, u8)]) -> Result<Vec<Stored>, Fail> {
    let mut entries = Vec::new(alloc);
    for (key, byte) in rows {
        let entry = entry(alloc, key, &[*byte])?;
        entries.push(entry)?;
    }
    Ok(entries)
}

/// A call of a keeper, and the entries that it is to store.
#[derive(Clone, Copy)]
pub(crate) enum Call<'a> {
    Store(&'a [(&'a str, u8)]),
    Load,
    Clear,
}

/// What a keeper answers to a call.
fn answer<K: Keeper>(
    alloc: Global,
    keeper: &mut K,
    call: Call,
) -> Result<Result<(), KeeperError>, Fail> {
    let answer = match call {
        Call::Store(rows) => {
            let entries = entries(alloc, rows)?;
            keeper.store(&entries)
        }
        Call::Load => match keeper.load() {
            Ok(_) => Ok(()),
            Err(error) => Err(error),
        },
        Call::Clear => keeper.clear(),
    };
    Ok(answer)
}

/// A keeper answers these calls so, one after the other.
pub(crate) fn check_answers<K: Keeper>(
    alloc: Global,
    keeper: &mut K,
    rows: &[(Call, Result<(), KeeperError>)],
) -> Result<(), Fail> {
    for (call, wanted) in rows {
        same(
            &answer(alloc, keeper, *call)?,
            wanted,
            "what a keeper answers",
        )?;
    }
    Ok(())
}

/// An entry has this key, and this one byte.
fn check_entry(entry: &Stored, key: &str, byte: u8) -> Result<(), Fail> {
    same(
        &(entry.key.as_str(), entry.bytes.as_slice()),
        &(key, [byte].as_slice()),
        "an entry that is loaded",
    )
}

/// The entries are these bytes under these keys.
pub(crate) fn check_entries(entries: &[Stored], wanted: &[(&str, u8)]) -> Result<(), Fail> {
    holds(entries.len() == wanted.len(), "how many are loaded")?;
    for ((key, byte), entry) in wanted.iter().zip(entries) {
        check_entry(entry, key, *byte)?;
    }
    Ok(())
}

/// A load gives these bytes under these keys.
pub(crate) fn check_load<K: Keeper>(keeper: &mut K, wanted: &[(&str, u8)]) -> Result<(), Fail> {
    check_entries(&keeper.load()?, wanted)
}

/// Stores under each key one byte.
fn store<K: Keeper>(alloc: Global, keeper: &mut K, rows: &[(&str, u8)]) -> Result<(), Fail> {
    let entries = entries(alloc, rows)?;
    keeper.store(&entries)?;
    Ok(())
}

/// After `a` was stored with 1, and then `b` with 3 and `a` with 2, a load gives the first entries, and one after a clear the others.
fn check_loads<K: Keeper>(
    alloc: Global,
    keeper: &mut K,
    filled: &[(&str, u8)],
    cleared: &[(&str, u8)],
) -> Result<(), Fail> {
    store(alloc, keeper, &[("a", 1)])?;
    store(alloc, keeper, &[("b", 3), ("a", 2)])?;
    check_load(keeper, filled)?;
    keeper.clear()?;
    check_load(keeper, cleared)
}

/// Fails at every call.
#[derive(Drop)]
struct Broken {
    faults: u64,
}

impl Broken {
    fn fail<T>(&mut self) -> Result<T, KeeperError>
        ensures { IsCaused self.old.faults self.new.faults result }
    {
        self.faults = self.faults.saturating_add(1);
        Err(KeeperError::Failed)
    }
}

impl Keeper for Broken {
    ghost use Rattle.std.specs.Prelude.{None, refl};

    ghost table = { λ _. None };

    ghost answers = { λ _. None };

    ghost faults = { λ k. k.faults };

    ghost tells_alike = { λ _ _. refl };

    fn store(&mut self, _entries: &[Stored]) -> Result<(), KeeperError> {
        self.fail()
    }

    fn load(&mut self) -> Result<Vec<Stored>, KeeperError> {
        self.fail()
    }

    fn clear(&mut self) -> Result<(), KeeperError> {
        self.fail()
    }
}

/// Gives what it took one load late, and lies so: it tells no table.
#[derive(Drop)]
struct Late {
    taken: MemoryKeeper,
    shown: Vec<Stored>,
}

impl Keeper for Late {
    ghost use Rattle.std.specs.Prelude.{None, refl};

    ghost table = { λ _. None };

    ghost answers = { λ _. None };

    ghost faults = { λ k. k.taken.calls.faults };

    ghost tells_alike = { λ _ _. refl };

    fn store(&mut self, entries: &[Stored]) -> Result<(), KeeperError> {
        self.taken.store(entries)
    }

    fn load(&mut self) -> Result<Vec<Stored>, KeeperError> {
        let next = self.taken.load()?;
        Ok(mem::replace(&mut self.shown, next))
    }

    fn clear(&mut self) -> Result<(), KeeperError> {
        self.taken.clear()
    }
}

#[test]
fn keeps_the_last_bytes_of_each_key(rt: HostRuntime) -> Result<(), Fail> {
    let alloc = rt.alloc();
    let mut keeper = MemoryKeeper::new(alloc, Vec::new(alloc));
    check_loads(alloc, &mut keeper, &[("a", 2), ("b", 3)], &[])
}

/// A keeper that fails at three of its first six calls answers so, and keeps what the others stored.
fn check_named(alloc: Global, keeper: &mut MemoryKeeper) -> Result<(), Fail> {
    let rows = [
        (Call::Clear, Ok(())),
        (Call::Store(&[("b", 1)]), Ok(())),
        (Call::Store(&[("a", 2)]), Err(KeeperError::Failed)),
        (Call::Load, Err(KeeperError::Failed)),
        (Call::Store(&[("a", 2)]), Ok(())),
        (Call::Clear, Err(KeeperError::Failed)),
    ];
    check_answers(alloc, keeper, &rows)?;
    holds(keeper.entries().len() == 2, "what the keeper has")
}

#[test]
fn fails_at_the_calls_named(rt: HostRuntime) -> Result<(), Fail> {
    let failing = vec![in rt.alloc(); 3, 2, 5]?;
    let mut keeper = MemoryKeeper::new(rt.alloc(), failing);
    check_named(rt.alloc(), &mut keeper)
}

#[test]
fn a_broken_keeper_takes_nothing(rt: HostRuntime) -> Result<(), Fail> {
    let mut keeper = Broken { faults: 0 };
    let rows = [
        (Call::Store(&[]), Err(KeeperError::Failed)),
        (Call::Load, Err(KeeperError::Failed)),
        (Call::Clear, Err(KeeperError::Failed)),
    ];
    check_answers(rt.alloc(), &mut keeper, &rows)?;
    holds(keeper.faults == 3, "how often a keeper failed")
}

#[test]
fn a_late_keeper_gives_what_it_had(rt: HostRuntime) -> Result<(), Fail> {
    let alloc = rt.alloc();
    let mut keeper = Late {
        taken: MemoryKeeper::new(alloc, Vec::new(alloc)),
        shown: Vec::new(alloc),
    };
    check_loads(alloc, &mut keeper, &[], &[("a", 2), ("b", 3)])
}
