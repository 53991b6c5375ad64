//! Calls of a keeper, and what it answers, as a text.

use base_bytes::{Items, Text};
use member_keeper::{Keeper, KeeperError, Stored};
use std::alloc::Global;
use std::test::Fail;

/// An entry to be stored: its key, and one byte that it has so many times.
type Row<'a> = (&'a str, u8, usize);

/// A call of a keeper.
#[derive(Clone, Copy)]
pub(crate) enum Call<'a> {
    /// These are stored, all in one call.
    Store(&'a [Row<'a>]),
    Load,
    Clear,
}

fn entry(alloc: Global, row: Row) -> Result<Stored, Fail> {
    let (key, byte, count) = row;
    let Ok(key) = Text::new(key) else {
        return Err("no text".into());
    };
    let mut bytes = Items::new(alloc);
    for _ in 0..count {
        bytes.push(byte)?;
    }
    Ok(Stored { key, bytes })
}

fn entries(alloc: Global, rows: &[Row]) -> Result<Vec<Stored>, Fail> {
    let mut entries = Vec::new(alloc);
    for row in rows {
        let entry = entry(alloc, *row)?;
        entries.push(entry)?;
    }
    Ok(entries)
}

/// Adds what a store or a clear was answered.
fn push_answer(text: &mut String, answer: Result<(), KeeperError>) -> Result<(), Fail> {
    let word = match answer {
        Ok(()) => "done",
        Err(KeeperError::Failed) => "failed",
        Err(KeeperError::Memory) => "no memory",
    };
    Ok(text.push_str(word)?)
}

/// Adds an entry: its key, its first byte, and how many bytes it has.
fn push_entry(text: &mut String, entry: &Stored) -> Result<(), Fail> {
    let key = entry.key.as_str();
    let bytes = entry.bytes.as_slice();
    let first = bytes.first().copied().unwrap_or(0);
    let count = bytes.len();
    Ok(write!(text, "{key}={first}*{count} ")?)
}

/// Adds what was loaded.
fn push_loaded(text: &mut String, loaded: &[Stored]) -> Result<(), Fail> {
    for entry in loaded {
        push_entry(text, entry)?;
    }
    Ok(())
}

/// Makes a call, and adds what was answered.
fn push_call<K: Keeper>(
    alloc: Global,
    text: &mut String,
    keeper: &mut K,
    call: Call,
) -> Result<(), Fail> {
    match call {
        Call::Store(rows) => {
            let entries = entries(alloc, rows)?;
            push_answer(text, keeper.store(&entries))
        }
        Call::Load => match keeper.load() {
            Ok(loaded) => push_loaded(text, &loaded),
            Err(error) => push_answer(text, Err(error)),
        },
        Call::Clear => push_answer(text, keeper.clear()),
    }
}

/// Makes the calls in their order, drops the keeper, and tells what was answered.
pub(crate) fn told<K: Keeper + Drop>(
    alloc: Global,
    mut keeper: K,
    calls: &[Call],
) -> Result<String, Fail> {
    let mut text = String::new(alloc);
    for call in calls {
        push_call(alloc, &mut text, &mut keeper, *call)?;
        text.push(';')?;
    }
    Ok(text)
}
