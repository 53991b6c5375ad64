//! Single fields as bytes, texts and lists.

ghost use Rattle.std.specs.Prelude.{◌≤◌, length};

use crate::same::{holds, same};
use base_bytes::{Items, ReadError, Spelled, Text, TooLong};
use std::alloc::Global;
use std::test::Fail;

const LONGEST: &str = "0123456789abcdef0123456789abcdef0123456789abcdef0123456789abcde";

/// A text is kept, and its copy is equal.
fn check_copied(text: &str) -> Result<(), Fail> {
    let copy = Text::new(text)?.copied();
    same(&copy.as_str(), &text, "a text's copy")
}

#[test]
fn keeps_texts(rt: HostRuntime) -> Result<(), Fail> {
    let alloc = rt.alloc();
    for text in ["", "rice 1 kg", "\u{e9}t\u{e9}", LONGEST] {
        check_copied(text)?;
    }
    let too_long = format!(in alloc; "{LONGEST}\u{e9}")?;
    same(
        &Text::new(too_long.as_str()).err(),
        &Some(TooLong),
        "a text of 65 bytes",
    )
}

/// Appends the items to a list.
fn push_all(items: &mut Items<u8>, more: &[u8]) -> Result<(), Fail> {
    for item in more {
        items.push(*item)?;
    }
    Ok(())
}

#[test]
fn keeps_items(rt: HostRuntime) -> Result<(), Fail> {
    let mut items = Items::new(rt.alloc());
    holds(items.is_empty(), "a list without items")?;
    push_all(&mut items, &[3, 1, 4])?;
    let items = Items::from_vec(items.into_vec());
    holds(items.len() == 3, "how many items")?;
    same(
        &items.as_slice(),
        &[3u8, 1, 4].as_slice(),
        "a list of three items",
    )
}

/// Spells a byte, a word, a number and a text, one after the other.
fn spell_fields(alloc: Global, into: &mut Vec<u8>) -> Result<(), Fail> {
    200u8.spell(into)?;
    66_051u32.spell(into)?;
    283_686_952_306_183u64.spell(into)?;
    Text::new("h\u{e9}")?.spell(into)?;
    Ok(())
}

/// The fields are spelled so.
fn check_spelled(alloc: Global, table: &[u8]) -> Result<(), Fail> {
    let mut bytes = Vec::new(alloc);
    spell_fields(alloc, &mut bytes)?;
    same(&bytes.as_slice(), &table, "the fields' bytes")
}

/// A value is read at a place, and with it the place after it.
fn check_read<T: Spelled + PartialEq + Drop>(
    alloc: Global,
    table: &[u8],
    place: usize,
    wanted: (T, usize),
) -> Result<(), Fail>
    requires { place ≤ length table.now }
{
    same(
        &T::read(alloc, table, place)?,
        &wanted,
        "a field that is read",
    )
}

/// A text is read at the end of the table.
fn check_text(alloc: Global, table: &[u8; 17]) -> Result<(), Fail> {
    let (text, end) = Text::read(alloc, table, 13)?;
    same(
        &(text.as_str(), end),
        &("h\u{e9}", 17),
        "a text that is read",
    )
}

#[test]
fn reads_each_field_where_it_is_spelled(rt: HostRuntime) -> Result<(), Fail> {
    let alloc = rt.alloc();
    let table = [200u8, 0, 1, 2, 3, 0, 1, 2, 3, 4, 5, 6, 7, 3, 104, 195, 169];
    check_spelled(alloc, &table)?;
    check_read(alloc, &table, 0, (200u8, 1))?;
    check_read(alloc, &table, 1, (66_051u32, 5))?;
    check_read(alloc, &table, 5, (283_686_952_306_183u64, 13))?;
    check_text(alloc, &table)?;
    same(
        &u32::read(alloc, &table, 14).err(),
        &Some(ReadError::Short(14)),
        "a word that is cut",
    )
}
