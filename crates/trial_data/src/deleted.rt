use base_bytes::Text;
use base_vectors::Id;
use data_codec::spell;
use data_envelope::Envelope;
use data_lattice::{Replica, SpelledData};
use data_value::Data;
use model_kinds::{Kind, Op};
use std::alloc::Global;
use std::fs;
use std::rt::HostRuntime;
use std::test::Fail;
use trial_parts::bytes_of;

/// A set holds so many elements.
const ELEMENTS: u16 = 256;

/// No set here has so many records.
const MOST_RECORDS: u64 = 1000;

/// So many sets are filled, deleted and kept.
const SETS: u32 = 64;

/// Each set has more than 18 kilobytes while it is full, so that they would take some 290 pages if their memory was kept.
const FEW_PAGES: u64 = 96;

/// Makes a record of an operation, and answers whether the entry took it.
fn takes<T: Replica<Kind = Kind, Op = Op>>(entry: &mut Envelope<T>, op: &Op, id: Id) -> bool {
    if entry.is_pruned(id) || entry.versions().at(id) > MOST_RECORDS {
        return false;
    }
    entry.value().fits(op) && entry.update(op, id).is_ok()
}

/// Adds an element, and answers whether the entry took it.
fn takes_element<T: Replica<Kind = Kind, Op = Op>>(
    entry: &mut Envelope<T>,
    element: &str,
    id: Id,
) -> Result<bool, Fail> {
    Ok(takes(entry, &Op::Add(Text::new(element)?), id))
}

/// Fills an empty set.
fn fill<T: Replica<Kind = Kind, Op = Op>>(
    alloc: Global,
    entry: &mut Envelope<T>,
    id: Id,
) -> Result<(), Fail> {
    for number in 0..ELEMENTS {
        let element = format!(in alloc; "{number}")?;
        if !takes_element(entry, &element, id)? {
            return Err("fewer elements than a set holds".into());
        }
    }
    if takes_element(entry, "one more", id)? {
        return Err("more elements than a set holds".into());
    }
    Ok(())
}

/// A set that is full.
pub(crate) fn full<T: Replica<Kind = Kind, Op = Op>>(
    alloc: Global,
    kind: Kind,
    id: Id,
) -> Result<Envelope<T>, Fail> {
    let mut entry = Envelope::new(alloc, T::empty(alloc, &kind)?);
    fill(alloc, &mut entry, id)?;
    Ok(entry)
}

/// A set that was full, and then deleted. It takes no element any more.
fn deleted<T: Replica<Kind = Kind, Op = Op>>(
    alloc: Global,
    kind: Kind,
    id: Id,
) -> Result<Envelope<T>, Fail> {
    let mut entry = full(alloc, kind, id)?;
    if !takes(&mut entry, &Op::Delete, id) || takes_element(&mut entry, "0", id)? {
        return Err("not deleted".into());
    }
    Ok(entry)
}

/// The bytes of a set that is full, and then deleted.
fn spelled<T: SpelledData<Kind = Kind, Op = Op>>(
    alloc: Global,
    kind: Kind,
    id: Id,
) -> Result<Vec<u8>, Fail> {
    let entry: Envelope<T> = deleted(alloc, kind, id)?;
    Ok(spell(alloc, &entry)?)
}

/// How many pages of memory this process has.
pub(crate) fn pages(rt: &HostRuntime) -> Result<u64, Fail> {
    let sizes = fs::read_to_string(rt, "/proc/self/statm")?;
    let resident = sizes.as_str().split(' ').nth(1).ok_or("sizes")?;
    Ok(resident.parse::<u64>()?)
}

/// How many more pages the process has after so many sets were full, and then dropped.
fn pages_of_dropped<T: Replica<Kind = Kind, Op = Op>>(
    rt: &HostRuntime,
    kind: Kind,
    id: Id,
) -> Result<u64, Fail> {
    let before = pages(rt)?;
    for _ in 0..SETS {
        let _dropped: Envelope<T> = full(rt.alloc(), kind, id)?;
    }
    Ok(pages(rt)?.saturating_sub(before))
}

/// How many more pages the process has after so many sets were full, and then deleted.
fn pages_of_deleted<T: Replica<Kind = Kind, Op = Op>>(
    rt: &HostRuntime,
    kind: Kind,
    id: Id,
) -> Result<u64, Fail> {
    let mut kept: Vec<Envelope<T>> = Vec::new(rt.alloc());
    let before = pages(rt)?;
    for _ in 0..SETS {
        kept.push(deleted(rt.alloc(), kind, id)?)?;
    }
    Ok(pages(rt)?.saturating_sub(before))
}

/// Nothing is left of a deleted set: its entry has 13 bytes, with a record for each element, one for the delete.
#[test]
fn a_deleted_set_of_256_elements_has_13_bytes(rt: HostRuntime) -> Result<(), Fail> {
    let alloc = rt.alloc();
    let id = Id::new(0).ok_or("identity")?;
    let rows = [
        (Kind::GSet, "01830001000000000000000101"),
        (Kind::OrSet, "01840001000000000000000101"),
    ];
    for (kind, bytes) in rows {
        if spelled::<Data>(alloc, kind, id)?.as_slice() != bytes_of(alloc, bytes)?.as_slice() {
            return Err("spelled otherwise".into());
        }
    }
    Ok(())
}

/// The memory of a set is given back where its key is deleted, as it is where the set is dropped.
#[test]
fn a_deleted_set_gives_its_memory_back(rt: HostRuntime) -> Result<(), Fail> {
    let id = Id::new(0).ok_or("identity")?;
    let dropped = pages_of_dropped::<Data>(&rt, Kind::GSet, id)?;
    let deleted = pages_of_deleted::<Data>(&rt, Kind::GSet, id)?;
    if deleted > dropped.saturating_add(FEW_PAGES) {
        return Err("memory was kept".into());
    }
    Ok(())
}
