use base_vectors::{Dot, Id, IdSet};
use data_lattice::SpelledData;
use data_value::Data;
use std::alloc::Global;
use std::test::Fail;
use trial_parts::bytes_of;

/// The byte of a set with removes.
const SET: u8 = 4;

/// In hexadecimal: `x` at the dots (1, 1) and (2, 1), and `y` at (1, 2).
const HELD: &str =
    "00000000000000020178000000000000000201000000000000000102000000000000000101790000000000000001010000000000000002";

/// Without identity 2: `x` at the dot (0, 1) alone, and `y` where it was.
const PRUNED: &str =
    "00000000000000020178000000000000000100000000000000000101790000000000000001010000000000000002";

/// The set that bytes spell.
fn set_of<T: SpelledData>(alloc: Global, bytes: &[u8]) -> Result<T, Fail> {
    if !T::is_kind(SET) {
        return Err("no set".into());
    }
    match T::read_data(alloc, SET, IdSet::empty(), bytes, 0) {
        Ok((set, _)) => Ok(set),
        Err(_) => Err("not read".into()),
    }
}

/// Prunes an identity as the first record of its owner, after which the set mentions it no more.
fn prune<T: SpelledData>(set: &mut T, removed: Id, owner: Id) -> Result<(), Fail> {
    let dot = Dot {
        origin: owner,
        seq: 1,
    };
    if removed == owner || !set.mentions(removed) || set.prune(removed, dot).is_err() {
        return Err("not pruned".into());
    }
    if set.mentions(removed) {
        return Err("still mentioned".into());
    }
    Ok(())
}

/// The bytes of the set after the prune.
fn pruned<T: SpelledData>(
    alloc: Global,
    bytes: &[u8],
    removed: Id,
    owner: Id,
) -> Result<Vec<u8>, Fail> {
    let mut set: T = set_of(alloc, bytes)?;
    prune(&mut set, removed, owner)?;
    let mut bytes = Vec::new(alloc);
    set.spell_data(&mut bytes)?;
    Ok(bytes)
}

/// The owner takes over the element that the removed identity had added, with its own dot alone, and no other element.
#[test]
fn a_pruned_set_keeps_what_only_others_added(rt: HostRuntime) -> Result<(), Fail> {
    let alloc = rt.alloc();
    let owner = Id::new(0).ok_or("identity")?;
    let removed = Id::new(2).ok_or("identity")?;
    let held = bytes_of(alloc, HELD)?;
    let bytes = pruned::<Data>(alloc, &held, removed, owner)?;
    if bytes.as_slice() != bytes_of(alloc, PRUNED)?.as_slice() {
        return Err("pruned otherwise".into());
    }
    Ok(())
}
