use crate::deleted::pages;
use base_bytes::Text;
use base_vectors::{Dot, Id, VersionVector};
use data_lattice::Replica;
use data_value::Data;
use model_kinds::{Kind, Op};
use std::alloc::Global;
use std::rt::HostRuntime;
use std::test::Fail;

/// So many texts come and go.
const TEXTS: u32 = 4_000;

/// So many copies are then made of a set. If the texts stayed in it they would take more than four thousand pages.
const COPIES: u32 = 64;

/// So many pages are no sign that texts stayed.
const FEW_PAGES: u64 = 1_000;

/// A set takes an operation, and another one its delta.
fn both_take<T: Replica<Kind = Kind, Op = Op>>(
    alloc: Global,
    set: &mut T,
    other: &mut T,
    op: &Op,
    origin: Id,
    number: u32,
) -> Result<(), Fail> {
    let dot = Dot {
        origin,
        seq: number as u64 + 1,
    };
    if !set.fits(op) {
        return Err("unfit".into());
    }
    match set.apply(alloc, op, dot) {
        Ok(delta) if other.delta_fits(&delta) => {
            Ok(other.absorb(&VersionVector::new(alloc), &delta)?)
        }
        _ => Err("refused".into()),
    }
}

/// Both sets take a text, and lose it again.
fn comes_and_goes<T: Replica<Kind = Kind, Op = Op>>(
    alloc: Global,
    set: &mut T,
    other: &mut T,
    origin: Id,
    number: u32,
) -> Result<(), Fail> {
    let text = format!(in alloc; "{number}")?;
    let add = Op::Add(Text::new(&text)?);
    both_take(alloc, set, other, &add, origin, number)?;
    let remove = Op::Remove(Text::new(&text)?);
    both_take(alloc, set, other, &remove, origin, number)
}

/// How many more pages the process has with copies of a set.
fn pages_of_copies<T: Replica<Kind = Kind, Op = Op>>(
    rt: &HostRuntime,
    set: &T,
) -> Result<u64, Fail> {
    let mut copies: Vec<T> = Vec::new(rt.alloc());
    let before = pages(rt)?;
    for _copy in 0..COPIES {
        copies.push(set.copy(rt.alloc())?)?;
    }
    Ok(pages(rt)?.saturating_sub(before))
}

/// The same for two sets in which texts came and went: of the set that removed them, and of the one that took this.
fn pages_of_both<T: Replica<Kind = Kind, Op = Op>>(
    rt: &HostRuntime,
    kind: Kind,
    origin: Id,
) -> Result<(u64, u64), Fail> {
    let mut set = T::empty(rt.alloc(), &kind)?;
    let mut other = T::empty(rt.alloc(), &kind)?;
    for number in 0..TEXTS {
        comes_and_goes(rt.alloc(), &mut set, &mut other, origin, number)?;
    }
    let removed = pages_of_copies(rt, &set)?;
    Ok((removed, pages_of_copies(rt, &other)?))
}

/// A text goes with its last dot, from a set that removes it and from one that takes this as a delta.
#[test]
fn a_set_forgets_the_texts_that_went(rt: HostRuntime) -> Result<(), Fail> {
    let origin = Id::new(0).ok_or("identity")?;
    let (removed, taken) = pages_of_both::<Data>(&rt, Kind::OrSet, origin)?;
    if removed > FEW_PAGES || taken > FEW_PAGES {
        return Err("texts stayed".into());
    }
    Ok(())
}
