//! Version vectors.

ghost use Rattle.std.specs.Prelude.{◌≤◌, ◌^◌};

use crate::same::{holds, same};
use base_vectors::{Dot, IDENTITIES, Id, IdSet, Order, Seq, VersionVector};
use std::alloc::Global;
use std::test::Fail;

/// The first identity, the second and the last.
fn identities() -> Option<(Id, Id, Id)> {
    Some((Id::new(0)?, Id::new(1)?, Id::new(IDENTITIES - 1)?))
}

/// A vector with one number of one identity.
fn vector(alloc: Global, id: Id, number: Seq) -> Result<VersionVector, Fail>
    requires { (1 ≤ number) × (number ≤ 2 ^ 62) }
{
    let mut vector = VersionVector::new(alloc);
    vector.raise(id, number)?;
    Ok(vector)
}

/// A vector with 3 of the first identity takes the numbers of one with 2 of it, and 7 of the last.
fn check_joined(one: &mut VersionVector, other: &VersionVector) -> Result<(), Fail> {
    let (zero, _, last) = identities().ok_or("identities")?;
    let lacking = one.first_lacking(other) == Some(last);
    one.join(other)?;
    same(
        &(lacking, one.at(zero), one.at(last), one.covers(other)),
        &(true, 3, 7, true),
        "a join of two vectors",
    )
}

#[test]
fn a_join_keeps_the_greater_numbers(rt: HostRuntime) -> Result<(), Fail> {
    let (zero, _, last) = identities().ok_or("identities")?;
    let mut other = vector(rt.alloc(), zero, 2)?;
    other.raise(last, 7)?;
    let mut one = vector(rt.alloc(), zero, 3)?;
    check_joined(&mut one, &other)
}

/// Of two vectors that are the same, with 1 of the first identity, one is raised and then the other.
fn check_compared(less: &mut VersionVector, more: &mut VersionVector) -> Result<(), Fail> {
    let (zero, one, _) = identities().ok_or("identities")?;
    let equal = less.compare(more);
    more.raise(one, 2)?;
    let before = less.compare(more);
    let after = more.compare(less);
    less.raise(zero, 2)?;
    let concurrent = less.compare(more);
    same(
        &[equal, before, after, concurrent],
        &[Order::Same, Order::Before, Order::After, Order::Concurrent],
        "vectors that are compared",
    )
}

/// Without an identity a vector has none of its records.
fn check_without(vector: &mut VersionVector, origin: Id) -> Result<(), Fail> {
    vector.without(origin);
    holds(
        !vector.contains_dot(Dot { origin, seq: 1 }),
        "a vector without an identity",
    )
}

#[test]
fn vectors_are_compared(rt: HostRuntime) -> Result<(), Fail> {
    let (zero, one, _) = identities().ok_or("identities")?;
    let mut less = vector(rt.alloc(), zero, 1)?;
    let mut more = less.copy(rt.alloc())?;
    check_compared(&mut less, &mut more)?;
    check_without(&mut more, one)
}

/// Two of the first identity and one of the fourth; and one of the first and four of the second.
fn pair(alloc: Global) -> Result<(VersionVector, VersionVector), Fail> {
    let (zero, one, _) = identities().ok_or("identities")?;
    let three = Id::new(3).ok_or("identities")?;
    let mut left = vector(alloc, zero, 2)?;
    left.raise(three, 1)?;
    let mut right = vector(alloc, zero, 1)?;
    right.raise(one, 4)?;
    Ok((left, right))
}

/// Neither of the two covers the other, and the first has the first identity's records up to 2.
fn check_apart(left: &VersionVector, right: &VersionVector) -> Result<(), Fail> {
    let (origin, _, _) = identities().ok_or("identities")?;
    let order = left.compare(right);
    let contained = left.contains_dot(Dot { origin, seq: 2 });
    let beyond = left.contains_dot(Dot { origin, seq: 3 });
    holds(
        order == Order::Concurrent && contained && !beyond,
        "two vectors apart",
    )
}

/// The two joined have two of the first identity, four of the second, none of the third and one of the fourth.
fn check_both(both: &VersionVector) -> Result<(), Fail> {
    for (number, wanted) in [(0, 2), (1, 4), (2, 0), (3, 1)] {
        let id = Id::new(number).ok_or("identities")?;
        holds(both.at(id) == wanted, "two vectors joined")?;
    }
    Ok(())
}

#[test]
fn two_apart_are_joined(rt: HostRuntime) -> Result<(), Fail> {
    let (mut left, right) = pair(rt.alloc())?;
    check_apart(&left, &right)?;
    left.join(&right)?;
    check_both(&left)
}

#[test]
fn sets_are_united() -> Result<(), Fail> {
    let (zero, one, last) = identities().ok_or("identities")?;
    let ends = IdSet::empty().with(zero).with(last);
    let set = IdSet::empty().with(one).union(ends);
    holds(
        set.has(one) && set.has(last) && set.len() == 3,
        "sets that are united",
    )
}
