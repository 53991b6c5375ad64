//! Lists of views.

ghost use Rattle.std.specs.Prelude.{◌<◌};

use crate::same::{holds, same};
use base_vectors::Id;
use member_views::{View, ViewError, ViewList};
use std::alloc::Global;
use std::test::Fail;

fn id(number: u8) -> Result<Id, Fail> {
    Ok(Id::new(number).ok_or("no identity")?)
}

/// Each member's identity and place.
fn pairs(alloc: Global, view: &View) -> Result<Vec<(u8, u8)>, Fail> {
    let mut pairs = Vec::new(alloc);
    for member in view.members() {
        pairs.push((member.id.number(), member.place))?;
    }
    Ok(pairs)
}

/// A list of a first view of three makes three more.
fn check_changes(list: &mut ViewList) -> Result<(), Fail> {
    let removed = id(0)?;
    let replaced = id(1)?;
    let third = id(3)?;
    let fourth = id(4)?;
    same(
        &(list.remove(removed), list.join(7), list.replace(replaced)),
        &(Ok(1), Ok((third, 2)), Ok((fourth, 3))),
        "three more views",
    )
}

/// A view's number, how many identities are given in it, and its members with their places.
type Row = (u32, u8, &'static [(u8, u8)]);

const VIEWS: &[Row] = &[
    (0, 3, &[(0, 0), (1, 1), (2, 2)]),
    (1, 3, &[(1, 1), (2, 2)]),
    (2, 4, &[(1, 1), (2, 2), (3, 7)]),
    (3, 5, &[(2, 2), (3, 7), (4, 1)]),
];

/// A list has this view at its number.
fn check_view(alloc: Global, list: &ViewList, row: &Row) -> Result<(), Fail> {
    let (number, given, members) = row;
    let view = list.get(*number).ok_or("no view")?;
    let pairs = pairs(alloc, view)?;
    same(
        &(view.number(), view.given(), pairs.as_slice()),
        &(*number, *given, *members),
        "a view of a list",
    )
}

/// These are all the views of a list.
fn check_views(alloc: Global, list: &ViewList) -> Result<(), Fail> {
    for row in VIEWS {
        check_view(alloc, list, row)?;
    }
    holds(list.get(4).is_none(), "a view that was not made")
}

#[test]
fn views_follow_one_another(rt: HostRuntime) -> Result<(), Fail> {
    let mut list = ViewList::new(rt.alloc(), 3)?;
    check_changes(&mut list)?;
    check_views(rt.alloc(), &list)
}

/// A view of two in which the first gave way to a new member.
fn check_replaced(view: &View) -> Result<(), Fail> {
    let (gone, leader, new) = (id(0)?, id(1)?, id(2)?);
    holds(
        !view.contains(gone) && view.contains(new) && view.is_taken(0) && !view.is_taken(2),
        "the members of a view",
    )?;
    same(
        &(view.leader(), view.place_of(new), view.place_of(gone)),
        &(leader, Some(0), None),
        "the places of a view",
    )
}

/// The same is so of a copy of the view.
fn check_copy(alloc: Global, view: &View) -> Result<(), Fail> {
    check_replaced(&view.copy(alloc)?)
}

#[test]
fn views_are_read(rt: HostRuntime) -> Result<(), Fail> {
    let mut list = ViewList::new(rt.alloc(), 2)?;
    list.replace(id(0)?)?;
    check_copy(rt.alloc(), list.last())?;
    list.undo();
    holds(list.last().number() == 0, "a view that was undone")
}

/// A list of a first view of one member is not changed.
fn check_refused_of_one(list: &mut ViewList) -> Result<(), Fail> {
    let (only, other) = (id(0)?, id(1)?);
    let refused = (list.remove(other), list.remove(only), list.join(0));
    same(
        &refused,
        &(
            Err(ViewError::NotMember),
            Err(ViewError::LastMember),
            Err(ViewError::PlaceTaken),
        ),
        "changes of a list of one",
    )
}

/// The only member gives way to the next identity.
fn check_replaced_by_next(list: &mut ViewList, number: u8) -> Result<(), Fail>
    requires { number < 254 }
{
    let (old, new) = (id(number)?, id(number + 1)?);
    same(
        &list.replace(old),
        &Ok((new, u32::from(number) + 1)),
        "a view of the next identity",
    )
}

/// The only member gives way to the next identity, until all are given.
fn check_all_replaced(list: &mut ViewList) -> Result<(), Fail> {
    for number in 0..254 {
        check_replaced_by_next(list, number)?;
    }
    Ok(())
}

/// A list in which all identities are given, and the last is the only member, is not changed.
fn check_refused_of_last(list: &mut ViewList) -> Result<(), Fail> {
    let (first, last) = (id(0)?, id(254)?);
    let refused = (list.replace(first), list.replace(last), list.join(1));
    same(
        &refused,
        &(
            Err(ViewError::NotMember),
            Err(ViewError::TooManyIdentities),
            Err(ViewError::TooManyIdentities),
        ),
        "changes of a list of the last identity",
    )?;
    holds(list.last().number() == 254, "the last view")
}

#[test]
fn changes_are_refused(rt: HostRuntime) -> Result<(), Fail> {
    let mut list = ViewList::new(rt.alloc(), 1)?;
    check_refused_of_one(&mut list)?;
    check_all_replaced(&mut list)?;
    check_refused_of_last(&mut list)
}
