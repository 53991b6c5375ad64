//! Pruning marks.

ghost use Rattle.std.specs.Prelude.{◌≡◌};

use crate::same::{holds, same};
use base_vectors::{Id, IdSet};
use data_markers::{Marker, Markers};
use std::alloc::Global;
use std::test::Fail;

/// The owner of the marks, another member, and the identity that was removed.
fn identities() -> Option<(Id, Id, Id)> {
    Some((Id::new(1)?, Id::new(2)?, Id::new(7)?))
}

/// Puts the mark of a view that these members have seen, of whom there are some.
fn put_begun(marks: &mut Markers, view: u32, seen: IdSet) -> Result<(), Fail>
    requires { seen ≡ 0 → ⊥ }
{
    let (owner, _, removed) = identities().ok_or("identities")?;
    marks.put(removed, Marker::Initialized { view, owner, seen })?;
    Ok(())
}

/// Puts a mark of view 2, which its owner has seen, and merges one of view 1, which two other members have seen too.
fn put_both(marks: &mut Markers, theirs: &mut Markers) -> Result<(), Fail> {
    let (owner, other, _) = identities().ok_or("identities")?;
    let seen = IdSet::empty().with(owner);
    put_begun(marks, 2, seen)?;
    let first = Id::new(0).ok_or("identities")?;
    put_begun(theirs, 1, seen.with(first).with(other))?;
    marks.merge(theirs)?;
    Ok(())
}

/// The mark of view 2, which only its owner has seen, wins.
fn check_begun(marks: &Markers) -> Result<(), Fail> {
    let (owner, other, removed) = identities().ok_or("identities")?;
    let newer = Marker::Initialized {
        view: 2,
        owner,
        seen: IdSet::empty().with(owner),
    };
    if marks.get(removed) != Some(newer) {
        return Err("the mark of view 2".into());
    }
    same(
        &marks.first_unseen(removed, &[owner, other]),
        &Some(other),
        "who has not seen it",
    )
}

/// The other member sees the mark of view 2, and not one of view 1.
fn check_seen(marks: &mut Markers, theirs: &Markers) -> Result<(), Fail> {
    let (_, other, removed) = identities().ok_or("identities")?;
    let before = marks.add_seen(other, 1);
    let seen = marks.add_seen(other, 2);
    holds(
        !before && seen && !marks.same_begun(theirs, removed),
        "who has seen which mark",
    )
}

/// The mark of a prune wins over what was there.
fn check_performed(alloc: Global, marks: &mut Markers, theirs: &mut Markers) -> Result<(), Fail> {
    let (owner, _, removed) = identities().ok_or("identities")?;
    let done = Marker::Performed {
        owner,
        at: 4,
        upto: 3,
    };
    theirs.put(removed, done)?;
    marks.merge(theirs)?;
    holds(marks.performed(removed), "a prune that was performed")?;
    same(
        &marks.copy(alloc)?.get(removed),
        &Some(done),
        "the mark of the prune",
    )
}

#[test]
fn the_greater_view_wins_and_then_the_prune(rt: HostRuntime) -> Result<(), Fail> {
    let alloc = rt.alloc();
    let mut marks = Markers::new(alloc);
    let mut theirs = Markers::new(alloc);
    put_both(&mut marks, &mut theirs)?;
    check_begun(&marks)?;
    check_seen(&mut marks, &theirs)?;
    check_performed(alloc, &mut marks, &mut theirs)
}
