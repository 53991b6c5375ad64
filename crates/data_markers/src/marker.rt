ghost use Rattle.std.specs.Prelude.{◌≡◌, ℕ, not, find, Some, is_some, IfSome, IfNone};
ghost use Rattle.model_members.specs.Entry.{Mark, is_same_mark, unseen};
ghost use Rattle.base_vectors.specs.IdSets.{members_in};
ghost use Rattle.data_markers.specs.Marks.{begun, is_performed, is_unseen_by, marker_seen_by};
ghost use Rattle.data_markers.specs.Kept.{IsMark};
ghost use Rattle.data_markers.specs.Merging.{merged};

use base_vectors::{Id, IdSet, Seq};

/// How far the pruning of an identity is.
#[derive(Clone, Copy, Debug, PartialEq, Eq)]
pub enum Marker {
    /// The owner is to prune the identity in this view; these members, at least one, have seen the mark.
    Initialized { view: u32, owner: Id, seen: IdSet },
    /// The owner's record of this number pruned the identity, of which it found so many records; both are 1 to `2^62`.
    Performed { owner: Id, at: Seq, upto: Seq },
}

impl Marker {
    /// Of two marks of one identity: performed wins, then the greater view; equal views unite who has seen the mark.
    pub fn merge(self, other: Marker) -> Marker
        ensures { result ≡ merged self other }
    {
        match self {
            Marker::Performed { owner, at, upto } => match other {
                Marker::Initialized { .. } => self,
                Marker::Performed {
                    owner: their_owner,
                    at: their_at,
                    upto: their_upto,
                } => {
                    if owner < their_owner || (owner == their_owner && at < their_at) {
                        return self;
                    }
                    if their_owner < owner || their_at < at {
                        return other;
                    }
                    let upto = upto.min(their_upto);
                    Marker::Performed { owner, at, upto }
                }
            },
            Marker::Initialized { view, owner, seen } => match other {
                Marker::Performed { .. } => other,
                Marker::Initialized {
                    view: their_view,
                    owner: their_owner,
                    seen: their_seen,
                } => {
                    if view < their_view {
                        return other;
                    }
                    if their_view < view {
                        return self;
                    }
                    let owner = owner.min(their_owner);
                    let seen = seen.union(their_seen);
                    Marker::Initialized { view, owner, seen }
                }
            },
        }
    }

    pub(crate) fn is_performed(self) -> bool
        ensures { result ≡ is_performed (Some self) }
    {
        match self {
            Marker::Performed { .. } => true,
            Marker::Initialized { .. } => false,
        }
    }

    /// The mark after a member with this view has seen it, unless it stays the same.
    pub(crate) fn newly_seen(self, id: Id, view: u32) -> Option<Marker>
        ensures some { IfSome result (λ seen. marker_seen_by id view (Some self) ≡ Some seen) }
        ensures none { IfNone result (marker_seen_by id view (Some self) ≡ Some self) }
        ensures unseen { is_some result ≡ is_unseen_by id view (Some self) }
        ensures mark { IfSome result IsMark }
    {
        match self {
            Marker::Performed { .. } => None,
            Marker::Initialized {
                view: begun,
                owner,
                seen,
            } => {
                if begun > view || seen.has(id) {
                    return None;
                }
                Some(Marker::Initialized {
                    view: begun,
                    owner,
                    seen: seen.with(id),
                })
            }
        }
    }

    /// Whether both are the same mark that was begun, or both are performed.
    pub(crate) fn same_begun(self, other: Marker) -> bool
        ensures { result ≡ is_same_mark (begun (Some self)) (begun (Some other)) }
    {
        match self {
            Marker::Performed { .. } => other.is_performed(),
            Marker::Initialized { view, owner, seen } => match other {
                Marker::Performed { .. } => false,
                Marker::Initialized {
                    view: their_view,
                    owner: their_owner,
                    seen: their_seen,
                } => view == their_view && owner == their_owner && seen.same(their_seen),
            },
        }
    }

    /// The first of the members that has not seen a mark that was begun.
    pub(crate) fn first_unseen(self, members: &[Id]) -> Option<Id>
        ensures { (mark : Mark) → begun (Some self) ≡ Some mark → result ≡ unseen mark members.now }
    {
        match self {
            Marker::Performed { .. } => None,
            Marker::Initialized { seen, .. } => first_outside(seen, members),
        }
    }
}

/// The first of the identities that is not in a set.
fn first_outside(set: IdSet, members: &[Id]) -> Option<Id>
    ensures { result ≡ find (λ i. not (members_in set i)) members.now }
{
    members.iter().copied().find(|id| !set.has(*id))
}
