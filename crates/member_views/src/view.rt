ghost use Rattle.std.specs.Prelude.{◌≡◌, ◌==◌, ◌<◌, ◌≤◌, true, false, not, length, filter, find, option_map, IfOk};
ghost use Rattle.model_history.specs.Table.{identity_limit};
ghost use Rattle.member_views.specs.Views.{first_view, without_member, with_joined, with_replaced, is_member, is_taken, leader};
ghost use Rattle.member_views.specs.Sound.{IsView};

use base_bytes::Memory;
use base_vectors::Id;
use std::alloc::Global;
use std::marker::Model;

/// Every place is below this.
pub const PLACES: u8 = 8;

/// A member: its identity, and the place where it runs.
#[derive(Clone, Copy, Debug, PartialEq, Eq)]
pub struct Member {
    pub id: Id,
    pub place: u8,
}

impl Model for Member {
    ghost use Rattle.member_views.specs.Views.{Member as Seat};

    ghost Value = { Seat };

    ghost view = { λ m. record { identity = m.id; place = m.place } };

    ghost inverse = { λ s. record { id = s.identity; place = s.place } };
}

/// A view: its number, how many identities were given so far, and its members.
///
/// It has a member. The identities of its members rise and were given, and their places are below 8 and differ. At most 255
/// identities are given.
#[derive(Drop)]
pub struct View {
    number: u32,
    given: u8,
    members: Vec<Member>,
}

impl Model for View {
    ghost use Rattle.member_views.specs.Views.{View as Seats};

    ghost Value = { Seats };

    ghost use Rattle.member_views.specs.Sound.{IsView};

    ghost view = { λ v. record { number = v.number; given = v.given; members = v.members.items } };

    ghost invariant = { λ v. IsView (record { number = v.number; given = v.given; members = v.members.items }) };
}

impl View {
    /// View 0, with so many members, from identity 0 on, each at the place of its number.
    pub(crate) fn first(alloc: Global, members: u8) -> Result<View, Memory>
        requires some { 1 ≤ members }
        requires few { members ≤ PLACES }
        ensures view { IfOk result (λ view. view ≡ first_view members) }
        ensures sound { IfOk result IsView }
    {
        Ok(View {
            number: 0,
            given: members,
            members: first_members(alloc, members)?,
        })
    }

    /// The view with these parts, which are those of a view: whoever made them, or read them, tests that.
    pub fn from_parts(number: u32, given: u8, members: Vec<Member>) -> View
        requires { IsView (record { number = number; given = given; members = members.items }) }
        ensures { result ≡ record { number = number; given = given; members = members.items } }
    {
        View {
            number,
            given,
            members,
        }
    }

    /// The number of the view, from 0 on.
    pub fn number(&self) -> u32
        ensures number { result ≡ self.now.number }
        ensures sound { IsView self.now }
    {
        self.number
    }

    /// How many identities were given so far. Those below that are no members were removed.
    pub fn given(&self) -> u8
        ensures given { result ≡ self.now.given }
        ensures sound { IsView self.now }
    {
        self.given
    }

    /// The members, their identities rising.
    pub fn members(&self) -> &[Member]
        ensures members { result.now ≡ self.now.members }
        ensures sound { IsView self.now }
    {
        &self.members
    }

    /// The member of the least identity.
    pub fn leader(&self) -> Id
        ensures { result ≡ leader self.now }
    {
        self.members[0].id
    }

    /// Whether an identity is a member.
    pub fn contains(&self, id: Id) -> bool
        ensures { result ≡ is_member self.now id }
    {
        self.members
            .iter()
            .map(|member| member.id)
            .any(|member| member == id)
    }

    /// Whether a member runs at a place.
    pub fn is_taken(&self, place: u8) -> bool
        ensures { result ≡ is_taken self.now place }
    {
        self.members.iter().any(|member| member.place == place)
    }

    /// The place of a member, and none for an identity that is no member.
    pub fn place_of(&self, id: Id) -> Option<u8>
        ensures { result ≡ option_map (λ member. member.place) (find (λ member. member.identity == id) self.now.members) }
    {
        self.members
            .iter()
            .find(|member| member.id == id)
            .map(|member| member.place)
    }

    /// An equal view.
    pub fn copy(&self, alloc: Global) -> Result<View, Memory>
        ensures { IfOk result (λ copy. copy ≡ self.now) }
    {
        Ok(View {
            number: self.number,
            given: self.given,
            members: Vec::from_slice(alloc, &self.members)?,
        })
    }

    /// The next view, without this member.
    pub(crate) fn without(&self, alloc: Global, id: Id) -> Result<View, Memory>
        requires member { is_member self.now id ≡ true }
        requires others { 1 < length self.now.members }
        ensures view { IfOk result (λ view. view ≡ without_member self.now id) }
        ensures sound { IfOk result IsView }
    {
        Ok(View {
            number: self.number + 1,
            given: self.given,
            members: others(alloc, &self.members, id)?,
        })
    }

    /// The next view, in which the next identity runs at a place.
    pub(crate) fn joined(&self, alloc: Global, place: u8) -> Result<View, Memory>
        requires place { place < PLACES }
        requires free { is_taken self.now place ≡ false }
        requires left { self.now.given < identity_limit }
        ensures view { IfOk result (λ view. view ≡ with_joined self.now place) }
        ensures sound { IfOk result IsView }
    {
        let mut members = Vec::from_slice(alloc, &self.members)?;
        let id = Id::new(self.given).unwrap();
        members.push(Member { id, place })?;
        Ok(View {
            number: self.number + 1,
            given: self.given + 1,
            members,
        })
    }

    /// The next view, in which the next identity runs at the place of this member.
    pub(crate) fn replaced(&self, alloc: Global, id: Id) -> Result<View, Memory>
        requires member { is_member self.now id ≡ true }
        requires left { self.now.given < identity_limit }
        ensures view { IfOk result (λ view. view ≡ with_replaced self.now id) }
        ensures sound { IfOk result IsView }
    {
        let place = self.place_of(id).unwrap_or(0);
        let mut members = others(alloc, &self.members, id)?;
        let new = Id::new(self.given).unwrap();
        members.push(Member { id: new, place })?;
        Ok(View {
            number: self.number + 1,
            given: self.given + 1,
            members,
        })
    }
}

/// Members from identity 0 on, each at the place of its number.
fn first_members(alloc: Global, count: u8) -> Result<Vec<Member>, Memory>
    requires { count ≤ PLACES }
    ensures { IfOk result (λ members. members.items ≡ (first_view count).members) }
{
    let mut members = Vec::new(alloc);
    for number in 0..count {
        let id = Id::new(number).unwrap();
        members.push(Member { id, place: number })?;
    }
    Ok(members)
}

/// The members but one.
fn others(alloc: Global, members: &[Member], id: Id) -> Result<Vec<Member>, Memory>
    ensures { IfOk result (λ others. others.items ≡ filter (λ member. not (member.identity == id)) members.now) }
{
    let others = members
        .iter()
        .copied()
        .filter(|member| member.id != id)
        .collect(alloc)?;
    Ok(others)
}
