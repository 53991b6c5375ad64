ghost use Rattle.std.specs.Prelude.{◌≡◌, ◌+◌, ◌<◌, ◌≤◌, [], ◌∷◌, ◌++◌, length, slice_get, OnOk, OnErr, IfOk, IfErr};
ghost use Rattle.std.specs.Option.{option_copied};
ghost use Rattle.member_views.specs.Views.{first_view, without_member, with_joined, with_replaced};
ghost use Rattle.member_views.specs.Sound.{last_view, AreViews};
ghost use Rattle.member_views.specs.Changes.{CanRemove, CanJoin, CanReplace, RefusesRemoval, RefusesJoin, RefusesReplacement};

use crate::view::{PLACES, View};
use base_bytes::Memory;
use base_vectors::Id;
use std::alloc::Global;
use std::marker::Model;
use thiserror::Error;

/// Why the views were not changed.
#[derive(Clone, Copy, Debug, PartialEq, Eq, Error)]
pub enum ViewError {
    /// The identity is no member of the last view.
    #[error("not a member")]
    NotMember,
    /// A member of the last view runs at the place.
    #[error("the place is taken")]
    PlaceTaken,
    /// All 255 identities are given.
    #[error("too many identities")]
    TooManyIdentities,
    /// The identity is the only member of the last view.
    #[error("the last member")]
    LastMember,
    /// Memory was refused.
    #[error("out of memory")]
    Memory,
}

impl From<Memory> for ViewError {
    ghost use Rattle.std.specs.Prelude.{◌≡◌};
    ghost use Rattle.member_views.specs.declared.list.ViewError.TheVariants as error;

    ghost from_gives = { λ _ e. e ≡ error.Memory };

    fn from(_refused: Memory) -> ViewError {
        ViewError::Memory
    }
}

/// The views so far: 0, 1, 2 and so on, in order.
#[derive(Drop)]
pub struct ViewList {
    alloc: Global,
    views: Vec<View>,
}

impl Model for ViewList {
    ghost use Rattle.std.specs.Prelude.{List};
    ghost use Rattle.member_views.specs.Views.{View as Seats};
    ghost use Rattle.member_views.specs.Sound.{AreViews};

    ghost Value = { List Seats };

    ghost view = { λ l. l.views.items };

    ghost invariant = { λ l. AreViews l.views.items };
}

impl ViewList {
    /// View 0 alone, with so many members: identity i at place i.
    pub fn new(alloc: Global, members: u8) -> Result<ViewList, Memory>
        requires some { 1 ≤ members }
        requires few { members ≤ PLACES }
        ensures { IfOk result (λ list. list ≡ first_view members ∷ []) }
    {
        let first = View::first(alloc, members)?;
        let mut views = Vec::new(alloc);
        views.push(first)?;
        Ok(ViewList { alloc, views })
    }

    /// The last view.
    pub fn last(&self) -> &View
        ensures last { result.now ≡ last_view self.now }
        ensures sound { AreViews self.now }
    {
        &self.views[self.views.len() - 1]
    }

    /// The view of a number, and none where there is no such view.
    pub fn get(&self, number: u32) -> Option<&View>
        ensures view { option_copied result ≡ slice_get self.now number }
        ensures sound { AreViews self.now }
    {
        self.views.get(number as usize)
    }

    /// Appends a view without a member, and answers its number. It refuses an identity that is no member of the last view,
    /// and its only member. After a refusal the views are as before.
    pub fn remove(&mut self, id: Id) -> Result<u32, ViewError>
        ensures ok { OnOk result (self.new ≡ self.old ++ without_member (last_view self.old) id ∷ []) }
        ensures number { IfOk result (λ number. number ≡ (last_view self.old).number + 1) }
        ensures able { OnOk result (CanRemove (last_view self.old) id) }
        ensures refused { IfErr result (RefusesRemoval (last_view self.old) id) }
        ensures err { OnErr result (self.new ≡ self.old) }
    {
        let last = self.last();
        if !last.contains(id) {
            return Err(ViewError::NotMember);
        }
        if last.members().len() == 1 {
            return Err(ViewError::LastMember);
        }
        let next = last.without(self.alloc, id)?;
        self.append(next)
    }

    /// Appends a view in which the next identity runs at a place, and answers the identity and the view's number. It refuses a
    /// place where a member of the last view runs, and where no identity is left. After a refusal the views are as before.
    pub fn join(&mut self, place: u8) -> Result<(Id, u32), ViewError>
        requires { place < PLACES }
        ensures ok { OnOk result (self.new ≡ self.old ++ with_joined (last_view self.old) place ∷ []) }
        ensures identity { IfOk result (λ given. given.0 ≡ (last_view self.old).given) }
        ensures number { IfOk result (λ given. given.1 ≡ (last_view self.old).number + 1) }
        ensures able { OnOk result (CanJoin (last_view self.old) place) }
        ensures refused { IfErr result (RefusesJoin (last_view self.old) place) }
        ensures err { OnErr result (self.new ≡ self.old) }
    {
        let last = self.last();
        if last.is_taken(place) {
            return Err(ViewError::PlaceTaken);
        }
        let Some(id) = Id::new(last.given()) else {
            return Err(ViewError::TooManyIdentities);
        };
        let next = last.joined(self.alloc, place)?;
        let number = self.append(next)?;
        Ok((id, number))
    }

    /// Appends a view in which the next identity runs at the place of a member, which leaves; and answers the identity and the
    /// view's number. It refuses an identity that is no member of the last view, and where no identity is left. After a refusal
    /// the views are as before.
    pub fn replace(&mut self, id: Id) -> Result<(Id, u32), ViewError>
        ensures ok { OnOk result (self.new ≡ self.old ++ with_replaced (last_view self.old) id ∷ []) }
        ensures identity { IfOk result (λ given. given.0 ≡ (last_view self.old).given) }
        ensures number { IfOk result (λ given. given.1 ≡ (last_view self.old).number + 1) }
        ensures able { OnOk result (CanReplace (last_view self.old) id) }
        ensures refused { IfErr result (RefusesReplacement (last_view self.old) id) }
        ensures err { OnErr result (self.new ≡ self.old) }
    {
        let last = self.last();
        if !last.contains(id) {
            return Err(ViewError::NotMember);
        }
        let Some(new) = Id::new(last.given()) else {
            return Err(ViewError::TooManyIdentities);
        };
        let next = last.replaced(self.alloc, id)?;
        let number = self.append(next)?;
        Ok((new, number))
    }

    /// Takes the last view away, of at least two. The others stay.
    pub fn undo(&mut self)
        requires { 2 ≤ length self.old }
        ensures { self.old ≡ self.new ++ last_view self.old ∷ [] }
    {
        self.views.pop();
    }

    /// Appends the next view, and answers its number.
    fn append(&mut self, next: View) -> Result<u32, ViewError>
        requires { next.number ≡ (last_view self.old).number + 1 }
        ensures ok { OnOk result (self.new ≡ self.old ++ next ∷ []) }
        ensures number { IfOk result (λ number. number ≡ next.number) }
        ensures memory { IfErr result (λ error. error ≡ ViewError.Memory) }
        ensures err { OnErr result (self.new ≡ self.old) }
    {
        let number = next.number();
        match self.views.push(next) {
            Ok(()) => Ok(number),
            Err(_) => Err(ViewError::Memory),
        }
    }
}
