ghost use Rattle.std.specs.Prelude.{◌≡◌, ℕ, ◌≤◌, true, false, Some, is_some, IfSome, IfNone, ◌↔◌};
ghost use Rattle.thread_cluster.specs.Passing.{AreApart};
ghost use Rattle.thread_cluster.specs.Knowing.{IsNowhere};
ghost use Rattle.thread_cluster.specs.Sites.{place_of};

use crate::any_site::AnySite;
use crate::cluster::Cluster;
use crate::member::Member;
use crate::section::Section;
use base_vectors::Id;

/// Whether there is an identity, and it is this one.
fn is_one(given: Option<Id>, id: Id) -> bool
    ensures { result ≡ true ↔ (given ≡ Some id) }
{
    match given {
        Some(other) => other == id,
        None => false,
    }
}

impl<M: Member, N: Section> Cluster<M, N> {
    /// What is always so: no identity is at two places, and none at another place than the eight.
    pub(crate) fn facts(&self)
        ensures apart { AreApart N.ids }
        ensures within { (p : ℕ) → 8 ≤ p → is_some (N.ids p) ≡ false }
    {
        let _table = &self.table;
    }

    /// The member at a place, if there is one.
    pub(crate) fn site(&self, place: usize) -> Option<AnySite<'_, M, N>>
        ensures some { IfSome result (λ site. place_of site ≡ place) }
        ensures none { IfNone result (is_some (N.ids place) ≡ false) }
    {
        match place {
            0 => Some(AnySite::P0(self.p0.as_ref()?)),
            1 => Some(AnySite::P1(self.p1.as_ref()?)),
            2 => Some(AnySite::P2(self.p2.as_ref()?)),
            3 => Some(AnySite::P3(self.p3.as_ref()?)),
            4 => Some(AnySite::P4(self.p4.as_ref()?)),
            5 => Some(AnySite::P5(self.p5.as_ref()?)),
            6 => Some(AnySite::P6(self.p6.as_ref()?)),
            7 => Some(AnySite::P7(self.p7.as_ref()?)),
            _ => None,
        }
    }

    /// The place of an identity, if it has one.
    fn place(&self, id: Id) -> Option<usize>
        ensures some { IfSome result (λ place. N.ids place ≡ Some id) }
        ensures none { IfNone result (IsNowhere N.ids id) }
    {
        if is_one(self.ids.p0, id) {
            return Some(0);
        }
        if is_one(self.ids.p1, id) {
            return Some(1);
        }
        if is_one(self.ids.p2, id) {
            return Some(2);
        }
        if is_one(self.ids.p3, id) {
            return Some(3);
        }
        if is_one(self.ids.p4, id) {
            return Some(4);
        }
        if is_one(self.ids.p5, id) {
            return Some(5);
        }
        if is_one(self.ids.p6, id) {
            return Some(6);
        }
        if is_one(self.ids.p7, id) {
            return Some(7);
        }
        None
    }

    /// The member of an identity, if there is one.
    pub(crate) fn find(&self, id: Id) -> Option<AnySite<'_, M, N>>
        ensures some { IfSome result (λ site. N.ids (place_of site) ≡ Some id) }
        ensures none { IfNone result (IsNowhere N.ids id) }
    {
        match self.place(id) {
            Some(place) => self.site(place),
            None => None,
        }
    }

    /// Whether a member has the identity.
    pub fn has(&self, id: Id) -> bool
        ensures { result ≡ false ↔ IsNowhere N.ids id }
    {
        self.find(id).is_some()
    }
}
