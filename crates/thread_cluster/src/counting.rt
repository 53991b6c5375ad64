ghost use Rattle.std.specs.Prelude.{◌≡◌, ℕ, ◌<◌, ◌≤◌, length, slice_get, slice_index, Some, IfOk, IfSome, IfNone};
ghost use Rattle.thread_cluster.specs.Books.{IsCounted, AreCounted, IsUnheard, IsAllHeard};
ghost use Rattle.thread_cluster.specs.Knowing.{Sees};

use crate::book::Counts;
use crate::cluster::Cluster;
use crate::member::Member;
use crate::section::Section;
use base_bytes::Memory;
use std::sync::Wait;
use thread_cell::session::Session;

/// The number of the first message of a member that another one has still to hear, by the numbers of all books; none if it
/// heard all.
pub(crate) fn first_unheard(all: &[Counts], from: usize, to: usize) -> Option<usize>
    requires { (from < 8) × (to < 8) }
    ensures some { IfSome result (IsUnheard all.now from to) }
    ensures none { IfNone result (IsAllHeard all.now from to) }
{
    let Some(here) = all.get(from) else {
        return None;
    };
    let Some(there) = all.get(to) else {
        return None;
    };
    let number = there.heard[from];
    if here.posted[to] <= number {
        return None;
    }
    Some(number)
}

impl<M: Member, N: Section> Cluster<M, N> {
    /// How many messages the member at a place posted to each other one, and heard of it: none where there is no member.
    fn counts_at(&self, rt: &impl Wait, place: usize, session: &mut Session<M>) -> Counts
        requires { session.old.seen.table ≡ N.table }
        ensures table { session.new.seen.table ≡ N.table }
        ensures sees { Sees session.old session.new }
        ensures counted { (i : ℕ) → N.ids place ≡ Some i → IsCounted M.posted M.taken N.ids place session.new.seen.known result }
    {
        let Some(site) = self.site(place) else {
            return Counts {
                posted: [0; 8],
                heard: [0; 8],
            };
        };
        site.counts(rt, &self.table, session)
    }

    /// The same of all places, one after another. Each is locked once.
    ///
    /// # Errors
    ///
    /// Memory was refused.
    pub(crate) fn all_counts(
        &self,
        rt: &impl Wait,
        session: &mut Session<M>,
    ) -> Result<Vec<Counts>, Memory>
        requires { session.old.seen.table ≡ N.table }
        ensures table { session.new.seen.table ≡ N.table }
        ensures sees { Sees session.old session.new }
        ensures counted { IfOk result (λ all. AreCounted M.posted M.taken N.ids all.items session.old.seen.known session.new.seen.known) }
        ensures count { IfOk result (λ all. length all.items ≡ 8) }
    {
        let mut all = Vec::new(self.alloc);
        all.reserve(8)?;
        for place in 0..8 {
            let counts = self.counts_at(rt, place, session);
            all.push(counts)?;
        }
        Ok(all)
    }
}
