ghost use Rattle.std.specs.Prelude.{◌≡◌, Some};

use crate::locked::Locked;
use crate::member::Member;
use crate::peer::Peer;
use crate::places::Identities;
use crate::section::Section;
use base_vectors::Id;
use std::alloc::Global;
use std::marker::PhantomData;
use std::sync::Mutex;
use thread_cell::cell::Cell;
use thread_cell::spot::Spot;

/// Memory between what threads of different places write, so that these share no line of a cache.
pub type Apart = [u64; 16];

/// A member behind the lock of its place.
#[derive(Drop)]
pub struct Site<M: Member, N: Section, P: Spot> {
    pub(crate) peer: Peer<N>,
    pub(crate) lock: Mutex<Locked<M, N, P>>,
    pub(crate) apart: Apart,
    ghost here: { peer.place ≡ P.PLACE },
}

impl<M: Member, N: Section, P: Spot> Site<M, N, P> {
    ghost use Rattle.std.specs.Prelude.{[]};
    ghost use Rattle.thread_cell.specs.Lists.{at};
    ghost use Rattle.thread_cluster.specs.Books.{AreIds};

    /// The member of an identity behind a lock. Its cell has no entry yet. With the identities of all places.
    pub fn new(alloc: Global, id: Id, cell: Cell<M, N, P>, ids: &Identities) -> Site<M, N, P>
        requires id { N.ids P.PLACE ≡ Some id }
        requires empty { at cell.seen.known P.PLACE ≡ [] }
        requires ids { AreIds N.ids ids.now }
        ensures { result.peer.id ≡ id }
    {
        let peer = Peer {
            place: P::PLACE,
            id,
            of: PhantomData,
        };
        let lock = Mutex::new(Locked::new(alloc, cell, ids));
        Site {
            peer,
            lock,
            apart: [0; 16],
        }
    }
}
