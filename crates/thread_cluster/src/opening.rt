ghost use Rattle.std.specs.Prelude.{◌≡◌, is_some, IfSome};
ghost use Rattle.thread_cluster.specs.Passing.{AreApart, Hears};
ghost use Rattle.thread_cluster.specs.Opening.{IsNew, AreNew, AreWholeCells, AllHear};
ghost use Rattle.thread_cluster.specs.Books.{AreIds};

use crate::cluster::Cluster;
use crate::member::Member;
use crate::places::Identities;
use crate::section::Section;
use crate::site::Site;
use base_vectors::Id;
use member_views::ViewList;
use std::alloc::Global;
use thread_cell::cell::Cell;
use thread_cell::spot::Spot;
use thread_cell::unnamed::Cells;

/// The member of an identity behind a lock, where there is one.
fn site_of<M: Member, N: Section, P: Spot>(
    alloc: Global,
    cell: Option<Cell<M, N, P>>,
    id: Option<Id>,
    ids: &Identities,
) -> Option<Site<M, N, P>>
    requires new { IsNew N.ids P.PLACE cell id }
    requires ids { AreIds N.ids ids.now }
    ensures { is_some result ≡ is_some (N.ids P.PLACE) }
{
    match (cell, id) {
        (Some(cell), Some(id)) => Some(Site::new(alloc, id, cell, ids)),
        _ => None,
    }
}

/// What is so of new cells and identities: these are the identities of all places.
fn listed<M: Member, N: Section>(cells: &Cells<M, N>, ids: &Identities)
    requires { AreNew N.ids cells.now ids.now }
    ensures { AreIds N.ids ids.now }
{
    let _cells = cells;
    let _ids = ids;
}

/// The cell behind a lock, where there is one.
fn cell_of<M: Member, N: Section, P: Spot>(site: Option<Site<M, N, P>>) -> Option<Cell<M, N, P>>
    ensures same { is_some result ≡ is_some site }
    ensures hears { IfSome result (λ cell. Hears M.posted M.taken N.ids P.PLACE cell.seen.known) }
{
    match site {
        Some(site) => Some(site.lock.into_inner().into_cell()),
        None => None,
    }
}

impl<M: Member, N: Section> Cluster<M, N> {
    /// Members behind locks: the cells of a table that was just named, with the identities of their members. No identity
    /// is given twice.
    pub fn new(alloc: Global, views: ViewList, cells: Cells<M, N>, ids: Identities) -> Cluster<M, N>
        requires apart { AreApart N.ids }
        requires new { AreNew N.ids cells ids }
        ensures table { result.table ≡ cells.table }
        ensures views { result.views ≡ views }
    {
        listed(&cells, &ids);
        let Cells {
            table,
            p0,
            p1,
            p2,
            p3,
            p4,
            p5,
            p6,
            p7,
        } = cells;
        Cluster {
            alloc,
            views,
            table,
            ids,
            apart: [0; 16],
            p0: site_of(alloc, p0, ids.p0, &ids),
            p1: site_of(alloc, p1, ids.p1, &ids),
            p2: site_of(alloc, p2, ids.p2, &ids),
            p3: site_of(alloc, p3, ids.p3, &ids),
            p4: site_of(alloc, p4, ids.p4, &ids),
            p5: site_of(alloc, p5, ids.p5, &ids),
            p6: site_of(alloc, p6, ids.p6, &ids),
            p7: site_of(alloc, p7, ids.p7, &ids),
        }
    }

    /// The views and the cells, from which what each member took of each other one is known to be the first of what the other
    /// posted to it.
    pub fn into_cells(self) -> (ViewList, Cells<M, N>)
        ensures views { result.0 ≡ self.views }
        ensures table { result.1.table ≡ self.table }
        ensures whole { AreWholeCells N.ids result.1 }
        ensures hear { AllHear M.posted M.taken N.ids result.1 }
    {
        let Cluster {
            alloc: _,
            views,
            table,
            ids: _,
            apart: _,
            p0,
            p1,
            p2,
            p3,
            p4,
            p5,
            p6,
            p7,
        } = self;
        let cells = Cells {
            table,
            p0: cell_of(p0),
            p1: cell_of(p1),
            p2: cell_of(p2),
            p3: cell_of(p3),
            p4: cell_of(p4),
            p5: cell_of(p5),
            p6: cell_of(p6),
            p7: cell_of(p7),
        };
        (views, cells)
    }
}
