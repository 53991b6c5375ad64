ghost use Rattle.std.specs.Prelude.{◌≡◌, is_some};
ghost use Rattle.thread_cluster.specs.Passing.{AreApart};
ghost use Rattle.thread_cluster.specs.Places.{AreWhole};
ghost use Rattle.thread_cluster.specs.Books.{AreIds};

use crate::member::Member;
use crate::places::Identities;
use crate::section::Section;
use crate::site::{Apart, Site};
use member_views::ViewList;
use std::alloc::Global;
use thread_cell::spot::{Spot0, Spot1, Spot2, Spot3, Spot4, Spot5, Spot6, Spot7};
use thread_cell::table::CellTable;

/// Members of one table, each behind a lock of its own: one for each place that has a member. With the views that there are.
#[derive(Drop)]
pub struct Cluster<M: Member, N: Section> {
    pub(crate) alloc: Global,
    pub(crate) views: ViewList,
    pub(crate) table: CellTable<M, N>,
    /// Whose member is at which place. Calls find a member by these alone, which nothing writes.
    pub(crate) ids: Identities,
    pub(crate) apart: Apart,
    pub(crate) p0: Option<Site<M, N, Spot0>>,
    pub(crate) p1: Option<Site<M, N, Spot1>>,
    pub(crate) p2: Option<Site<M, N, Spot2>>,
    pub(crate) p3: Option<Site<M, N, Spot3>>,
    pub(crate) p4: Option<Site<M, N, Spot4>>,
    pub(crate) p5: Option<Site<M, N, Spot5>>,
    pub(crate) p6: Option<Site<M, N, Spot6>>,
    pub(crate) p7: Option<Site<M, N, Spot7>>,
    ghost distinct: { AreApart N.ids },
    ghost listed: { AreIds N.ids ids },
    ghost whole: { AreWhole N.ids (is_some p0) (is_some p1) (is_some p2) (is_some p3) (is_some p4) (is_some p5) (is_some p6) (is_some p7) },
}
