use crate::dot_list::DotList;
use std::alloc::Global;
use std::marker::Model;

/// A set in which an add wins over a remove that hasn't seen it, after the optimised OR-Set of Bieniusa et al.: its elements with the dots that no one has
/// replaced, in the order of the elements' bytes, then of origins, then of numbers.
#[derive(Drop)]
pub struct OrSet {
    pub(crate) alloc: Global,
    pub(crate) dots: DotList,
}

impl Model for OrSet {
    ghost use Rattle.std.specs.Prelude.{map};
    ghost use Rattle.std.specs.Ordering.{nat_cmp};
    ghost use Rattle.std.specs.Cmp.Lexicographic.{slice_cmp};
    ghost use Rattle.std.specs.Coded.{coded_ℕ, coded_list};
    ghost use Rattle.std.specs.FinSet as set;
    ghost use Rattle.data_orset.specs.Placing.{key_of, AreDots};

    ghost Value = { set.FinSet (slice_cmp nat_cmp) };

    ghost coded = { set.code (coded_list coded_ℕ) };

    ghost view = { λ state. set.from_list (map key_of state.dots) };

    ghost invariant = { λ state. AreDots state.dots };
}

/// What one or more operations of one origin did: the dots that they added and that none of them replaced, and all dots that they saw, their own with them.
#[derive(Drop)]
pub struct SetDelta {
    pub fresh: OrSet,
    pub seen: OrSet,
}
