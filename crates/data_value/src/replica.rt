ghost use Rattle.std.specs.Prelude.{◌≡◌, false, refl};
ghost use Rattle.std.proofs.lemmas.Bool.{false≢true};
ghost use Rattle.model_kinds.specs.SixKinds as meant;
ghost use Rattle.data_value.specs.Values as values;
ghost use Rattle.data_value.specs.Spelled as spelled;
ghost use Rattle.data_value.specs.Laws as laws;

use crate::value::{Change, Value, are_same};
use base_bytes::Memory;
use base_vectors::{Dot, Id, VersionVector};
use data_counters::{GCounter, PnCounter};
use data_growing::{Flag, GSet, LwwRegister};
use data_lattice::{ApplyError, PruneError, Replica};
use data_orset::OrSet;
use model_kinds::{Kind, Op, Shown};
use std::alloc::Global;

impl Replica for Value {
    type Kind = Kind;

    type Op = Op;

    type Delta = Change;

    ghost data_type = { meant.values };

    ghost kind_of = { values.kind_of };

    ghost is_closed = { λ _. false };

    ghost delta_fits_kind = { values.fits_kind };

    ghost IsOfOrigin = { values.IsOfOrigin };

    ghost AreApart = { values.AreApart };

    ghost empty_of = { values.empty_of };

    ghost applied = { values.applied };

    ghost delta_of = { values.delta_of };

    ghost apply_refusal = { values.apply_refusal };

    ghost joined = { values.joined };

    ghost absorbed = { values.absorbed };

    ghost combined = { values.combined };

    ghost cleaned = { values.cleaned };

    ghost pruned = { values.pruned };

    ghost prune_refusal = { values.prune_refusal };

    ghost mentioned = { values.mentioned };

    ghost shown = { values.shown };

    ghost spelling = { λ value. (spelled.byte_of (values.kind_of value), spelled.spelled value) };

    ghost IsDataOf = { values.IsDataOf };

    ghost IsDeltaOf = { values.IsDeltaOf };

    ghost IsWithin = { values.IsWithin };

    fn empty(alloc: Global, kind: &Kind) -> Result<Value, Memory> {
        match kind {
            Kind::GCounter => Ok(Value::GCounter(GCounter::empty(alloc, &())?)),
            Kind::PnCounter => Ok(Value::PnCounter(PnCounter::empty(alloc, &())?)),
            Kind::GSet => Ok(Value::GSet(GSet::empty(alloc, &())?)),
            Kind::OrSet => Ok(Value::OrSet(OrSet::empty(alloc, &())?)),
            Kind::Flag => Ok(Value::Flag(Flag::empty(alloc, &())?)),
            Kind::LwwRegister => Ok(Value::LwwRegister(LwwRegister::empty(alloc, &())?)),
        }
    }

    fn copy(&self, alloc: Global) -> Result<Value, Memory> {
        match self {
            Value::GCounter(state) => Ok(Value::GCounter(state.copy(alloc)?)),
            Value::PnCounter(state) => Ok(Value::PnCounter(state.copy(alloc)?)),
            Value::GSet(state) => Ok(Value::GSet(state.copy(alloc)?)),
            Value::OrSet(state) => Ok(Value::OrSet(state.copy(alloc)?)),
            Value::Flag(state) => Ok(Value::Flag(state.copy(alloc)?)),
            Value::LwwRegister(state) => Ok(Value::LwwRegister(state.copy(alloc)?)),
        }
    }

    fn same_kind(&self, other: &Value) -> bool {
        self.kind() == other.kind()
    }

    fn closed(&self) -> bool {
        false
    }

    fn fits(&self, op: &Op) -> bool {
        match self {
            Value::GCounter(state) => state.fits(op),
            Value::PnCounter(state) => state.fits(op),
            Value::GSet(state) => state.fits(op),
            Value::OrSet(state) => state.fits(op),
            Value::Flag(state) => state.fits(op),
            Value::LwwRegister(state) => state.fits(op),
        }
    }

    fn apply(&mut self, alloc: Global, op: &Op, dot: Dot) -> Result<Change, ApplyError> {
        match self {
            Value::GCounter(state) => state.apply(alloc, op, dot).map(Change::GCounter),
            Value::PnCounter(state) => state.apply(alloc, op, dot).map(Change::PnCounter),
            Value::GSet(state) => state.apply(alloc, op, dot).map(Change::GSet),
            Value::OrSet(state) => state.apply(alloc, op, dot).map(Change::OrSet),
            Value::Flag(state) => state.apply(alloc, op, dot).map(Change::Flag),
            Value::LwwRegister(state) => state.apply(alloc, op, dot).map(Change::LwwRegister),
        }
    }

    fn join(
        &mut self,
        mine: &VersionVector,
        other: &Value,
        theirs: &VersionVector,
    ) -> Result<(), Memory> {
        match self {
            Value::GCounter(state) => match other {
                Value::GCounter(other) => state.join(mine, other, theirs),
                _ => unreachable!(),
            },
            Value::PnCounter(state) => match other {
                Value::PnCounter(other) => state.join(mine, other, theirs),
                _ => unreachable!(),
            },
            Value::GSet(state) => match other {
                Value::GSet(other) => state.join(mine, other, theirs),
                _ => unreachable!(),
            },
            Value::OrSet(state) => match other {
                Value::OrSet(other) => state.join(mine, other, theirs),
                _ => unreachable!(),
            },
            Value::Flag(state) => match other {
                Value::Flag(other) => state.join(mine, other, theirs),
                _ => unreachable!(),
            },
            Value::LwwRegister(state) => match other {
                Value::LwwRegister(other) => state.join(mine, other, theirs),
                _ => unreachable!(),
            },
        }
    }

    fn absorb(&mut self, mine: &VersionVector, delta: &Change) -> Result<(), Memory> {
        match self {
            Value::GCounter(state) => match delta {
                Change::GCounter(change) => state.absorb(mine, change),
                _ => unreachable!(),
            },
            Value::PnCounter(state) => match delta {
                Change::PnCounter(change) => state.absorb(mine, change),
                _ => unreachable!(),
            },
            Value::GSet(state) => match delta {
                Change::GSet(change) => state.absorb(mine, change),
                _ => unreachable!(),
            },
            Value::OrSet(state) => match delta {
                Change::OrSet(change) => state.absorb(mine, change),
                _ => unreachable!(),
            },
            Value::Flag(state) => match delta {
                Change::Flag(change) => state.absorb(mine, change),
                _ => unreachable!(),
            },
            Value::LwwRegister(state) => match delta {
                Change::LwwRegister(change) => state.absorb(mine, change),
                _ => unreachable!(),
            },
        }
    }

    fn extend_delta(delta: &mut Change, later: &Change) -> Result<(), Memory> {
        match delta {
            Change::GCounter(change) => match later {
                Change::GCounter(later) => GCounter::extend_delta(change, later),
                _ => unreachable!(),
            },
            Change::PnCounter(change) => match later {
                Change::PnCounter(later) => PnCounter::extend_delta(change, later),
                _ => unreachable!(),
            },
            Change::GSet(change) => match later {
                Change::GSet(later) => GSet::extend_delta(change, later),
                _ => unreachable!(),
            },
            Change::OrSet(change) => match later {
                Change::OrSet(later) => OrSet::extend_delta(change, later),
                _ => unreachable!(),
            },
            Change::Flag(change) => match later {
                Change::Flag(later) => Flag::extend_delta(change, later),
                _ => unreachable!(),
            },
            Change::LwwRegister(change) => match later {
                Change::LwwRegister(later) => LwwRegister::extend_delta(change, later),
                _ => unreachable!(),
            },
        }
    }

    fn copy_delta(alloc: Global, delta: &Change) -> Result<Change, Memory> {
        match delta {
            Change::GCounter(change) => GCounter::copy_delta(alloc, change).map(Change::GCounter),
            Change::PnCounter(change) => PnCounter::copy_delta(alloc, change).map(
                Change::PnCounter,
            ),
            Change::GSet(change) => GSet::copy_delta(alloc, change).map(Change::GSet),
            Change::OrSet(change) => OrSet::copy_delta(alloc, change).map(Change::OrSet),
            Change::Flag(change) => Flag::copy_delta(alloc, change).map(Change::Flag),
            Change::LwwRegister(change) => LwwRegister::copy_delta(alloc, change).map(
                Change::LwwRegister,
            ),
        }
    }

    fn delta_fits(&self, delta: &Change) -> bool {
        are_same(self.kind(), delta.kind())
    }

    fn clean(&mut self, id: Id) {
        match self {
            Value::GCounter(state) => state.clean(id),
            Value::PnCounter(state) => state.clean(id),
            Value::GSet(state) => state.clean(id),
            Value::OrSet(state) => state.clean(id),
            Value::Flag(state) => state.clean(id),
            Value::LwwRegister(state) => state.clean(id),
        }
    }

    fn prune(&mut self, removed: Id, dot: Dot) -> Result<(), PruneError> {
        match self {
            Value::GCounter(state) => state.prune(removed, dot),
            Value::PnCounter(state) => state.prune(removed, dot),
            Value::GSet(state) => state.prune(removed, dot),
            Value::OrSet(state) => state.prune(removed, dot),
            Value::Flag(state) => state.prune(removed, dot),
            Value::LwwRegister(state) => state.prune(removed, dot),
        }
    }

    fn mentions(&self, id: Id) -> bool {
        match self {
            Value::GCounter(state) => state.mentions(id),
            Value::PnCounter(state) => state.mentions(id),
            Value::GSet(state) => state.mentions(id),
            Value::OrSet(state) => state.mentions(id),
            Value::Flag(state) => state.mentions(id),
            Value::LwwRegister(state) => state.mentions(id),
        }
    }

    fn show(&self, alloc: Global) -> Result<Shown, Memory> {
        match self {
            Value::GCounter(state) => state.show(alloc),
            Value::PnCounter(state) => state.show(alloc),
            Value::GSet(state) => state.show(alloc),
            Value::OrSet(state) => state.show(alloc),
            Value::Flag(state) => state.show(alloc),
            Value::LwwRegister(state) => state.show(alloc),
        }
    }

    ghost kind_empty = { laws.kind_empty };

    ghost kind_applied = { laws.kind_applied };

    ghost kind_joined = { laws.kind_joined };

    ghost kind_absorbed = { laws.kind_absorbed };

    ghost kind_cleaned = { laws.kind_cleaned };

    ghost kind_pruned = { laws.kind_pruned };

    ghost closed_joined = { λ _ _ _ _. refl };

    ghost closed_absorbed = { λ _ _ _ is. is };

    ghost closed_cleaned = { λ _ _. refl };

    ghost closed_pruned = { λ _ _ _. refl };

    ghost closed_mentions = { λ _ _ is. absurd (false≢true is) };

    ghost closed_shown = { λ _ is. absurd (false≢true is) };

    ghost closed_unblocked = { λ _ _ _ is. absurd (false≢true is) };

    ghost delta_kind = { λ state op dot _. laws.delta_kind state op dot };

    ghost delta_origin = { laws.delta_origin };

    ghost combined_kind = { λ kind first later fits _. laws.combined_kind kind first later fits };

    ghost combined_origin = { laws.combined_origin };

    ghost delta_made_by = { laws.delta_made_by };

    ghost join_comm = { laws.join_comm };

    ghost join_assoc = { laws.join_assoc };

    ghost join_same = { laws.join_same };

    ghost join_upper = { laws.join_upper };

    ghost join_within = { laws.join_within };

    ghost absorb_applied = { laws.absorb_applied };

    ghost absorb_combined = { laws.absorb_combined };

    ghost data_empty = { laws.data_empty };

    ghost data_applied = { laws.data_applied };

    ghost data_joined = { laws.data_joined };

    ghost data_absorbed = { laws.data_absorbed };

    ghost data_cleaned = { laws.data_cleaned };

    ghost data_pruned = { laws.data_pruned };

    ghost delta_combined = { laws.delta_combined };

    ghost data_within = { laws.data_within };

    ghost data_unmentioned = { laws.data_unmentioned };

    ghost data_once = { laws.data_once };

    ghost empty_mentions = { laws.empty_mentions };

    ghost applied_mentions = { laws.applied_mentions };

    ghost joined_mentions = { laws.joined_mentions };

    ghost absorbed_mentions = { laws.absorbed_mentions };

    ghost cleaned_mentions = { laws.cleaned_mentions };

    ghost cleaned_unmentioned = { laws.cleaned_unmentioned };

    ghost pruned_mentions = { laws.pruned_mentions };

    ghost pruned_unmentioned = { laws.pruned_unmentioned };

    ghost closed_means = { λ _ _ _ _ _ _. refl };

    ghost refusal_means = { laws.refusal_means };

    ghost blocked_means = { laws.blocked_means };

    ghost shown_means = { laws.shown_means };
}
