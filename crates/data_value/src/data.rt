ghost use Rattle.std.specs.Prelude.{◌≡◌};
ghost use Rattle.model_kinds.specs.SixKinds.{six_kinds, is_delete};
ghost use Rattle.data_value.specs.Data as kept;
ghost use Rattle.data_value.specs.declared.data.Data.TheVariants.{Deleted};
ghost use Rattle.data_value.specs.DataSpelled as spelled;
ghost use Rattle.data_value.specs.DataLaws as laws;

use crate::value::{Change, Value, are_same};
use base_bytes::Memory;
use base_vectors::{Dot, Id, VersionVector};
use data_lattice::{ApplyError, PruneError, Replica};
use model_kinds::{Kind, Op, Shown};
use std::alloc::Global;

/// The data of a key: a value, or nothing but the kind where the key was deleted.
#[derive(Drop)]
pub enum Data {
    /// The value.
    Open(Value),
    /// That the key, which is of this kind, was deleted.
    Deleted(Kind),
}

/// What one or more operations of one origin changed in the data of a key.
#[derive(Drop)]
pub enum Delta {
    /// In the value.
    Open(Change),
    /// The key was deleted.
    Delete,
}

impl Data {
    /// The kind of the key.
    pub fn kind(&self) -> Kind
        ensures { result ≡ kept.kind_of self.now }
    {
        match self {
            Data::Open(value) => value.kind(),
            Data::Deleted(kind) => *kind,
        }
    }

    /// Drops the value, so that nothing but the kind is left.
    fn delete(&mut self)
        ensures { self.new ≡ Deleted (kept.kind_of self.old) }
    {
        *self = Data::Deleted(self.kind());
    }
}

/// Whether the operation deletes the key.
fn is_delete(op: &Op) -> bool
    ensures { result ≡ is_delete op.now }
{
    match op {
        Op::Delete => true,
        _ => false,
    }
}

impl Replica for Data {
    type Kind = Kind;

    type Op = Op;

    type Delta = Delta;

    ghost data_type = { six_kinds };

    ghost kind_of = { kept.kind_of };

    ghost is_closed = { kept.is_closed };

    ghost delta_fits_kind = { kept.fits_kind };

    ghost IsOfOrigin = { kept.IsOfOrigin };

    ghost AreApart = { kept.AreApart };

    ghost empty_of = { kept.empty_of };

    ghost applied = { kept.applied };

    ghost delta_of = { kept.delta_of };

    ghost apply_refusal = { kept.apply_refusal };

    ghost joined = { kept.joined };

    ghost absorbed = { kept.absorbed };

    ghost combined = { kept.combined };

    ghost cleaned = { kept.cleaned };

    ghost pruned = { kept.pruned };

    ghost prune_refusal = { kept.prune_refusal };

    ghost mentioned = { kept.mentioned };

    ghost shown = { kept.shown };

    ghost spelling = { λ x. (spelled.byte_of x, spelled.spelled x) };

    ghost IsDataOf = { kept.IsDataOf };

    ghost IsDeltaOf = { kept.IsDeltaOf };

    ghost IsWithin = { kept.IsWithin };

    fn empty(alloc: Global, kind: &Kind) -> Result<Data, Memory> {
        Ok(Data::Open(Value::empty(alloc, kind)?))
    }

    fn copy(&self, alloc: Global) -> Result<Data, Memory> {
        match self {
            Data::Open(value) => Ok(Data::Open(value.copy(alloc)?)),
            Data::Deleted(kind) => Ok(Data::Deleted(*kind)),
        }
    }

    fn same_kind(&self, other: &Data) -> bool {
        self.kind() == other.kind()
    }

    fn closed(&self) -> bool {
        match self {
            Data::Open(_) => false,
            Data::Deleted(_) => true,
        }
    }

    fn fits(&self, op: &Op) -> bool {
        match self {
            Data::Open(value) => is_delete(op) || value.fits(op),
            Data::Deleted(_) => false,
        }
    }

    fn apply(&mut self, alloc: Global, op: &Op, dot: Dot) -> Result<Delta, ApplyError> {
        if is_delete(op) {
            self.delete();
            return Ok(Delta::Delete);
        }
        match self {
            Data::Open(value) => value.apply(alloc, op, dot).map(Delta::Open),
            Data::Deleted(_) => unreachable!(),
        }
    }

    fn join(
        &mut self,
        mine: &VersionVector,
        other: &Data,
        theirs: &VersionVector,
    ) -> Result<(), Memory> {
        match other {
            Data::Open(other) => match self {
                Data::Open(value) => value.join(mine, other, theirs),
                Data::Deleted(_) => Ok(()),
            },
            Data::Deleted(kind) => {
                *self = Data::Deleted(*kind);
                Ok(())
            }
        }
    }

    fn absorb(&mut self, mine: &VersionVector, delta: &Delta) -> Result<(), Memory> {
        match delta {
            Delta::Open(change) => match self {
                Data::Open(value) => value.absorb(mine, change),
                Data::Deleted(_) => Ok(()),
            },
            Delta::Delete => {
                self.delete();
                Ok(())
            }
        }
    }

    fn extend_delta(delta: &mut Delta, later: &Delta) -> Result<(), Memory> {
        match later {
            Delta::Open(later) => match delta {
                Delta::Open(change) => Value::extend_delta(change, later),
                Delta::Delete => Ok(()),
            },
            Delta::Delete => {
                *delta = Delta::Delete;
                Ok(())
            }
        }
    }

    fn copy_delta(alloc: Global, delta: &Delta) -> Result<Delta, Memory> {
        match delta {
            Delta::Open(change) => Ok(Delta::Open(Value::copy_delta(alloc, change)?)),
            Delta::Delete => Ok(Delta::Delete),
        }
    }

    fn delta_fits(&self, delta: &Delta) -> bool {
        match delta {
            Delta::Open(change) => are_same(self.kind(), change.kind()),
            Delta::Delete => true,
        }
    }

    fn clean(&mut self, id: Id) {
        match self {
            Data::Open(value) => value.clean(id),
            Data::Deleted(_) => {}
        }
    }

    fn prune(&mut self, removed: Id, dot: Dot) -> Result<(), PruneError> {
        match self {
            Data::Open(value) => value.prune(removed, dot),
            Data::Deleted(_) => Ok(()),
        }
    }

    fn mentions(&self, id: Id) -> bool {
        match self {
            Data::Open(value) => value.mentions(id),
            Data::Deleted(_) => false,
        }
    }

    fn show(&self, alloc: Global) -> Result<Shown, Memory> {
        match self {
            Data::Open(value) => value.show(alloc),
            Data::Deleted(_) => Ok(Shown::Deleted),
        }
    }

    ghost kind_empty = { laws.kind_empty };

    ghost kind_applied = { laws.kind_applied };

    ghost kind_joined = { laws.kind_joined };

    ghost kind_absorbed = { laws.kind_absorbed };

    ghost kind_cleaned = { laws.kind_cleaned };

    ghost kind_pruned = { laws.kind_pruned };

    ghost closed_joined = { laws.closed_joined };

    ghost closed_absorbed = { laws.closed_absorbed };

    ghost closed_cleaned = { laws.closed_cleaned };

    ghost closed_pruned = { laws.closed_pruned };

    ghost closed_mentions = { laws.closed_mentions };

    ghost closed_shown = { laws.closed_shown };

    ghost closed_unblocked = { laws.closed_unblocked };

    ghost delta_kind = { λ state op dot _. laws.delta_kind state op dot };

    ghost delta_origin = { laws.delta_origin };

    ghost combined_kind = { λ kind first later fits _. laws.combined_kind kind first later fits };

    ghost combined_origin = { laws.combined_origin };

    ghost delta_made_by = { laws.delta_made_by };

    ghost join_comm = { laws.join_comm };

    ghost join_assoc = { laws.join_assoc };

    ghost join_same = { laws.join_same };

    ghost join_upper = { laws.join_upper };

    ghost join_within = { laws.join_within };

    ghost absorb_applied = { laws.absorb_applied };

    ghost absorb_combined = { laws.absorb_combined };

    ghost data_empty = { laws.data_empty };

    ghost data_applied = { laws.data_applied };

    ghost data_joined = { laws.data_joined };

    ghost data_absorbed = { laws.data_absorbed };

    ghost data_cleaned = { laws.data_cleaned };

    ghost data_pruned = { laws.data_pruned };

    ghost delta_combined = { laws.delta_combined };

    ghost data_within = { laws.data_within };

    ghost data_unmentioned = { laws.data_unmentioned };

    ghost data_once = { laws.data_once };

    ghost empty_mentions = { laws.empty_mentions };

    ghost applied_mentions = { laws.applied_mentions };

    ghost joined_mentions = { laws.joined_mentions };

    ghost absorbed_mentions = { laws.absorbed_mentions };

    ghost cleaned_mentions = { laws.cleaned_mentions };

    ghost cleaned_unmentioned = { laws.cleaned_unmentioned };

    ghost pruned_mentions = { laws.pruned_mentions };

    ghost pruned_unmentioned = { laws.pruned_unmentioned };

    ghost closed_means = { laws.closed_means };

    ghost refusal_means = { laws.refusal_means };

    ghost blocked_means = { laws.blocked_means };

    ghost shown_means = { laws.shown_means };
}
