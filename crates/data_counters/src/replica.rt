ghost use Rattle.std.specs.Prelude.{true, false, refl, ◌≡◌, None};
ghost use Rattle.std.proofs.Common.{ap};
ghost use Rattle.std.proofs.lemmas.Bool.{false≢true};
ghost use Rattle.model_kinds.specs.SixKinds.{of_kind, increment};
ghost use Rattle.model_kinds.specs.declared.kind.Kind.TheVariants as kind;
ghost use Rattle.model_kinds.specs.declared.shown.Shown.TheVariants.{Count};
ghost use Rattle.data_counters.specs.Counter.{counter_applied, counter_delta_of, counter_apply_refusal, counter_joined, counter_absorbed, counter_combined, counter_cleaned, counter_pruned, counter_prune_refusal, counter_mentioned, counter_sum, AreShares, IsShareAt, AreSharesWithin, IsShareOf, empty_counter};
ghost use Rattle.data_counters.specs.Spelled.{growing_byte, counter_spelled};
ghost use Rattle.data_counters.specs.Laws as laws;

use crate::amounts::Amounts;
use crate::counter::{GCounter, Share};
use base_bytes::Memory;
use base_vectors::{Dot, Id, VersionVector};
use data_lattice::{ApplyError, PruneError, Replica};
use model_kinds::{Op, Shown};
use std::alloc::Global;

/// What an operation adds to a growing counter.
fn increment(op: &Op) -> u64
    ensures { result ≡ increment op.now }
{
    match op {
        Op::Increment(by) => *by,
        _ => 0,
    }
}

impl Replica for GCounter {
    type Kind = ();

    type Op = Op;

    type Delta = Share;

    ghost data_type = { of_kind kind.GCounter };

    ghost kind_of = { λ _. tt };

    ghost is_closed = { λ _. false };

    ghost delta_fits_kind = { λ _ _. true };

    ghost IsOfOrigin = { IsShareOf };

    ghost AreApart = { λ _ _. Unit {0} };

    ghost empty_of = { λ _. empty_counter };

    ghost applied = { λ state op. counter_applied state (increment op) };

    ghost delta_of = { λ state op. counter_delta_of state (increment op) };

    ghost apply_refusal = { λ state op. counter_apply_refusal state (increment op) };

    ghost joined = { λ state _ other _. counter_joined state other };

    ghost absorbed = { λ state _ delta. counter_absorbed state delta };

    ghost combined = { counter_combined };

    ghost cleaned = { counter_cleaned };

    ghost pruned = { λ state gone dot. counter_pruned state gone dot.origin };

    ghost prune_refusal = { counter_prune_refusal };

    ghost mentioned = { counter_mentioned };

    ghost shown = { λ state. Count (counter_sum state) };

    ghost spelling = { λ state. (growing_byte, counter_spelled state) };

    ghost IsDataOf = { AreShares increment };

    ghost IsDeltaOf = { IsShareAt increment };

    ghost IsWithin = { AreSharesWithin };

    fn empty(alloc: Global, _kind: &()) -> Result<GCounter, Memory> {
        Ok(GCounter {
            shares: Amounts::new(alloc),
        })
    }

    fn copy(&self, alloc: Global) -> Result<GCounter, Memory> {
        let shares = self.shares.copy(alloc)?;
        Ok(GCounter { shares })
    }

    fn same_kind(&self, _other: &GCounter) -> bool {
        true
    }

    fn closed(&self) -> bool {
        false
    }

    fn fits(&self, op: &Op) -> bool {
        match op {
            Op::Increment(_) => true,
            _ => false,
        }
    }

    fn apply(&mut self, _alloc: Global, op: &Op, dot: Dot) -> Result<Share, ApplyError> {
        self.add(increment(op), dot)
    }

    fn join(
        &mut self,
        _mine: &VersionVector,
        other: &GCounter,
        _theirs: &VersionVector,
    ) -> Result<(), Memory> {
        self.shares.join(&other.shares)
    }

    fn absorb(&mut self, _mine: &VersionVector, delta: &Share) -> Result<(), Memory> {
        self.reach(*delta)
    }

    fn extend_delta(delta: &mut Share, later: &Share) -> Result<(), Memory> {
        delta.share = delta.share.max(later.share);
        Ok(())
    }

    fn copy_delta(_alloc: Global, delta: &Share) -> Result<Share, Memory> {
        Ok(*delta)
    }

    fn delta_fits(&self, _delta: &Share) -> bool {
        true
    }

    fn clean(&mut self, id: Id) {
        self.shares.without(id);
    }

    fn prune(&mut self, removed: Id, dot: Dot) -> Result<(), PruneError> {
        self.take_over(removed, dot.origin)
    }

    fn mentions(&self, id: Id) -> bool {
        self.shares.at(id).number() != 0
    }

    fn show(&self, _alloc: Global) -> Result<Shown, Memory> {
        Ok(Shown::Count(self.sum()))
    }

    ghost kind_empty = { λ _. refl };

    ghost kind_applied = { λ _ _ _. refl };

    ghost kind_joined = { λ _ _ _ _. refl };

    ghost kind_absorbed = { λ _ _ _. refl };

    ghost kind_cleaned = { λ _ _. refl };

    ghost kind_pruned = { λ _ _ _. refl };

    ghost closed_joined = { λ _ _ _ _. refl };

    ghost closed_absorbed = { λ _ _ _ is. is };

    ghost closed_cleaned = { λ _ _. refl };

    ghost closed_pruned = { λ _ _ _. refl };

    ghost closed_mentions = { λ _ _ is. absurd (false≢true is) };

    ghost closed_shown = { λ _ is. absurd (false≢true is) };

    ghost closed_unblocked = { λ _ _ _ is. absurd (false≢true is) };

    ghost delta_kind = { λ _ _ _ _. refl };

    ghost delta_origin = { λ _ _ _. refl };

    ghost combined_kind = { λ _ _ _ _ _. refl };

    ghost combined_origin = { laws.combined_origin };

    ghost delta_made_by = { laws.delta_made_by increment };

    ghost join_comm = { λ a b _ _ _ _ _. laws.join_comm a b };

    ghost join_assoc = { λ a b c _ _ _ _ _ _ _ _. laws.join_assoc a b c };

    ghost join_same = { λ a _ within. laws.join_same a within.normal };

    ghost join_upper = { λ a b _ _ _ _ _. laws.join_upper a b };

    ghost join_within = { λ a b v w _ p q. laws.join_within a b v w p q };

    ghost absorb_applied = { λ state _ op dot _ _. laws.absorb_applied state (increment op) dot };

    ghost absorb_combined = { λ state _ first later origin _ _ p q _. laws.absorb_combined state first later origin p q };

    ghost data_empty = { λ _ log held gone none. laws.data_empty increment log held gone none };

    ghost data_applied = { λ state log held gone op dot p stays next seq is _ _. laws.data_applied increment state log held gone op dot p stays next seq is };

    ghost data_joined = { λ state other log held also gone _ h j p d e. laws.data_joined increment state other log held also gone h j p d e };

    ghost data_absorbed = { λ state delta log held gone origin after to _ p cut operations is made stays l m. laws.data_absorbed increment state delta log held gone origin after to p cut operations is made stays l m };

    ghost data_cleaned = { laws.data_cleaned increment };

    ghost data_pruned = { λ state log held gone removed dot p stays next seq is other kept _. laws.data_pruned increment state log held gone removed dot p stays next seq is other kept };

    ghost delta_combined = { λ _ first later log origin after mid to _ _. laws.delta_combined increment first later log origin after mid to };

    ghost data_within = { laws.data_within increment };

    ghost data_unmentioned = { laws.data_unmentioned increment };

    ghost data_once = { λ state other log held gone _ p q. laws.data_once increment state other log held gone p q };

    ghost empty_mentions = { λ _. laws.empty_mentions };

    ghost applied_mentions = { λ state op dot id. laws.applied_mentions state (increment op) dot id };

    ghost joined_mentions = { λ state _ other _ id. laws.joined_mentions state other id };

    ghost absorbed_mentions = { λ state _ delta origin id. laws.absorbed_mentions state delta origin id };

    ghost cleaned_mentions = { laws.cleaned_mentions };

    ghost cleaned_unmentioned = { laws.cleaned_unmentioned };

    ghost pruned_mentions = { λ state removed dot id. laws.pruned_mentions state removed dot.origin id };

    ghost pruned_unmentioned = { λ state removed dot _. laws.pruned_unmentioned state removed dot.origin };

    ghost closed_means = { λ _ _ _ _ _ _. refl };

    ghost refusal_means = { laws.growing_refusal };

    ghost blocked_means = { λ state log held gone owner removed p is stays stays_too. laws.blocked_means increment state log held gone owner removed None p is stays stays_too };

    ghost shown_means = { λ state log held gone p is. ap Count (laws.sum_means increment state log held gone p is) };
}
