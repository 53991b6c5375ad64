ghost use Rattle.std.specs.Prelude.{true, false, refl, ◌≡◌, ◌≤◌, ◌^◌};
ghost use Rattle.std.proofs.lemmas.Bool.{false≢true};
ghost use Rattle.model_kinds.specs.SixKinds.{of_kind};
ghost use Rattle.model_kinds.specs.declared.kind.Kind.TheVariants as kind;
ghost use Rattle.model_kinds.specs.declared.shown.Shown.TheVariants as shown_as;
ghost use Rattle.data_counters.specs.Signed.{empty_signed, signed_applied, signed_delta_of, signed_apply_refusal, signed_joined, signed_absorbed, signed_combined, signed_cleaned, signed_pruned, signed_prune_refusal, signed_mentioned, signed_sum, less, AreBothShares, AreBothAt, AreBothWithin, AreBothOf};
ghost use Rattle.data_counters.specs.Spelled.{signed_byte, signed_spelled};
ghost use Rattle.data_counters.specs.SignedLaws as laws;

use crate::amounts::Amounts;
use crate::counter::{GCounter, PnCounter, PnShare, Share};
use base_bytes::Memory;
use base_vectors::{Dot, Id, VersionVector};
use data_lattice::{ApplyError, PruneError, Replica};
use model_kinds::{Op, Shown};
use std::alloc::Global;

/// What was added, less what was taken away.
fn less(plus: u128, minus: u128) -> i128
    requires plus { plus ≤ 2 ^ 72 }
    requires minus { minus ≤ 2 ^ 72 }
    ensures { result ≡ less plus minus }
{
    plus as i128 - minus as i128
}

impl Replica for PnCounter {
    type Kind = ();

    type Op = Op;

    type Delta = PnShare;

    ghost data_type = { of_kind kind.PnCounter };

    ghost kind_of = { λ _. tt };

    ghost is_closed = { λ _. false };

    ghost delta_fits_kind = { λ _ _. true };

    ghost IsOfOrigin = { AreBothOf };

    ghost AreApart = { λ _ _. Unit {0} };

    ghost empty_of = { λ _. empty_signed };

    ghost applied = { signed_applied };

    ghost delta_of = { signed_delta_of };

    ghost apply_refusal = { signed_apply_refusal };

    ghost joined = { λ state _ other _. signed_joined state other };

    ghost absorbed = { λ state _ delta. signed_absorbed state delta };

    ghost combined = { signed_combined };

    ghost cleaned = { signed_cleaned };

    ghost pruned = { signed_pruned };

    ghost prune_refusal = { signed_prune_refusal };

    ghost mentioned = { signed_mentioned };

    ghost shown = { λ state. shown_as.Signed (signed_sum state) };

    ghost spelling = { λ state. (signed_byte, signed_spelled state) };

    ghost IsDataOf = { AreBothShares };

    ghost IsDeltaOf = { AreBothAt };

    ghost IsWithin = { AreBothWithin };

    fn empty(alloc: Global, _kind: &()) -> Result<PnCounter, Memory> {
        Ok(PnCounter {
            plus: GCounter {
                shares: Amounts::new(alloc),
            },
            minus: GCounter {
                shares: Amounts::new(alloc),
            },
        })
    }

    fn copy(&self, alloc: Global) -> Result<PnCounter, Memory> {
        let plus = self.plus.copy(alloc)?;
        let minus = self.minus.copy(alloc)?;
        Ok(PnCounter { plus, minus })
    }

    fn same_kind(&self, _other: &PnCounter) -> bool {
        true
    }

    fn closed(&self) -> bool {
        false
    }

    fn fits(&self, op: &Op) -> bool {
        match op {
            Op::Increment(_) => true,
            Op::Decrement(_) => true,
            _ => false,
        }
    }

    fn apply(&mut self, _alloc: Global, op: &Op, dot: Dot) -> Result<PnShare, ApplyError> {
        match op {
            Op::Increment(by) => {
                let minus = self.minus.stay(dot);
                let plus = self.plus.add(*by, dot)?.share;
                let origin = dot.origin;
                Ok(PnShare {
                    origin,
                    plus,
                    minus,
                })
            }
            Op::Decrement(by) => {
                let plus = self.plus.stay(dot);
                let minus = self.minus.add(*by, dot)?.share;
                let origin = dot.origin;
                Ok(PnShare {
                    origin,
                    plus,
                    minus,
                })
            }
            _ => unreachable!(),
        }
    }

    fn join(
        &mut self,
        _mine: &VersionVector,
        other: &PnCounter,
        _theirs: &VersionVector,
    ) -> Result<(), Memory> {
        let mut plus = self.plus.copy_beside()?;
        plus.shares.join(&other.plus.shares)?;
        self.minus.shares.join(&other.minus.shares)?;
        self.plus = plus;
        Ok(())
    }

    fn absorb(&mut self, _mine: &VersionVector, delta: &PnShare) -> Result<(), Memory> {
        let origin = delta.origin;
        let mut plus = self.plus.copy_beside()?;
        plus.reach(Share {
            origin,
            share: delta.plus,
        })?;
        self.minus.reach(Share {
            origin,
            share: delta.minus,
        })?;
        self.plus = plus;
        Ok(())
    }

    fn extend_delta(delta: &mut PnShare, later: &PnShare) -> Result<(), Memory> {
        delta.plus = delta.plus.max(later.plus);
        delta.minus = delta.minus.max(later.minus);
        Ok(())
    }

    fn copy_delta(_alloc: Global, delta: &PnShare) -> Result<PnShare, Memory> {
        Ok(*delta)
    }

    fn delta_fits(&self, _delta: &PnShare) -> bool {
        true
    }

    fn clean(&mut self, id: Id) {
        self.plus.shares.without(id);
        self.minus.shares.without(id);
    }

    fn prune(&mut self, removed: Id, dot: Dot) -> Result<(), PruneError> {
        let plus = self.plus.taken_over(removed, dot.origin)?;
        self.minus.take_over(removed, dot.origin)?;
        self.plus = plus;
        Ok(())
    }

    fn mentions(&self, id: Id) -> bool {
        self.plus.mentions(id) || self.minus.mentions(id)
    }

    fn show(&self, _alloc: Global) -> Result<Shown, Memory> {
        Ok(Shown::Signed(less(self.plus.sum(), self.minus.sum())))
    }

    ghost kind_empty = { λ _. refl };

    ghost kind_applied = { λ _ _ _. refl };

    ghost kind_joined = { λ _ _ _ _. refl };

    ghost kind_absorbed = { λ _ _ _. refl };

    ghost kind_cleaned = { λ _ _. refl };

    ghost kind_pruned = { λ _ _ _. refl };

    ghost closed_joined = { λ _ _ _ _. refl };

    ghost closed_absorbed = { λ _ _ _ is. is };

    ghost closed_cleaned = { λ _ _. refl };

    ghost closed_pruned = { λ _ _ _. refl };

    ghost closed_mentions = { λ _ _ is. absurd (false≢true is) };

    ghost closed_shown = { λ _ is. absurd (false≢true is) };

    ghost closed_unblocked = { λ _ _ _ is. absurd (false≢true is) };

    ghost delta_kind = { λ _ _ _ _. refl };

    ghost delta_origin = { λ _ _ _. refl };

    ghost combined_kind = { λ _ _ _ _ _. refl };

    ghost combined_origin = { λ _ _ _ first _. first };

    ghost delta_made_by = { laws.delta_made_by };

    ghost join_comm = { λ a b _ _ _ _ _. laws.join_comm a b };

    ghost join_assoc = { λ a b c _ _ _ _ _ _ _ _. laws.join_assoc a b c };

    ghost join_same = { laws.join_same };

    ghost join_upper = { λ a b _ _ _ _ _. laws.join_upper a b };

    ghost join_within = { λ a b v w _ p q. laws.join_within a b v w p q };

    ghost absorb_applied = { λ state _ op dot _ _. laws.absorb_applied state op dot };

    ghost absorb_combined = { λ state _ first later origin _ _ p q _. laws.absorb_combined state first later origin p q };

    ghost data_empty = { λ _ log held gone none. laws.data_empty log held gone none };

    ghost data_applied = { λ state log held gone op dot p stays next seq is _ _. laws.data_applied state log held gone op dot p stays next seq is };

    ghost data_joined = { λ state other log held also gone _ h j p d e. laws.data_joined state other log held also gone h j p d e };

    ghost data_absorbed = { λ state delta log held gone origin after to _ p cut operations is made stays l m. laws.data_absorbed state delta log held gone origin after to p cut operations is made stays l m };

    ghost data_cleaned = { laws.data_cleaned };

    ghost data_pruned = { λ state log held gone removed dot p stays next seq is other kept _. laws.data_pruned state log held gone removed dot p stays next seq is other kept };

    ghost delta_combined = { λ _ first later log origin after mid to _ _. laws.delta_combined first later log origin after mid to };

    ghost data_within = { laws.data_within };

    ghost data_unmentioned = { laws.data_unmentioned };

    ghost data_once = { λ state other log held gone _ p q. laws.data_once state other log held gone p q };

    ghost empty_mentions = { λ _. laws.empty_mentions };

    ghost applied_mentions = { laws.applied_mentions };

    ghost joined_mentions = { λ state _ other _ id. laws.joined_mentions state other id };

    ghost absorbed_mentions = { λ state _ delta origin id. laws.absorbed_mentions state delta origin id };

    ghost cleaned_mentions = { laws.cleaned_mentions };

    ghost cleaned_unmentioned = { laws.cleaned_unmentioned };

    ghost pruned_mentions = { laws.pruned_mentions };

    ghost pruned_unmentioned = { λ state removed dot _. laws.pruned_unmentioned state removed dot };

    ghost closed_means = { λ _ _ _ _ _ _. refl };

    ghost refusal_means = { laws.refusal_means };

    ghost blocked_means = { laws.blocked_means };

    ghost shown_means = { laws.shown_means };
}
