ghost use Rattle.std.specs.Prelude.{◌≡◌, ◌≤◌, true, false, refl, None};
ghost use Rattle.std.specs.FinSet as set;
ghost use Rattle.std.proofs.Common.{ap};
ghost use Rattle.std.proofs.lemmas.Bool.{false≢true};
ghost use Rattle.model_kinds.specs.SixKinds.{of_kind};
ghost use Rattle.model_kinds.specs.declared.kind.Kind.TheVariants as kind;
ghost use Rattle.model_kinds.specs.declared.shown.Shown.TheVariants.{Elements};
ghost use Rattle.data_orset.specs.Dots.{set_joined, set_absorbed, set_combined, set_applied, set_delta_of, set_cleaned, set_pruned, set_mentioned, shown_elements, set_refusal};
ghost use Rattle.data_orset.specs.DataOf.{AreLiveDots, IsSeenOf, AreDotsWithin, IsOfOne, AreApartDots};
ghost use Rattle.data_orset.specs.Elements.{set_spelled};
ghost use Rattle.data_orset.specs.JoinLaws as joins;
ghost use Rattle.data_orset.specs.DataLaws as laws;
ghost use Rattle.data_orset.specs.OperationLaws as operations;
ghost use Rattle.data_orset.specs.PruneLaws as prunes;
ghost use Rattle.data_orset.specs.MentionLaws as mentions;
ghost use Rattle.data_orset.specs.ShownLaws as meaning;

use crate::set::{OrSet, SetDelta};
use base_bytes::Memory;
use base_vectors::{Dot, Id, VersionVector};
use data_lattice::{ApplyError, PruneError, Replica};
use model_kinds::{Op, Shown};
use std::alloc::Global;

impl Replica for OrSet {
    type Kind = ();

    type Op = Op;

    type Delta = SetDelta;

    ghost data_type = { of_kind kind.OrSet };

    ghost kind_of = { λ _. tt };

    ghost is_closed = { λ _. false };

    ghost delta_fits_kind = { λ _ _. true };

    ghost IsOfOrigin = { IsOfOne };

    ghost AreApart = { AreApartDots };

    ghost empty_of = { λ _. set.empty };

    ghost applied = { set_applied };

    ghost delta_of = { set_delta_of };

    ghost apply_refusal = { λ state op _. set_refusal state op };

    ghost joined = { set_joined };

    ghost absorbed = { set_absorbed };

    ghost combined = { set_combined };

    ghost cleaned = { set_cleaned };

    ghost pruned = { set_pruned };

    ghost prune_refusal = { λ _ _ _. None };

    ghost mentioned = { set_mentioned };

    ghost shown = { λ state. Elements (shown_elements state) };

    ghost spelling = { λ state. (4, set_spelled state) };

    ghost IsDataOf = { AreLiveDots };

    ghost IsDeltaOf = { IsSeenOf };

    ghost IsWithin = { AreDotsWithin };

    fn empty(alloc: Global, _kind: &()) -> Result<OrSet, Memory> {
        Ok(OrSet::new(alloc))
    }

    fn copy(&self, alloc: Global) -> Result<OrSet, Memory> {
        self.copy_of(alloc)
    }

    fn same_kind(&self, _other: &OrSet) -> bool {
        true
    }

    fn closed(&self) -> bool {
        false
    }

    fn fits(&self, op: &Op) -> bool {
        match op {
            Op::Add(_) => true,
            Op::Remove(_) => true,
            _ => false,
        }
    }

    fn apply(&mut self, alloc: Global, op: &Op, dot: Dot) -> Result<SetDelta, ApplyError> {
        match op {
            Op::Add(element) => self.add(alloc, element, &dot),
            Op::Remove(element) => Ok(self.remove(alloc, element, &dot)?),
            _ => unreachable!(),
        }
    }

    fn join(
        &mut self,
        mine: &VersionVector,
        other: &OrSet,
        theirs: &VersionVector,
    ) -> Result<(), Memory> {
        self.join_with(mine, other, theirs)
    }

    fn absorb(&mut self, mine: &VersionVector, delta: &SetDelta) -> Result<(), Memory> {
        self.take(mine, delta)
    }

    fn extend_delta(delta: &mut SetDelta, later: &SetDelta) -> Result<(), Memory> {
        delta.extend(later)
    }

    fn copy_delta(alloc: Global, delta: &SetDelta) -> Result<SetDelta, Memory> {
        delta.copy_of(alloc)
    }

    fn delta_fits(&self, _delta: &SetDelta) -> bool {
        true
    }

    fn clean(&mut self, id: Id) {
        self.drop_dots_of(id);
    }

    fn prune(&mut self, removed: Id, dot: Dot) -> Result<(), PruneError> {
        Ok(self.take_over(removed, &dot)?)
    }

    fn mentions(&self, id: Id) -> bool {
        self.has_dot_of(id)
    }

    fn show(&self, alloc: Global) -> Result<Shown, Memory> {
        Ok(Shown::Elements(self.listed(alloc)?))
    }

    ghost kind_empty = { λ _. refl };

    ghost kind_applied = { λ _ _ _. refl };

    ghost kind_joined = { λ _ _ _ _. refl };

    ghost kind_absorbed = { λ _ _ _. refl };

    ghost kind_cleaned = { λ _ _. refl };

    ghost kind_pruned = { λ _ _ _. refl };

    ghost closed_joined = { λ _ _ _ _. refl };

    ghost closed_absorbed = { λ _ _ _ is. is };

    ghost closed_cleaned = { λ _ _. refl };

    ghost closed_pruned = { λ _ _ _. refl };

    ghost closed_mentions = { λ _ _ is. absurd (false≢true is) };

    ghost closed_shown = { λ _ is. absurd (false≢true is) };

    ghost closed_unblocked = { λ _ _ _ _. refl };

    ghost delta_kind = { λ _ _ _ _. refl };

    ghost delta_origin = { joins.delta_origin };

    ghost combined_kind = { λ _ _ _ _ _. refl };

    ghost combined_origin = { joins.combined_origin };

    ghost delta_made_by = { operations.delta_made_by };

    ghost join_comm = { λ a b v w _ _ _. joins.join_comm a b v w };

    ghost join_assoc = { λ a b c u v w _ _. joins.join_assoc a b c u v w };

    ghost join_same = { λ a v _. joins.join_same a v };

    ghost join_upper = { λ a b v w _ within _. joins.join_upper a b v w within };

    ghost join_within = { λ a b v w _. joins.join_within a b v w };

    ghost absorb_applied = { λ state mine op dot _. joins.absorb_applied state mine op dot };

    ghost absorb_combined = { λ state mine first later _ _ _ _ _. joins.absorb_combined state mine first later };

    ghost data_empty = { λ _. laws.data_empty };

    ghost data_applied = { λ state log held gone op dot pruned unpruned next seq is _ _. operations.data_applied state log held gone op dot pruned unpruned next seq is };

    ghost data_joined = { λ state other log held also gone _ cut other_cut _ is other_is. laws.data_joined state other log held also gone cut other_cut is other_is };

    ghost data_absorbed = { λ state delta log held gone origin after to _ pruned cut _ is made unpruned low high. laws.data_absorbed state delta log held gone origin after to pruned cut is made unpruned low high };

    ghost data_cleaned = { laws.data_cleaned };

    ghost data_pruned = { λ state log held gone removed dot pruned unpruned next seq is other kept _. prunes.data_pruned state log held gone removed dot pruned unpruned next seq is other kept };

    ghost delta_combined = { λ _ first later log origin after mid to _ _. operations.delta_combined first later log origin after mid to };

    ghost data_within = { laws.data_within };

    ghost data_unmentioned = { laws.data_unmentioned };

    ghost data_once = { λ state other log held gone _. laws.data_once state other log held gone };

    ghost empty_mentions = { λ _. mentions.empty_mentions };

    ghost applied_mentions = { mentions.applied_mentions };

    ghost joined_mentions = { mentions.joined_mentions };

    ghost absorbed_mentions = { mentions.absorbed_mentions };

    ghost cleaned_mentions = { mentions.cleaned_mentions };

    ghost cleaned_unmentioned = { mentions.cleaned_unmentioned };

    ghost pruned_mentions = { mentions.pruned_mentions };

    ghost pruned_unmentioned = { mentions.pruned_unmentioned };

    ghost closed_means = { λ _ _ _ _ _ _. refl };

    ghost refusal_means = { λ state log held gone op origin pruned is _ fits. meaning.refusal_means state log held gone pruned is op origin fits };

    ghost blocked_means = { λ _ _ _ _ _ _ _ _ _ _. refl };

    ghost shown_means = { λ state log held gone pruned is. ap Elements (meaning.elements_mean state log held gone pruned is) };
}
