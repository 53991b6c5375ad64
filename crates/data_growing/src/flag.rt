ghost use Rattle.std.specs.Prelude.{true, false, refl, ◌≡◌, ◌==◌, None, ◌||◌};
ghost use Rattle.std.proofs.Common.{ap};
ghost use Rattle.std.proofs.lemmas.Bool.{false≢true};
ghost use Rattle.model_history.specs.History.{cut};
ghost use Rattle.model_kinds.specs.SixKinds.{of_kind, enables};
ghost use Rattle.model_kinds.specs.declared.kind.Kind.TheVariants as kind;
ghost use Rattle.model_kinds.specs.declared.shown.Shown.TheVariants.{Switch};
ghost use Rattle.data_growing.specs.Flags.{flag_joined, flag_on, flag_off, IsFlagOf, IsSwitchedOn};
ghost use Rattle.model_meanings.specs.Growing.{has_operation};
ghost use Rattle.data_growing.specs.Spelling.{switch_spelled};
ghost use Rattle.data_growing.specs.Reading.{flag_in};
ghost use Rattle.data_growing.specs.SpellingLaws as spellings;
ghost use Rattle.data_growing.specs.FlagLaws as laws;

use crate::spelling::read_flag;
use base_bytes::{Memory, ReadError, placed};
use base_vectors::{Dot, Id, IdSet, VersionVector};
use data_lattice::{ApplyError, PruneError, Replica, SpelledData};
use model_kinds::{Op, Shown};
use std::alloc::Global;

/// A flag that is switched on, and never off again.
#[derive(Drop)]
pub struct Flag {
    pub(crate) on: bool,
}

/// What switching a flag on changes.
#[derive(Clone, Copy, Debug, PartialEq, Eq)]
pub struct SwitchedOn;

impl Replica for Flag {
    type Kind = ();

    type Op = Op;

    type Delta = SwitchedOn;

    ghost data_type = { of_kind kind.Flag };

    ghost kind_of = { λ _. tt };

    ghost is_closed = { λ _. false };

    ghost delta_fits_kind = { λ _ _. true };

    ghost IsOfOrigin = { λ _ _. Unit {0} };

    ghost AreApart = { λ _ _. Unit {0} };

    ghost empty_of = { λ _. flag_off };

    ghost applied = { λ _ _ _. flag_on };

    ghost delta_of = { λ _ _ _. record {} };

    ghost apply_refusal = { λ _ _ _. None };

    ghost joined = { λ state _ other _. flag_joined state other };

    ghost absorbed = { λ _ _ _. flag_on };

    ghost combined = { λ first _. first };

    ghost cleaned = { λ state _. state };

    ghost pruned = { λ state _ _. state };

    ghost prune_refusal = { λ _ _ _. None };

    ghost mentioned = { λ _ _. false };

    ghost shown = { λ state. Switch state.on };

    ghost spelling = { λ state. (5, switch_spelled state.on) };

    ghost IsDataOf = { λ state log held _. IsFlagOf enables state log held };

    ghost IsDeltaOf = { λ _ log origin after to. IsSwitchedOn enables log origin after to };

    ghost IsWithin = { λ _ _. Unit {0} };

    fn empty(_alloc: Global, _kind: &()) -> Result<Flag, Memory> {
        Ok(Flag { on: false })
    }

    fn copy(&self, _alloc: Global) -> Result<Flag, Memory> {
        Ok(Flag { on: self.on })
    }

    fn same_kind(&self, _other: &Flag) -> bool {
        true
    }

    fn closed(&self) -> bool {
        false
    }

    fn fits(&self, op: &Op) -> bool {
        match op {
            Op::Enable => true,
            _ => false,
        }
    }

    fn apply(&mut self, _alloc: Global, _op: &Op, _dot: Dot) -> Result<SwitchedOn, ApplyError> {
        self.on = true;
        Ok(SwitchedOn)
    }

    fn join(
        &mut self,
        _mine: &VersionVector,
        other: &Flag,
        _theirs: &VersionVector,
    ) -> Result<(), Memory> {
        self.on = self.on || other.on;
        Ok(())
    }

    fn absorb(&mut self, _mine: &VersionVector, _delta: &SwitchedOn) -> Result<(), Memory> {
        self.on = true;
        Ok(())
    }

    fn extend_delta(_delta: &mut SwitchedOn, _later: &SwitchedOn) -> Result<(), Memory> {
        Ok(())
    }

    fn copy_delta(_alloc: Global, _delta: &SwitchedOn) -> Result<SwitchedOn, Memory> {
        Ok(SwitchedOn)
    }

    fn delta_fits(&self, _delta: &SwitchedOn) -> bool {
        true
    }

    fn clean(&mut self, _id: Id) {}

    fn prune(&mut self, _removed: Id, _dot: Dot) -> Result<(), PruneError> {
        Ok(())
    }

    fn mentions(&self, _id: Id) -> bool {
        false
    }

    fn show(&self, _alloc: Global) -> Result<Shown, Memory> {
        Ok(Shown::Switch(self.on))
    }

    ghost kind_empty = { λ _. refl };

    ghost kind_applied = { λ _ _ _. refl };

    ghost kind_joined = { λ _ _ _ _. refl };

    ghost kind_absorbed = { λ _ _ _. refl };

    ghost kind_cleaned = { λ _ _. refl };

    ghost kind_pruned = { λ _ _ _. refl };

    ghost closed_joined = { λ _ _ _ _. refl };

    ghost closed_absorbed = { λ _ _ _ is. is };

    ghost closed_cleaned = { λ _ _. refl };

    ghost closed_pruned = { λ _ _ _. refl };

    ghost closed_mentions = { λ _ _ _. refl };

    ghost closed_shown = { λ _ is. absurd (false≢true is) };

    ghost closed_unblocked = { λ _ _ _ _. refl };

    ghost delta_kind = { λ _ _ _ _. refl };

    ghost delta_origin = { λ _ _ _. tt };

    ghost combined_kind = { λ _ _ _ _ _. refl };

    ghost combined_origin = { λ _ _ _ _ _. tt };

    ghost delta_made_by = { λ _ _ _ _ _ _. tt };

    ghost join_comm = { λ a b _ _ _ _ _. laws.join_comm a b };

    ghost join_assoc = { λ a b c _ _ _ _ _ _ _ _. laws.join_assoc a b c };

    ghost join_same = { λ a _ _. laws.join_same a };

    ghost join_upper = { λ a b _ _ _ _ _. laws.join_upper a b };

    ghost join_within = { λ _ _ _ _ _ _ _. tt };

    ghost absorb_applied = { λ _ _ _ _ _ _. refl };

    ghost absorb_combined = { λ _ _ _ _ _ _ _ _ _ _. refl };

    ghost data_empty = { λ _ log held _ none. laws.data_empty enables log held none };

    ghost data_applied = { λ state log held _ op dot _ _ next _ is fits _. laws.data_enabled state log held op dot next is fits };

    ghost data_joined = { λ state other log held also _ _ _ _ _ is other_is. laws.data_joined enables state other log held also is other_is };

    ghost data_absorbed = { λ state _ log held _ origin after to _ _ _ _ is made _ low high. laws.data_absorbed enables state log held origin after to is made low high };

    ghost data_cleaned = { λ _ _ _ _ _ is. is };

    ghost data_pruned = { λ state log held _ removed dot _ _ next _ is _ _ _. laws.data_pruned enables state log held removed dot.origin next is };

    ghost delta_combined = { λ _ _ _ log origin after mid to _ _. laws.delta_combined enables log origin after mid to };

    ghost data_within = { λ _ _ _ _ _. tt };

    ghost data_unmentioned = { λ _ _ _ _ _ _ _. refl };

    ghost data_once = { λ state other log held _ _ is other_is. laws.data_once enables state other log held is other_is };

    ghost empty_mentions = { λ _ _. refl };

    ghost applied_mentions = { λ _ _ _ _ _ _. refl };

    ghost joined_mentions = { λ _ _ _ _ _ _ _. refl };

    ghost absorbed_mentions = { λ _ _ _ _ _ _ _ _. refl };

    ghost cleaned_mentions = { λ _ _ _ _. refl };

    ghost cleaned_unmentioned = { λ _ _. refl };

    ghost pruned_mentions = { λ _ _ _ _ _ _. refl };

    ghost pruned_unmentioned = { λ _ _ _ _. refl };

    ghost closed_means = { λ _ _ _ _ _ _. refl };

    ghost refusal_means = { λ _ log held _ op origin _ _ _ fits. laws.never_refused op origin (cut log held) fits };

    ghost blocked_means = { λ _ _ _ _ _ _ _ _ _ _. refl };

    ghost shown_means = { λ state log held _ pruned is. ap Switch (laws.on_means enables state log held pruned.cut is) };
}

impl SpelledData for Flag {
    ghost byte_of = { λ _. 5 };

    ghost is_known = { λ byte. byte == 5 };

    ghost IsSound = { λ _. Unit {0} };

    ghost spelled = { λ flag. switch_spelled flag.on };

    ghost read_in = { λ _ _. flag_in };

    ghost history_byte = { λ _ _. 5 };

    ghost history_spelled = { λ _ H. switch_spelled (has_operation enables H) };

    fn is_kind(byte: u8) -> bool {
        byte == 5
    }

    fn kind_byte(&self) -> u8 {
        5
    }

    fn spell_data(&self, into: &mut Vec<u8>) -> Result<(), Memory> {
        let switch = if self.on { 1 } else { 0 };
        Ok(into.push(switch)?)
    }

    fn read_data(
        _alloc: Global,
        _kind: u8,
        _barred: IdSet,
        from: &[u8],
        place: usize,
    ) -> Result<(Flag, usize), ReadError> {
        placed(from.len(), read_flag(&from[place..]))
    }

    ghost spelling_is = { λ _. refl };

    ghost byte_is_known = { λ _. refl };

    ghost read_is_spelled = { λ kind barred bytes x rest known fits read. spellings.of_one_kind 5 kind barred known (spellings.flag_takes bytes x rest fits read) };

    ghost spelled_is_read = { λ x _ rest _ _. spellings.flag_again x rest };

    ghost mentioned_few = { λ _ _ _ _. refl };

    ghost byte_means = { λ _ _ _ _ _ _. refl };

    ghost spelling_means = { λ state log held _ pruned is. ap switch_spelled (laws.on_means enables state log held pruned.cut is) };
}
