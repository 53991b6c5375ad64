ghost use Rattle.std.specs.Prelude.{◌≡◌, ◌==◌, ◌≤◌, [], ◌∷◌, ◌++◌, true, false, refl, length, None, OnOk, OnErr, IfOk, IfErr};
ghost use Rattle.std.specs.Option.{option_to_list};
ghost use Rattle.std.proofs.Common.{ap};
ghost use Rattle.std.proofs.lemmas.Bool.{false≢true};
ghost use Rattle.model_history.specs.Texts.{text_set};
ghost use Rattle.model_meanings.specs.Refusal.{full};
ghost use Rattle.model_kinds.specs.SixKinds.{of_kind, added};
ghost use Rattle.model_kinds.specs.declared.kind.Kind.TheVariants as kind;
ghost use Rattle.model_kinds.specs.declared.shown.Shown.TheVariants.{Elements};
ghost use Rattle.data_lattice.specs.Refusals.{IsApplyRefusal};
ghost use Rattle.base_bytes.specs.TextOrder.{IsRising};
ghost use Rattle.data_growing.specs.Texts.{IsPlace};
ghost use Rattle.data_growing.specs.Sets.{set_joined, set_applied, set_refusal, IsSetOf, IsAddedBetween};
ghost use Rattle.model_meanings.specs.Growing.{added_elements};
ghost use Rattle.base_bytes.specs.Fields.{Gives};
ghost use Rattle.data_growing.specs.Spelling.{set_spelled, IsSoundSet};
ghost use Rattle.data_growing.specs.Reading.{set_in};
ghost use Rattle.data_growing.specs.SpellingLaws as spellings;
ghost use Rattle.data_growing.specs.SetLaws as laws;

use crate::elements::{copied, merged, place, put_all};
use crate::spelling::{read_texts, spelled_texts};
use base_bytes::{FieldError, Items, Memory, ReadError, Text, placed, read_number};
use base_vectors::{Dot, Id, IdSet, VersionVector};
use data_lattice::{ApplyError, PruneError, Replica, SpelledData};
use model_kinds::{Op, Shown, Texts};
use std::alloc::Global;
use std::marker::Model;

/// With so many elements a set takes no other.
pub const MOST_ELEMENTS: usize = 256;

/// So many elements or fewer are put into a set one by one.
const FEW_ELEMENTS: usize = 16;

/// A set that only grows: its elements, each once, in byte order.
#[derive(Drop)]
pub struct GSet {
    alloc: Global,
    elements: Vec<Text>,
}

impl Model for GSet {
    ghost use Rattle.std.specs.Prelude.{ℕ, List};
    ghost use Rattle.base_bytes.specs.TextOrder.{IsRising};

    ghost Value = { List (List ℕ) };

    ghost view = { λ set. set.elements.items };

    ghost invariant = { λ set. IsRising set.elements.items };
}

impl GSet {
    /// A set without elements.
    pub(crate) fn new(alloc: Global) -> GSet
        ensures { result ≡ [] }
    {
        GSet {
            alloc,
            elements: Vec::new(alloc),
        }
    }

    /// A set of one element.
    pub(crate) fn of(alloc: Global, element: &Text) -> Result<GSet, Memory>
        ensures { IfOk result (λ set. set ≡ element.now ∷ []) }
    {
        let copy = element.copied();
        let mut elements = Vec::new(alloc);
        match elements.push(copy) {
            Ok(()) => Ok(GSet { alloc, elements }),
            Err(_) => Err(Memory),
        }
    }

    /// The elements, each once, in byte order.
    pub fn elements(&self) -> &[Text]
        ensures same { result.now ≡ self.now }
        ensures rising { IsRising self.now }
    {
        self.elements.as_slice()
    }

    /// The elements, as a list of their own.
    pub(crate) fn listed(&self, alloc: Global) -> Result<Texts, Memory>
        ensures { IfOk result (λ texts. texts ≡ self.now) }
    {
        Ok(Items::from_vec(copied(alloc, self.elements())?))
    }

    pub(crate) fn copy_of(&self, alloc: Global) -> Result<GSet, Memory>
        ensures { IfOk result (λ copy. copy ≡ self.now) }
    {
        let elements = copied(alloc, self.elements())?;
        Ok(GSet { alloc, elements })
    }

    /// Adds an element, unless the set is full, and answers it as a set of its own.
    pub(crate) fn add(&mut self, alloc: Global, element: &Text) -> Result<GSet, ApplyError>
        ensures unrefused { OnOk result (full element.now self.old ≡ None) }
        ensures added { OnOk result (self.new ≡ text_set (self.old ++ element.now ∷ [])) }
        ensures delta { IfOk result (λ delta. delta ≡ element.now ∷ []) }
        ensures refused { IfErr result (IsApplyRefusal (full element.now self.old)) }
        ensures err { OnErr result (self.new ≡ self.old) }
    {
        match place(&self.elements, element) {
            None => Ok(GSet::of(alloc, element)?),
            Some(index) => {
                if self.elements.len() >= MOST_ELEMENTS {
                    return Err(ApplyError::SetFull);
                }
                let delta = GSet::of(alloc, element)?;
                self.put(index, element)?;
                Ok(delta)
            }
        }
    }

    /// Puts an element at the index at which it belongs.
    fn put(&mut self, index: usize, element: &Text) -> Result<(), Memory>
        requires { IsPlace self.old element.now index }
        ensures ok { OnOk result (self.new ≡ text_set (self.old ++ element.now ∷ [])) }
        ensures err { OnErr result (self.new ≡ self.old) }
    {
        let copy = element.copied();
        match self.elements.insert(index, copy) {
            Ok(()) => Ok(()),
            Err(_) => Err(Memory),
        }
    }

    /// Takes the elements of another set.
    pub(crate) fn unite(&mut self, other: &GSet) -> Result<(), Memory>
        ensures ok { OnOk result (self.new ≡ text_set (self.old ++ other.now)) }
        ensures err { OnErr result (self.new ≡ self.old) }
    {
        if other.elements.len() <= FEW_ELEMENTS {
            return put_all(&mut self.elements, &other.elements);
        }
        self.elements = merged(self.alloc, &self.elements, &other.elements)?;
        Ok(())
    }
}

impl Replica for GSet {
    type Kind = ();

    type Op = Op;

    type Delta = GSet;

    ghost data_type = { of_kind kind.GSet };

    ghost kind_of = { λ _. tt };

    ghost is_closed = { λ _. false };

    ghost delta_fits_kind = { λ _ _. true };

    ghost IsOfOrigin = { λ _ _. Unit {0} };

    ghost AreApart = { λ _ _. Unit {0} };

    ghost empty_of = { λ _. [] };

    ghost applied = { λ state op _. set_applied state (added op) };

    ghost delta_of = { λ _ op _. option_to_list (added op) };

    ghost apply_refusal = { λ state op _. set_refusal state (added op) };

    ghost joined = { λ state _ other _. set_joined state other };

    ghost absorbed = { λ state _ delta. set_joined state delta };

    ghost combined = { set_joined };

    ghost cleaned = { λ state _. state };

    ghost pruned = { λ state _ _. state };

    ghost prune_refusal = { λ _ _ _. None };

    ghost mentioned = { λ _ _. false };

    ghost shown = { λ state. Elements state };

    ghost spelling = { λ state. (3, set_spelled state) };

    ghost IsDataOf = { λ state log held _. IsSetOf added state log held };

    ghost IsDeltaOf = { IsAddedBetween added };

    ghost IsWithin = { λ state _. IsRising state };

    fn empty(alloc: Global, _kind: &()) -> Result<GSet, Memory> {
        Ok(GSet::new(alloc))
    }

    fn copy(&self, alloc: Global) -> Result<GSet, Memory> {
        self.copy_of(alloc)
    }

    fn same_kind(&self, _other: &GSet) -> bool {
        true
    }

    fn closed(&self) -> bool {
        false
    }

    fn fits(&self, op: &Op) -> bool {
        match op {
            Op::Add(_) => true,
            _ => false,
        }
    }

    fn apply(&mut self, alloc: Global, op: &Op, _dot: Dot) -> Result<GSet, ApplyError> {
        match op {
            Op::Add(element) => self.add(alloc, element),
            _ => unreachable!(),
        }
    }

    fn join(
        &mut self,
        _mine: &VersionVector,
        other: &GSet,
        _theirs: &VersionVector,
    ) -> Result<(), Memory> {
        self.unite(other)
    }

    fn absorb(&mut self, _mine: &VersionVector, delta: &GSet) -> Result<(), Memory> {
        self.unite(delta)
    }

    fn extend_delta(delta: &mut GSet, later: &GSet) -> Result<(), Memory> {
        delta.unite(later)
    }

    fn copy_delta(alloc: Global, delta: &GSet) -> Result<GSet, Memory> {
        delta.copy_of(alloc)
    }

    fn delta_fits(&self, _delta: &GSet) -> bool {
        true
    }

    fn clean(&mut self, _id: Id) {}

    fn prune(&mut self, _removed: Id, _dot: Dot) -> Result<(), PruneError> {
        Ok(())
    }

    fn mentions(&self, _id: Id) -> bool {
        false
    }

    fn show(&self, alloc: Global) -> Result<Shown, Memory> {
        Ok(Shown::Elements(self.listed(alloc)?))
    }

    ghost kind_empty = { λ _. refl };

    ghost kind_applied = { λ _ _ _. refl };

    ghost kind_joined = { λ _ _ _ _. refl };

    ghost kind_absorbed = { λ _ _ _. refl };

    ghost kind_cleaned = { λ _ _. refl };

    ghost kind_pruned = { λ _ _ _. refl };

    ghost closed_joined = { λ _ _ _ _. refl };

    ghost closed_absorbed = { λ _ _ _ is. is };

    ghost closed_cleaned = { λ _ _. refl };

    ghost closed_pruned = { λ _ _ _. refl };

    ghost closed_mentions = { λ _ _ _. refl };

    ghost closed_shown = { λ _ is. absurd (false≢true is) };

    ghost closed_unblocked = { λ _ _ _ _. refl };

    ghost delta_kind = { λ _ _ _ _. refl };

    ghost delta_origin = { λ _ _ _. tt };

    ghost combined_kind = { λ _ _ _ _ _. refl };

    ghost combined_origin = { λ _ _ _ _ _. tt };

    ghost delta_made_by = { λ _ _ _ _ _ _. tt };

    ghost join_comm = { λ a b _ _ _ _ _. laws.join_comm a b };

    ghost join_assoc = { λ a b c _ _ _ _ _ _ _ _. laws.join_assoc a b c };

    ghost join_same = { λ a _ rising. laws.join_same a rising };

    ghost join_upper = { λ a b _ _ _ _ _. laws.join_upper a b };

    ghost join_within = { λ a b _ _ _ _ _. laws.join_rising a b };

    ghost absorb_applied = { λ _ _ _ _ _ _. refl };

    ghost absorb_combined = { λ state _ first later _ _ _ _ _ _. laws.absorb_combined state first later };

    ghost data_empty = { λ _ log held _ none. laws.data_empty added log held none };

    ghost data_applied = { λ state log held _ op dot _ _ next _ is _ _. laws.data_applied added state log held dot.origin op next is };

    ghost data_joined = { λ state other log held also _ _ _ _ _ is other_is. laws.data_joined added state other log held also is other_is };

    ghost data_absorbed = { λ state delta log held _ origin after to _ _ _ _ is made _ low high. laws.data_absorbed added state delta log held origin after to is made low high };

    ghost data_cleaned = { λ _ _ _ _ _ is. is };

    ghost data_pruned = { λ state log held _ removed dot _ _ next _ is _ _ _. laws.data_pruned added state log held removed dot.origin next is };

    ghost delta_combined = { λ _ first later log origin after mid to _ _. laws.delta_combined added first later log origin after mid to };

    ghost data_within = { λ _ _ _ _ is. is.rising };

    ghost data_unmentioned = { λ _ _ _ _ _ _ _. refl };

    ghost data_once = { λ state other log held _ _ is other_is. laws.data_once added state other log held is other_is };

    ghost empty_mentions = { λ _ _. refl };

    ghost applied_mentions = { λ _ _ _ _ _ _. refl };

    ghost joined_mentions = { λ _ _ _ _ _ _ _. refl };

    ghost absorbed_mentions = { λ _ _ _ _ _ _ _ _. refl };

    ghost cleaned_mentions = { λ _ _ _ _. refl };

    ghost cleaned_unmentioned = { λ _ _. refl };

    ghost pruned_mentions = { λ _ _ _ _ _ _. refl };

    ghost pruned_unmentioned = { λ _ _ _ _. refl };

    ghost closed_means = { λ _ _ _ _ _ _. refl };

    ghost refusal_means = { λ state log held _ op origin pruned is _ fits. laws.refusal_means state log held op origin pruned.cut is fits };

    ghost blocked_means = { λ _ _ _ _ _ _ _ _ _ _. refl };

    ghost shown_means = { λ state log held _ pruned is. ap Elements (laws.set_means added state log held pruned.cut is) };
}

/// A set, and the bytes after it.
#[tactic(auto, unfolding(crate::specs::Reading::set_in))]
fn read_set(alloc: Global, bytes: &[u8]) -> Result<(GSet, &[u8]), FieldError>
    ensures { Gives (λ x. (x.0, x.1.now)) result (set_in bytes.now) }
{
    let (count, rest) = read_number(bytes)?;
    let (elements, rest) = read_texts(alloc, count, rest)?;
    Ok((GSet { alloc, elements }, rest))
}

impl SpelledData for GSet {
    ghost byte_of = { λ _. 3 };

    ghost is_known = { λ byte. byte == 3 };

    ghost IsSound = { IsSoundSet };

    ghost spelled = { set_spelled };

    ghost read_in = { λ _ _. set_in };

    ghost history_byte = { λ _ _. 3 };

    ghost history_spelled = { λ _ H. set_spelled (added_elements added H) };

    fn is_kind(byte: u8) -> bool {
        byte == 3
    }

    fn kind_byte(&self) -> u8 {
        3
    }

    fn spell_data(&self, into: &mut Vec<u8>) -> Result<(), Memory> {
        let spelled = spelled_texts(self.alloc, self.elements())?;
        Ok(into.extend_from_slice(&spelled)?)
    }

    fn read_data(
        alloc: Global,
        _kind: u8,
        _barred: IdSet,
        from: &[u8],
        place: usize,
    ) -> Result<(GSet, usize), ReadError> {
        placed(from.len(), read_set(alloc, &from[place..]))
    }

    ghost spelling_is = { λ _. refl };

    ghost byte_is_known = { λ _. refl };

    ghost read_is_spelled = { λ kind barred bytes x rest known fits read. spellings.of_one_kind 3 kind barred known (spellings.set_takes bytes x rest fits read) };

    ghost spelled_is_read = { λ x _ rest sound _. spellings.set_again x rest sound };

    ghost mentioned_few = { λ _ _ _ _. refl };

    ghost byte_means = { λ _ _ _ _ _ _. refl };

    ghost spelling_means = { λ state log held _ pruned is. ap set_spelled (laws.set_means added state log held pruned.cut is) };
}
