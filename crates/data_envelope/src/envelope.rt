ghost use Rattle.std.specs.Prelude.{◌≡◌, ◌↔◌, ℕ, ◌+◌, ◌<◌, ◌≤◌, ◌^◌, true, false, not, ◌&&◌, IsTrue, IfSome, IfNone, IfOk, IfErr, OnOk, OnErr, Option, Some, None, Ok, max};
ghost use Rattle.std.specs.FinMap as map;
ghost use Rattle.model_history.specs.Table.{identity_limit};
ghost use Rattle.model_history.specs.Vector.{Covers};
ghost use Rattle.model_history.specs.History.{History, at, versions, is_pruned, IsHistory};
ghost use Rattle.model_history.specs.History.Action.{Operation};
ghost use Rattle.model_history.specs.Cuts.{without};
ghost use Rattle.model_members.specs.Entry.{Entry, Mark, unseen, merged, empty_entry, has_records, seen_by, is_unchanged};
ghost use Rattle.base_vectors.specs.Vectors.{number_at, raised};
ghost use Rattle.data_markers.specs.Marks.{mark_of, begun, is_performed, is_begun_at, performed_in, MergesTo};
ghost use Rattle.data_lattice.specs.Refusals.{IsApplyRefusal};
ghost use Rattle.data_envelope.specs.Images.{StandsFor};
ghost use Rattle.data_envelope.specs.Words.{parts_of, group_parts, is_unchanged_at, init_at, init_by, IsFirstUnknown};
ghost use Rattle.data_envelope.specs.Pruning.{init_as, init_of, IsPruned};
ghost use Rattle.data_envelope.specs.Calls.{AddsRecord, BringsDelta, GainsNothing, MergesEntries, JudgesGroup, TakesGroup, BeginsMark, AddsPrune, TellsShares, HasFit};
ghost use Rattle.data_envelope.specs.declared.outcomes.Perform.TheVariants as outcome;
ghost use Rattle.data_envelope.specs.declared.outcomes.Init.TheVariants as initial;

use crate::cleaning::cleaned_copy;
use crate::group::Group;
use crate::outcomes::{Init, Judgement, Perform};
use base_bytes::Memory;
use base_vectors::{Dot, Id, IdSet, Seq, VersionVector};
use data_lattice::{ApplyError, PruneError, Replica};
use data_markers::{Marker, Markers};
use model_kinds::Shown;
use std::alloc::Global;
use std::marker::Model;

/// What a member holds of one key. Contracts see its parts. An identity with a performed mark stands in no other of them.
#[derive(Drop)]
pub struct Envelope<T: Replica> {
    alloc: Global,
    value: T,
    versions: VersionVector,
    markers: Markers,
}

impl<T: Replica> Model for Envelope<T> {
    ghost use Rattle.std.specs.Coded.{codes};
    ghost use Rattle.base_vectors.specs.contracts.vector.VersionVector as vector;
    ghost use Rattle.data_markers.specs.contracts.markers.Markers as marks;
    ghost use Rattle.data_envelope.specs.Contents.{Contents, AreForgotten};

    ghost Value = { Contents T T.Kind T.Op T.Delta };

    ghost coded = { Prim.hlevel (codes, vector.the_row.coded, marks.the_row.coded) };

    ghost view = { λ envelope. record { value = envelope.value; versions = envelope.versions; markers = envelope.markers } };

    ghost invariant = { λ envelope. AreForgotten T.mentioned envelope.value envelope.versions envelope.markers };
}

impl<T: Replica> Envelope<T> {
    /// An entry without a record.
    pub fn new(alloc: Global, value: T) -> Envelope<T>
        requires { (kind : T.Kind) × (value ≡ T.empty_of kind) }
        ensures value { result.value ≡ value }
        ensures versions { result.versions ≡ map.empty }
        ensures markers { result.markers ≡ map.empty }
        ensures image { (log : History T.Op) → IsHistory log → StandsFor T.IsDataOf (parts_of result) log empty_entry }
    {
        Envelope {
            alloc,
            value,
            versions: VersionVector::new(alloc),
            markers: Markers::new(alloc),
        }
    }

    /// The entry with these parts.
    pub fn from_parts(
        alloc: Global,
        value: T,
        versions: VersionVector,
        markers: Markers,
    ) -> Envelope<T>
        requires { (id : ℕ) → performed_in markers id ≡ true → (number_at versions id ≡ 0) × (T.mentioned value id ≡ false) }
        ensures value { result.value ≡ value }
        ensures versions { result.versions ≡ versions }
        ensures markers { result.markers ≡ markers }
    {
        Envelope {
            alloc,
            value,
            versions,
            markers,
        }
    }

    /// The data.
    pub fn value(&self) -> &T
        ensures { result.now ≡ self.now.value }
    {
        &self.value
    }

    /// The value as it is shown, which is the meaning of the history.
    pub fn show(&self, alloc: Global) -> Result<Shown, Memory>
        ensures value { IfOk result (λ shown. shown ≡ T.shown self.now.value) }
        ensures image { (log : History T.Op) (entry : Entry T.Op) → StandsFor T.IsDataOf (parts_of self.now) log entry
            → IfOk result (λ shown. shown ≡ T.data_type.shown (T.kind_of self.now.value) entry.history) }
    {
        self.value.show(alloc)
    }

    /// Whether the key was deleted, which is what the history says.
    pub fn closed(&self) -> bool
        ensures value { result ≡ T.is_closed self.now.value }
        ensures image { (log : History T.Op) (entry : Entry T.Op) → StandsFor T.IsDataOf (parts_of self.now) log entry → result ≡ T.data_type.deleted entry.history }
    {
        self.value.closed()
    }

    /// How many records of an identity this entry has, those of a pruned one included.
    pub fn at(&self, id: Id) -> Seq
        ensures image { (log : History T.Op) (entry : Entry T.Op) → StandsFor T.IsDataOf (parts_of self.now) log entry → result ≡ at entry.history id }
        ensures range { result ≤ 2 ^ 62 }
    {
        match self.markers.get(id) {
            Some(Marker::Performed { upto, .. }) => upto,
            _ => self.versions.at(id),
        }
    }

    /// The greatest record number per identity, those of pruned identities left out.
    pub fn versions(&self) -> &VersionVector
        ensures value { result.now ≡ self.now.versions }
        ensures image { (log : History T.Op) (entry : Entry T.Op) → StandsFor T.IsDataOf (parts_of self.now) log entry
            → (i : ℕ) → number_at result.now i ≡ without (is_pruned entry.history) (versions entry.history) i }
    {
        &self.versions
    }

    /// The marks of the identities that are to be pruned, or were.
    pub fn markers(&self) -> &Markers
        ensures value { result.now ≡ self.now.markers }
        ensures begun { (log : History T.Op) (entry : Entry T.Op) → StandsFor T.IsDataOf (parts_of self.now) log entry → (r : ℕ) → begun (mark_of result.now r) ≡ entry.marks r }
        ensures pruned { (log : History T.Op) (entry : Entry T.Op) → StandsFor T.IsDataOf (parts_of self.now) log entry → (r : ℕ) → performed_in result.now r ≡ is_pruned entry.history r }
        ensures forgotten { (id : ℕ) → performed_in result.now id ≡ true → (number_at self.now.versions id ≡ 0) × (T.mentioned self.now.value id ≡ false) }
    {
        &self.markers
    }

    /// Whether the identity was pruned.
    pub fn is_pruned(&self, id: Id) -> bool
        ensures value { result ≡ performed_in self.now.markers id }
        ensures image { (log : History T.Op) (entry : Entry T.Op) → StandsFor T.IsDataOf (parts_of self.now) log entry → result ≡ is_pruned entry.history id }
    {
        self.markers.performed(id)
    }

    /// No identity from this on has a record or a mark.
    pub fn limit(&self) -> u8
        ensures marks { (i : ℕ) → result ≤ i → mark_of self.now.markers i ≡ None }
        ensures image { (log : History T.Op) (entry : Entry T.Op) → StandsFor T.IsDataOf (parts_of self.now) log entry → (i : ℕ) → result ≤ i → at entry.history i ≡ 0 }
        ensures range { result ≤ identity_limit }
    {
        self.versions.limit().max(self.markers.limit())
    }

    /// Whether there is any record.
    pub fn has_records(&self) -> bool
        ensures image { (log : History T.Op) (entry : Entry T.Op) → StandsFor T.IsDataOf (parts_of self.now) log entry → result ≡ has_records entry }
    {
        for number in 0..self.limit() {
            if let Some(id) = Id::new(number) {
                if self.at(id) > 0 {
                    return true;
                }
            }
        }
        false
    }

    /// How many records of each identity this entry has, those of the pruned ones included.
    pub fn known(&self, alloc: Global) -> Result<VersionVector, Memory>
        ensures image { (log : History T.Op) (entry : Entry T.Op) → StandsFor T.IsDataOf (parts_of self.now) log entry
            → IfOk result (λ known. (i : ℕ) → number_at known i ≡ at entry.history i) }
    {
        if self.markers.is_empty() {
            return self.versions.copy(alloc);
        }
        let mut known = VersionVector::new(alloc);
        for number in 0..self.limit() {
            if let Some(id) = Id::new(number) {
                let seq = self.at(id);
                if seq > 0 {
                    known.raise(id, seq)?;
                }
            }
        }
        Ok(known)
    }

    /// Whether neither entry has a mark.
    fn are_unmarked(&self, other: &Envelope<T>) -> bool
        ensures { IsTrue result ↔ ((self.now.markers ≡ map.empty) × (other.now.markers ≡ map.empty)) }
    {
        self.markers.is_empty() && other.markers.is_empty()
    }

    /// Whether this entry has the same records and marks as an earlier state of it.
    pub fn is_unchanged(&self, since: &Envelope<T>) -> bool
        ensures image { (log : History T.Op) (old new : Entry T.Op) → StandsFor T.IsDataOf (parts_of since.now) log old → StandsFor T.IsDataOf (parts_of self.now) log new
            → result ≡ is_unchanged old new }
    {
        if self.are_unmarked(since) {
            return self.versions.same(&since.versions);
        }
        for number in 0..self.limit().max(since.limit()) {
            if let Some(id) = Id::new(number) {
                if !self.is_unchanged_at(since, id) {
                    return false;
                }
            }
        }
        true
    }

    fn is_unchanged_at(&self, since: &Envelope<T>, id: Id) -> bool
        ensures image { (log : History T.Op) (old new : Entry T.Op) → StandsFor T.IsDataOf (parts_of since.now) log old → StandsFor T.IsDataOf (parts_of self.now) log new
            → result ≡ is_unchanged_at old new id }
    {
        self.at(id) == since.at(id) && since.markers.same_begun(&self.markers, id)
    }

    /// Whether another entry of the same key has no record that is not here, and neither has begun a mark: this entry is then
    /// the merge of both, and whoever sees its marks changes none.
    pub fn gains_nothing(&self, other: &Envelope<T>) -> bool
        ensures merged { (log : History T.Op) (mine theirs : Entry T.Op) → StandsFor T.IsDataOf (parts_of self.now) log mine → StandsFor T.IsDataOf (parts_of other.now) log theirs
            → IsTrue result → merged mine theirs ≡ mine }
        ensures seen { (log : History T.Op) (entry : Entry T.Op) (id view : ℕ) → StandsFor T.IsDataOf (parts_of self.now) log entry → IsTrue result → seen_by id view entry ≡ entry }
        ensures nothing { GainsNothing T.IsDataOf (parts_of self.now) (parts_of other.now) result }
    {
        if self.markers.has_begun() {
            return false;
        }
        if other.markers.has_begun() {
            return false;
        }
        self.has_records_of(other)
    }

    /// Whether each record of another entry of the same key is here.
    fn has_records_of(&self, other: &Envelope<T>) -> bool
        ensures image { (log : History T.Op) (mine theirs : Entry T.Op) → StandsFor T.IsDataOf (parts_of self.now) log mine → StandsFor T.IsDataOf (parts_of other.now) log theirs
            → IsTrue result ↔ Covers (versions mine.history) (versions theirs.history) }
    {
        if self.are_unmarked(other) {
            return self.versions.covers(&other.versions);
        }
        for number in 0..other.limit() {
            if let Some(id) = Id::new(number) {
                if self.at(id) < other.at(id) {
                    return false;
                }
            }
        }
        true
    }

    /// An equal entry.
    pub fn copy(&self, alloc: Global) -> Result<Envelope<T>, Memory>
        ensures { IfOk result (λ copy. copy ≡ self.now) }
    {
        let value = self.value.copy(alloc)?;
        let versions = self.versions.copy(alloc)?;
        let markers = self.markers.copy(alloc)?;
        Ok(Envelope {
            alloc,
            value,
            versions,
            markers,
        })
    }

    /// Notes that a member with this view has seen the marks. Answers whether a mark changed.
    pub fn add_seen(&mut self, id: Id, view: u32) -> bool
        ensures image { (log : History T.Op) (entry : Entry T.Op) → StandsFor T.IsDataOf (parts_of self.old) log entry → StandsFor T.IsDataOf (parts_of self.new) log (seen_by id view entry) }
        ensures changed { (log : History T.Op) (entry : Entry T.Op) → StandsFor T.IsDataOf (parts_of self.old) log entry → is_unchanged entry (seen_by id view entry) ≡ not result }
        ensures value { self.new.value ≡ self.old.value }
        ensures performed { (r : ℕ) → performed_in self.new.markers r ≡ performed_in self.old.markers r }
        ensures versions { self.new.versions ≡ self.old.versions }
    {
        let _below_limit = id.number();
        self.markers.add_seen(id, view)
    }

    /// Adds the operation as the next record of the identity, which has taken the records of this entry, and answers the
    /// record's delta.
    ///
    /// # Errors
    ///
    /// The refusal that the kind has for the operation of this identity, or memory was refused. Nothing changed then.
    pub fn update(&mut self, op: &T::Op, id: Id) -> Result<T::Delta, ApplyError>
        requires fits { (not (T.is_closed self.old.value) && T.data_type.fits (T.kind_of self.old.value) op.now) ≡ true }
        requires member { performed_in self.old.markers id ≡ false }
        requires room { number_at self.old.versions id < 2 ^ 62 }
        ensures image { AddsRecord T.IsDataOf (parts_of self.old) (parts_of self.new) id (Operation op.now) result }
        ensures delta { BringsDelta T.IsDataOf T.IsDeltaOf (parts_of self.old) id (Operation op.now) result }
        ensures delta_kind { IfOk result (λ delta. T.delta_fits_kind (T.kind_of self.old.value) delta ≡ true) }
        ensures delta_origin { IfOk result (λ delta. T.IsOfOrigin delta id) }
        ensures unrefused { (log : History T.Op) (entry : Entry T.Op) → StandsFor T.IsDataOf (parts_of self.old) log entry
            → OnOk result (T.data_type.refusal (T.kind_of self.old.value) id op.now entry.history ≡ None) }
        ensures refused { (log : History T.Op) (entry : Entry T.Op) → StandsFor T.IsDataOf (parts_of self.old) log entry
            → IfErr result (IsApplyRefusal (T.data_type.refusal (T.kind_of self.old.value) id op.now entry.history)) }
        ensures markers { self.new.markers ≡ self.old.markers }
        ensures versions { OnOk result (self.new.versions ≡ raised self.old.versions id (number_at self.old.versions id + 1)) }
        ensures kind { T.kind_of self.new.value ≡ T.kind_of self.old.value }
        ensures err { OnErr result (self.new ≡ self.old) }
    {
        let seq = self.versions.at(id) + 1;
        let mut versions = self.versions.copy(self.alloc)?;
        versions.raise(id, seq)?;
        match self.value.apply(self.alloc, op, Dot { origin: id, seq }) {
            Ok(delta) => {
                self.versions = versions;
                Ok(delta)
            }
            Err(error) => Err(error),
        }
    }

    /// Takes the records and marks of another entry of the same key.
    pub fn merge(&mut self, other: &Envelope<T>) -> Result<(), Memory>
        requires { T.kind_of self.old.value ≡ T.kind_of other.now.value }
        ensures image { MergesEntries T.IsDataOf (parts_of self.old) (parts_of other.now) (parts_of self.new) result }
        ensures markers { OnOk result (MergesTo self.old.markers other.now.markers self.new.markers) }
        ensures versions { (i : ℕ) → OnOk result (number_at self.new.versions i ≤ max (number_at self.old.versions i) (number_at other.now.versions i)) }
        ensures greatest { (i : ℕ) → performed_in self.new.markers i ≡ false → OnOk result (number_at self.new.versions i ≡ max (number_at self.old.versions i) (number_at other.now.versions i)) }
        ensures kind { T.kind_of self.new.value ≡ T.kind_of self.old.value }
        ensures err { OnErr result (self.new ≡ self.old) }
    {
        let mut markers = self.markers.copy(self.alloc)?;
        markers.merge(&other.markers)?;
        if self.markers.same_performed(&other.markers) {
            self.join(other, markers)
        } else {
            self.join_cleaned(other, markers)
        }
    }

    /// Takes the records of another entry of the same key, of which the same identities were pruned; and these marks of both.
    fn join(&mut self, other: &Envelope<T>, markers: Markers) -> Result<(), Memory>
        requires kind { T.kind_of self.old.value ≡ T.kind_of other.now.value }
        requires merges { MergesTo self.old.markers other.now.markers markers }
        requires alike { (i : ℕ) → performed_in self.old.markers i ≡ performed_in other.now.markers i }
        ensures image { MergesEntries T.IsDataOf (parts_of self.old) (parts_of other.now) (parts_of self.new) result }
        ensures markers { OnOk result (self.new.markers ≡ markers) }
        ensures versions { (i : ℕ) → OnOk result (number_at self.new.versions i ≡ max (number_at self.old.versions i) (number_at other.now.versions i)) }
        ensures kind { T.kind_of self.new.value ≡ T.kind_of self.old.value }
        ensures err { OnErr result (self.new ≡ self.old) }
    {
        let _few = other.versions.limit();
        let mut versions = self.versions.copy(self.alloc)?;
        versions.join(&other.versions)?;
        self.value
            .join(&self.versions, &other.value, &other.versions)?;
        self.versions = versions;
        self.markers = markers;
        Ok(())
    }

    /// Takes the records of another entry of the same key, without what either has of an identity that was pruned; and these
    /// marks of both.
    fn join_cleaned(&mut self, other: &Envelope<T>, markers: Markers) -> Result<(), Memory>
        requires kind { T.kind_of self.old.value ≡ T.kind_of other.now.value }
        requires merges { MergesTo self.old.markers other.now.markers markers }
        ensures image { MergesEntries T.IsDataOf (parts_of self.old) (parts_of other.now) (parts_of self.new) result }
        ensures markers { OnOk result (self.new.markers ≡ markers) }
        ensures versions { (i : ℕ) → OnOk result (number_at self.new.versions i ≤ max (number_at self.old.versions i) (number_at other.now.versions i)) }
        ensures greatest { (i : ℕ) → performed_in self.new.markers i ≡ false → OnOk result (number_at self.new.versions i ≡ max (number_at self.old.versions i) (number_at other.now.versions i)) }
        ensures kind { T.kind_of self.new.value ≡ T.kind_of self.old.value }
        ensures err { OnErr result (self.new ≡ self.old) }
    {
        let (mut value, mut versions) = cleaned_copy(
            self.alloc,
            &self.value,
            &self.versions,
            &markers,
        )?;
        let (theirs, numbers) = cleaned_copy(self.alloc, &other.value, &other.versions, &markers)?;
        value.join(&versions, &theirs, &numbers)?;
        versions.join(&numbers)?;
        self.value = value;
        self.versions = versions;
        self.markers = markers;
        Ok(())
    }

    /// Whether a group of records is to be taken.
    pub fn judge(&self, group: &Group<T>) -> Judgement
        ensures image { JudgesGroup T.IsDataOf T.IsDeltaOf (parts_of self.now) (group_parts group.now) result }
    {
        if self.at(group.origin) >= group.upto {
            return Judgement::Already;
        }
        match self.first_lacking(&group.needs) {
            Some(id) => Judgement::Gap(id),
            None => Judgement::Take,
        }
    }

    /// The least identity of which this entry has fewer records than are needed.
    fn first_lacking(&self, needs: &VersionVector) -> Option<Id>
        ensures some { (log : History T.Op) (entry : Entry T.Op) → StandsFor T.IsDataOf (parts_of self.now) log entry → IfSome result (IsFirstUnknown (versions entry.history) (number_at needs.now)) }
        ensures none { (log : History T.Op) (entry : Entry T.Op) → StandsFor T.IsDataOf (parts_of self.now) log entry
            → IfNone result ((i : ℕ) → i < identity_limit → number_at needs.now i ≤ at entry.history i) }
    {
        let limit = needs.limit();
        if self.markers.is_empty() {
            return self.versions.first_lacking(needs);
        }
        for number in 0..limit {
            if let Some(id) = Id::new(number) {
                if self.at(id) < needs.at(id) {
                    return Some(id);
                }
            }
        }
        None
    }

    /// Takes a group of records that is wanted.
    pub fn take(&mut self, group: &Group<T>) -> Result<(), Memory>
        requires fits { T.delta_fits_kind (T.kind_of self.old.value) group.now.delta ≡ true }
        requires member { performed_in self.old.markers group.now.origin ≡ false }
        ensures image { TakesGroup T.IsDataOf T.IsDeltaOf (parts_of self.old) (parts_of self.new) (group_parts group.now) result }
        ensures kind { T.kind_of self.new.value ≡ T.kind_of self.old.value }
        ensures others { (i : ℕ) → (i ≡ group.now.origin → ⊥) → number_at self.new.versions i ≡ number_at self.old.versions i }
        ensures markers { self.new.markers ≡ self.old.markers }
        ensures err { OnErr result (self.new ≡ self.old) }
    {
        let mut versions = self.versions.copy(self.alloc)?;
        versions.raise(group.origin, group.upto)?;
        self.value.absorb(&self.versions, &group.delta)?;
        self.versions = versions;
        Ok(())
    }

    /// Marks an identity as one that an owner is to prune in a view, unless a mark of this view or of a greater one stands,
    /// or the entry has no record of the identity, or it was pruned.
    pub fn init_prune(&mut self, removed: Id, owner: Id, view: u32) -> Result<Init, Memory>
        ensures image { BeginsMark T.IsDataOf (parts_of self.old) (parts_of self.new) removed owner view result }
        ensures outcome { (log : History T.Op) (entry : Entry T.Op) → StandsFor T.IsDataOf (parts_of self.old) log entry → IfOk result (λ init. init ≡ init_at entry removed view) }
        ensures init { IfOk result (λ init. init ≡ init_of (parts_of self.old) removed view) }
        ensures value { self.new.value ≡ self.old.value }
        ensures versions { self.new.versions ≡ self.old.versions }
        ensures performed { (r : ℕ) → performed_in self.new.markers r ≡ performed_in self.old.markers r }
        ensures stays { (result ≡ Ok initial.Marked → ⊥) → self.new ≡ self.old }
    {
        if self.versions.at(removed) == 0 {
            return Ok(Init::NothingKnown);
        }
        match first_step(self.markers.get(removed), view) {
            Init::Marked => {
                let seen = IdSet::empty().with(owner);
                let marker = Marker::Initialized { view, owner, seen };
                self.markers.put(removed, marker)?;
                Ok(Init::Marked)
            }
            other => Ok(other),
        }
    }

    /// Makes the prune of a removed identity the owner's next record, where its mark is of this view and all members have seen it.
    pub fn perform(
        &mut self,
        removed: Id,
        owner: Id,
        view: u32,
        members: &[Id],
    ) -> Result<Perform, Memory>
        requires other { removed ≡ owner → ⊥ }
        requires member { performed_in self.old.markers owner ≡ false }
        requires known { 1 ≤ number_at self.old.versions removed }
        requires room { number_at self.old.versions owner < 2 ^ 62 }
        ensures image { AddsPrune T.IsDataOf (parts_of self.old) (parts_of self.new) removed owner result }
        ensures blocked { TellsShares T.IsDataOf (T.data_type.blocked (T.kind_of self.old.value)) (parts_of self.old) removed owner result }
        ensures unblocked { HasFit T.IsDataOf (T.data_type.blocked (T.kind_of self.old.value)) (parts_of self.old) removed owner result }
        ensures undeleted { (owner_share removed_share : ℕ) → result ≡ Ok (outcome.Blocked owner_share removed_share) → T.is_closed self.old.value ≡ false }
        ensures nothing { result ≡ Ok outcome.NothingMarked → is_begun_at (mark_of self.old.markers removed) view ≡ false }
        ensures marked { is_begun_at (mark_of self.old.markers removed) view ≡ false → result ≡ Ok outcome.NothingMarked }
        ensures waiting { (i : ℕ) (mark : Mark) → begun (mark_of self.old.markers removed) ≡ Some mark → result ≡ Ok (outcome.Waiting i) → unseen mark members.now ≡ Some i }
        ensures seen { (i : ℕ) (mark : Mark) → begun (mark_of self.old.markers removed) ≡ Some mark → mark.view ≡ view → unseen mark members.now ≡ Some i → result ≡ Ok (outcome.Waiting i) }
        ensures pruned { result ≡ Ok outcome.Performed → IsPruned removed owner (parts_of self.old) (parts_of self.new) }
        ensures forgotten { result ≡ Ok outcome.Performed → T.mentioned self.new.value removed ≡ false }
        ensures kind { T.kind_of self.new.value ≡ T.kind_of self.old.value }
        ensures stays { (result ≡ Ok outcome.Performed → ⊥) → self.new ≡ self.old }
    {
        match self.markers.get(removed) {
            Some(Marker::Initialized { view: marked, .. }) if marked == view => {}
            _ => return Ok(Perform::NothingMarked),
        }
        match self.markers.first_unseen(removed, members) {
            Some(id) => Ok(Perform::Waiting(id)),
            None => self.prune(removed, owner),
        }
    }

    fn prune(&mut self, removed: Id, owner: Id) -> Result<Perform, Memory>
        requires other { removed ≡ owner → ⊥ }
        requires member { performed_in self.old.markers owner ≡ false }
        requires unpruned { performed_in self.old.markers removed ≡ false }
        requires known { 1 ≤ number_at self.old.versions removed }
        requires room { number_at self.old.versions owner < 2 ^ 62 }
        ensures image { AddsPrune T.IsDataOf (parts_of self.old) (parts_of self.new) removed owner result }
        ensures blocked { TellsShares T.IsDataOf (T.data_type.blocked (T.kind_of self.old.value)) (parts_of self.old) removed owner result }
        ensures unblocked { HasFit T.IsDataOf (T.data_type.blocked (T.kind_of self.old.value)) (parts_of self.old) removed owner result }
        ensures undeleted { (owner_share removed_share : ℕ) → result ≡ Ok (outcome.Blocked owner_share removed_share) → T.is_closed self.old.value ≡ false }
        ensures marked { result ≡ Ok outcome.NothingMarked → ⊥ }
        ensures seen { (i : ℕ) → result ≡ Ok (outcome.Waiting i) → ⊥ }
        ensures pruned { result ≡ Ok outcome.Performed → IsPruned removed owner (parts_of self.old) (parts_of self.new) }
        ensures forgotten { result ≡ Ok outcome.Performed → T.mentioned self.new.value removed ≡ false }
        ensures kind { T.kind_of self.new.value ≡ T.kind_of self.old.value }
        ensures stays { (result ≡ Ok outcome.Performed → ⊥) → self.new ≡ self.old }
    {
        let _below_limit = owner.number();
        let at = self.versions.at(owner) + 1;
        let upto = self.versions.at(removed);
        let mut markers = self.markers.copy(self.alloc)?;
        markers.put(removed, Marker::Performed { owner, at, upto })?;
        let mut versions = self.versions.copy(self.alloc)?;
        versions.raise(owner, at)?;
        versions.without(removed);
        match self.value.prune(
            removed,
            Dot {
                origin: owner,
                seq: at,
            },
        ) {
            Ok(()) => {
                self.versions = versions;
                self.markers = markers;
                Ok(Perform::Performed)
            }
            Err(
                PruneError::Blocked {
                    owner_share,
                    removed_share,
                },
            ) => Ok(Perform::Blocked {
                owner_share,
                removed_share,
            }),
            Err(PruneError::Memory) => Err(Memory),
        }
    }
}

/// What becomes of the first step of a prune in a view, where the identity has records.
fn first_step(marker: Option<Marker>, view: u32) -> Init
    ensures unpruned { is_performed marker ≡ false → result ≡ init_by (begun marker) view }
    ensures pruned { is_performed marker ≡ true → result ≡ initial.NothingKnown }
    ensures init { result ≡ init_as marker view }
{
    match marker {
        None => Init::Marked,
        Some(Marker::Performed { .. }) => Init::NothingKnown,
        Some(Marker::Initialized { view: marked, .. }) => {
            if marked < view {
                Init::Marked
            } else if view < marked {
                Init::Newer
            } else {
                Init::Standing
            }
        }
    }
}
