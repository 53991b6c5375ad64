ghost use Rattle.std.specs.Prelude.{◌≡◌, ℕ, List, ◌+◌, ◌<◌, ◌≤◌, ◌^◌, ◌↔◌, Bool, true, false, not, ◌&&◌, ◌||◌, IsTrue, IfOk, IfErr, OnOk, OnErr, Option, None};
ghost use Rattle.model_history.specs.Table.{with_at};
ghost use Rattle.model_history.specs.Vector.{VersionVector, IdentitySet, join, with_member};
ghost use Rattle.model_history.specs.History.{History, cut};
ghost use Rattle.model_history.specs.History.Action.{Operation, Prune};
ghost use Rattle.model_history.specs.Cuts.{IsConsistentCut, IsPrunedCut, IsNext, AreOperations, grown, without};
ghost use Rattle.model_meanings.specs.Refusal.{Refusal, Shares};
ghost use Rattle.model_members.specs.DataType.{DataType};
ghost use Rattle.base_vectors.specs.Vectors.{number_at};
ghost use Rattle.base_vectors.specs.declared.id.Dot.{Dot};
ghost use Rattle.model_kinds.specs.declared.shown.Shown.{Shown};
ghost use Rattle.model_kinds.specs.declared.shown.Shown.TheVariants.{Deleted};
ghost use Rattle.data_lattice.specs.Refusals.{IsApplyRefusal, IsPruneRefusal};

use crate::answers::{ApplyError, PruneError};
use base_bytes::Memory;
use base_vectors::{Dot, Id, VersionVector};
use model_kinds::Shown;
use std::alloc::Global;

/// Data of one kind, without the records that made them: the state of a delta state replicated data type, after Almeida,
/// Shoker and Baquero, "Delta State Replicated Data Types", 2018.
///
/// What a replica counts of each identity is handed to the calls that need it as a version vector, its causal context. A
/// call that changes data leaves them as they were where it answers an error.
pub trait Replica: Drop {
    /// Which kinds there are.
    type Kind: Copy;

    /// What an update does.
    type Op;

    /// What records of one origin do, as a part that can be sent.
    type Delta: Drop;

    // What histories of these operations mean.
    ghost data_type: { DataType Self.Kind Self.Op Shown };

    // What the calls compute.
    ghost kind_of: { Self → Self.Kind };

    // The key was deleted: it has no value any more.
    ghost is_closed: { Self → Bool };

    ghost delta_fits_kind: { Self.Kind → Self.Delta → Bool };

    ghost IsOfOrigin: { Self.Delta → ℕ → Type 0 };

    ghost AreApart: { Self.Delta → Self.Delta → Type 0 };

    ghost empty_of: { Self.Kind → Self };

    ghost applied: { Self → Self.Op → Dot → Self };

    ghost delta_of: { Self → Self.Op → Dot → Self.Delta };

    ghost apply_refusal: { Self → Self.Op → ℕ → Option Refusal };

    ghost joined: { Self → VersionVector → Self → VersionVector → Self };

    ghost absorbed: { Self → VersionVector → Self.Delta → Self };

    ghost combined: { Self.Delta → Self.Delta → Self.Delta };

    ghost cleaned: { Self → ℕ → Self };

    ghost pruned: { Self → ℕ → Dot → Self };

    ghost prune_refusal: { Self → ℕ → ℕ → Option Shares };

    ghost mentioned: { Self → ℕ → Bool };

    ghost shown: { Self → Shown };

    // The byte of the kind, and the one spelling of the data, where data are spelled.
    ghost spelling: { Self → ℕ × List ℕ };

    // What the data are: data of `cut log held`, from which the identities of a set were cleaned away.
    ghost IsDataOf: { Self → History Self.Op → VersionVector → IdentitySet → Type 0 };

    ghost IsDeltaOf: { Self.Delta → History Self.Op → ℕ → ℕ → ℕ → Type 0 };

    ghost IsWithin: { Self → VersionVector → Type 0 };

    /// The data of the kind without a record.
    fn empty(alloc: Global, kind: &Self::Kind) -> Result<Self, Memory>
        ensures { IfOk result (λ state. state ≡ empty_of kind.now) };

    /// Equal data.
    fn copy(&self, alloc: Global) -> Result<Self, Memory>
        ensures { IfOk result (λ copy. copy ≡ self.now) };

    /// Whether both are of one kind.
    fn same_kind(&self, other: &Self) -> bool
        ensures { IsTrue result ↔ (kind_of self.now ≡ kind_of other.now) };

    /// Whether the key was deleted. Its data have no value any more, and stay so whatever is joined or taken.
    fn closed(&self) -> bool
        ensures { result ≡ is_closed self.now };

    /// Whether the operation is one of the kind, and the key was not deleted.
    fn fits(&self, op: &Self::Op) -> bool
        ensures { result ≡ (not (is_closed self.now) && data_type.fits (kind_of self.now) op.now) };

    /// Applies an operation as the record of this name, of a number from 1 to `2^62`, and answers its delta.
    ///
    /// # Errors
    ///
    /// The refusal that the kind has for the operation of this origin, or memory was refused.
    fn apply(&mut self, alloc: Global, op: &Self::Op, dot: Dot) -> Result<Self::Delta, ApplyError>
        requires fits { (not (is_closed self.old) && data_type.fits (kind_of self.old) op.now) ≡ true }
        requires seq { (1 ≤ dot.seq) × (dot.seq ≤ 2 ^ 62) }
        ensures unrefused { OnOk result (apply_refusal self.old op.now dot.origin ≡ None) }
        ensures applied { OnOk result (self.new ≡ applied self.old op.now dot) }
        ensures delta { IfOk result (λ delta. delta ≡ delta_of self.old op.now dot) }
        ensures refused { IfErr result (IsApplyRefusal (apply_refusal self.old op.now dot.origin)) }
        ensures err { OnErr result (self.new ≡ self.old) };

    /// Joins other data of the same kind. `mine` and `theirs` are the numbers of records that either side counts.
    fn join(
        &mut self,
        mine: &VersionVector,
        other: &Self,
        theirs: &VersionVector,
    ) -> Result<(), Memory>
        requires { kind_of self.old ≡ kind_of other.now }
        ensures ok { OnOk result (self.new ≡ joined self.old (number_at mine.now) other.now (number_at theirs.now)) }
        ensures err { OnErr result (self.new ≡ self.old) };

    /// Takes a delta of the kind. `mine` are the numbers of records that were counted before.
    fn absorb(&mut self, mine: &VersionVector, delta: &Self::Delta) -> Result<(), Memory>
        requires { delta_fits_kind (kind_of self.old) delta.now ≡ true }
        ensures ok { OnOk result (self.new ≡ absorbed self.old (number_at mine.now) delta.now) }
        ensures err { OnErr result (self.new ≡ self.old) };

    /// Two deltas of one origin and one kind as one, the earlier first.
    fn combine(
        alloc: Global,
        first: &Self::Delta,
        later: &Self::Delta,
    ) -> Result<Self::Delta, Memory>
        requires origin { (origin : ℕ) × IsOfOrigin first.now origin × IsOfOrigin later.now origin }
        requires kind { (kind : Self.Kind) × (delta_fits_kind kind first.now ≡ true) × (delta_fits_kind kind later.now ≡ true) }
        ensures { IfOk result (λ delta. delta ≡ combined first.now later.now) }
    {
        let mut both = Self::copy_delta(alloc, first)?;
        Self::extend_delta(&mut both, later)?;
        Ok(both)
    }

    /// Adds a later delta to one of the same origin and kind, so that it is both as one. After a refusal it is as it was.
    fn extend_delta(delta: &mut Self::Delta, later: &Self::Delta) -> Result<(), Memory>
        requires origin { (origin : ℕ) × IsOfOrigin delta.old origin × IsOfOrigin later.now origin }
        requires kind { (kind : Self.Kind) × (delta_fits_kind kind delta.old ≡ true) × (delta_fits_kind kind later.now ≡ true) }
        ensures ok { OnOk result (delta.new ≡ combined delta.old later.now) }
        ensures err { OnErr result (delta.new ≡ delta.old) };

    /// An equal delta.
    fn copy_delta(alloc: Global, delta: &Self::Delta) -> Result<Self::Delta, Memory>
        ensures { IfOk result (λ copy. copy ≡ delta.now) };

    /// Whether the delta is one of the kind.
    fn delta_fits(&self, delta: &Self::Delta) -> bool
        ensures { result ≡ delta_fits_kind (kind_of self.now) delta.now };

    /// Drops what the data have of an identity that was pruned.
    fn clean(&mut self, id: Id)
        ensures { self.new ≡ cleaned self.old id };

    /// Moves what another identity, the removed one, holds to the origin of the record of this name.
    ///
    /// # Errors
    ///
    /// The two shares add to more than one identity may hold, or memory was refused.
    fn prune(&mut self, removed: Id, dot: Dot) -> Result<(), PruneError>
        requires other { removed ≡ dot.origin → ⊥ }
        requires seq { (1 ≤ dot.seq) × (dot.seq ≤ 2 ^ 62) }
        ensures unrefused { OnOk result (prune_refusal self.old removed dot.origin ≡ None) }
        ensures pruned { OnOk result (self.new ≡ pruned self.old removed dot) }
        ensures refused { IfErr result (IsPruneRefusal (prune_refusal self.old removed dot.origin)) }
        ensures err { OnErr result (self.new ≡ self.old) };

    /// Whether the data have anything of the identity.
    fn mentions(&self, id: Id) -> bool
        ensures { result ≡ mentioned self.now id };

    /// The value as it is shown.
    fn show(&self, alloc: Global) -> Result<Shown, Memory>
        ensures { IfOk result (λ value. value ≡ shown self.now) };

    // The kind stays.
    ghost kind_empty: { (kind : Self.Kind) → kind_of (empty_of kind) ≡ kind };

    ghost kind_applied: { (state : Self) (op : Self.Op) (dot : Dot) → kind_of (applied state op dot) ≡ kind_of state };

    ghost kind_joined: { (state : Self) (mine : VersionVector) (other : Self) (theirs : VersionVector) → kind_of (joined state mine other theirs) ≡ kind_of state };

    ghost kind_absorbed: { (state : Self) (mine : VersionVector) (delta : Self.Delta) → kind_of (absorbed state mine delta) ≡ kind_of state };

    ghost kind_cleaned: { (state : Self) (id : ℕ) → kind_of (cleaned state id) ≡ kind_of state };

    ghost kind_pruned: { (state : Self) (removed : ℕ) (dot : Dot) → kind_of (pruned state removed dot) ≡ kind_of state };

    // Data of a deleted key stay so. They mention nobody, show that the key was deleted, and keep no identity from being pruned.
    ghost closed_joined: { (state : Self) (mine : VersionVector) (other : Self) (theirs : VersionVector) → is_closed (joined state mine other theirs) ≡ (is_closed state || is_closed other) };

    ghost closed_absorbed: { (state : Self) (mine : VersionVector) (delta : Self.Delta) → is_closed state ≡ true → is_closed (absorbed state mine delta) ≡ true };

    ghost closed_cleaned: { (state : Self) (id : ℕ) → is_closed (cleaned state id) ≡ is_closed state };

    ghost closed_pruned: { (state : Self) (removed : ℕ) (dot : Dot) → is_closed (pruned state removed dot) ≡ is_closed state };

    ghost closed_mentions: { (state : Self) (id : ℕ) → is_closed state ≡ true → mentioned state id ≡ false };

    ghost closed_shown: { (state : Self) → is_closed state ≡ true → shown state ≡ Deleted };

    ghost closed_unblocked: { (state : Self) (removed owner : ℕ) → is_closed state ≡ true → prune_refusal state removed owner ≡ None };

    // Deltas are of a kind and of an origin.
    ghost delta_kind: { (state : Self) (op : Self.Op) (dot : Dot) → (not (is_closed state) && data_type.fits (kind_of state) op) ≡ true → delta_fits_kind (kind_of state) (delta_of state op dot) ≡ true };

    ghost delta_origin: { (state : Self) (op : Self.Op) (dot : Dot) → IsOfOrigin (delta_of state op dot) dot.origin };

    ghost combined_kind: { (kind : Self.Kind) (first later : Self.Delta) → delta_fits_kind kind first ≡ true → delta_fits_kind kind later ≡ true → delta_fits_kind kind (combined first later) ≡ true };

    ghost combined_origin: { (first later : Self.Delta) (origin : ℕ) → IsOfOrigin first origin → IsOfOrigin later origin → IsOfOrigin (combined first later) origin };

    ghost delta_made_by: { (delta : Self.Delta) (log : History Self.Op) (origin after to : ℕ) → IsDeltaOf delta log origin after to → IsOfOrigin delta origin };

    // A join is commutative, associative, idempotent and an upper bound, over data and contexts that hold them.
    ghost join_comm: { (a b : Self) (v w : VersionVector) → kind_of a ≡ kind_of b → IsWithin a v → IsWithin b w → joined a v b w ≡ joined b w a v };

    ghost join_assoc: { (a b c : Self) (u v w : VersionVector) → kind_of a ≡ kind_of b → kind_of b ≡ kind_of c → IsWithin a u → IsWithin b v → IsWithin c w → joined (joined a u b v) (join u v) c w ≡ joined a u (joined b v c w) (join v w) };

    ghost join_same: { (a : Self) (v : VersionVector) → IsWithin a v → joined a v a v ≡ a };

    ghost join_upper: { (a b : Self) (v w : VersionVector) → kind_of a ≡ kind_of b → IsWithin a v → IsWithin b w → joined a v (joined a v b w) (join v w) ≡ joined a v b w };

    ghost join_within: { (a b : Self) (v w : VersionVector) → kind_of a ≡ kind_of b → IsWithin a v → IsWithin b w → IsWithin (joined a v b w) (join v w) };

    // A delta does what it was made of.
    ghost absorb_applied: { (state : Self) (mine : VersionVector) (op : Self.Op) (dot : Dot) → IsWithin state mine → mine dot.origin < dot.seq → absorbed state mine (delta_of state op dot) ≡ applied state op dot };

    ghost absorb_combined: { (state : Self) (mine : VersionVector) (first later : Self.Delta) (origin : ℕ) → delta_fits_kind (kind_of state) first ≡ true → delta_fits_kind (kind_of state) later ≡ true → IsOfOrigin first origin → IsOfOrigin later origin → AreApart first later
        → absorbed state mine (combined first later) ≡ absorbed (absorbed state mine first) mine later };

    // The calls on data of histories give data of the history that follows.
    ghost data_empty: { (kind : Self.Kind) (log : History Self.Op) (held : VersionVector) (gone : IdentitySet) → ((i : ℕ) → held i ≡ 0) → IsDataOf (empty_of kind) log held gone };

    ghost data_applied: { (state : Self) (log : History Self.Op) (held : VersionVector) (gone : IdentitySet) (op : Self.Op) (dot : Dot)
        → IsPrunedCut log held gone → gone dot.origin ≡ false → IsNext log held dot.origin (Operation op) → dot.seq ≡ held dot.origin + 1 → IsDataOf state log held gone → (not (is_closed state) && data_type.fits (kind_of state) op) ≡ true → apply_refusal state op dot.origin ≡ None
        → IsDataOf (applied state op dot) log (grown held dot.origin) gone × IsDeltaOf (delta_of state op dot) log dot.origin (held dot.origin) (held dot.origin + 1) };

    ghost data_joined: { (state other : Self) (log : History Self.Op) (held also : VersionVector) (gone : IdentitySet) → kind_of state ≡ kind_of other → IsConsistentCut log held → IsConsistentCut log also → IsPrunedCut log (join held also) gone → IsDataOf state log held gone → IsDataOf other log also gone
        → IsDataOf (joined state (without gone held) other (without gone also)) log (join held also) gone };

    ghost data_absorbed: { (state : Self) (delta : Self.Delta) (log : History Self.Op) (held : VersionVector) (gone : IdentitySet) (origin after to : ℕ) → delta_fits_kind (kind_of state) delta ≡ true → IsPrunedCut log held gone → IsConsistentCut log (with_at held origin to) → AreOperations log origin after to
        → IsDataOf state log held gone → IsDeltaOf delta log origin after to → gone origin ≡ false → after ≤ held origin → held origin < to → IsDataOf (absorbed state (without gone held) delta) log (with_at held origin to) gone };

    ghost data_cleaned: { (state : Self) (log : History Self.Op) (held : VersionVector) (gone : IdentitySet) (removed : ℕ) → IsDataOf state log held gone → IsDataOf (cleaned state removed) log held (with_member gone removed) };

    ghost data_pruned: { (state : Self) (log : History Self.Op) (held : VersionVector) (gone : IdentitySet) (removed : ℕ) (dot : Dot)
        → IsPrunedCut log held gone → gone dot.origin ≡ false → IsNext log held dot.origin (Prune removed) → dot.seq ≡ held dot.origin + 1 → IsDataOf state log held gone → (removed ≡ dot.origin → ⊥) → gone removed ≡ false → prune_refusal state removed dot.origin ≡ None
        → IsDataOf (pruned state removed dot) log (grown held dot.origin) (with_member gone removed) };

    ghost delta_combined: { (kind : Self.Kind) (first later : Self.Delta) (log : History Self.Op) (origin after mid to : ℕ) → delta_fits_kind kind first ≡ true → delta_fits_kind kind later ≡ true → IsDeltaOf first log origin after mid → IsDeltaOf later log origin mid to → IsDeltaOf (combined first later) log origin after to };

    // Data of a history are determined, and mention no identity that it has nothing of.
    ghost data_within: { (state : Self) (log : History Self.Op) (held : VersionVector) (gone : IdentitySet) → IsDataOf state log held gone → IsWithin state (without gone held) };

    ghost data_unmentioned: { (state : Self) (log : History Self.Op) (held : VersionVector) (gone : IdentitySet) (id : ℕ) → IsDataOf state log held gone → without gone held id ≡ 0 → mentioned state id ≡ false };

    ghost data_once: { (state other : Self) (log : History Self.Op) (held : VersionVector) (gone : IdentitySet) → kind_of state ≡ kind_of other → IsDataOf state log held gone → IsDataOf other log held gone → state ≡ other };

    // What any data mention, also those of no history: what was cleaned or pruned away is mentioned no more, and nothing
    // comes to be mentioned but what either side of a join mentions, and the origin of a record or a delta.
    ghost empty_mentions: { (kind : Self.Kind) (id : ℕ) → mentioned (empty_of kind) id ≡ false };

    ghost applied_mentions: { (state : Self) (op : Self.Op) (dot : Dot) (id : ℕ) → (id ≡ dot.origin → ⊥) → mentioned state id ≡ false → mentioned (applied state op dot) id ≡ false };

    ghost joined_mentions: { (state : Self) (mine : VersionVector) (other : Self) (theirs : VersionVector) (id : ℕ) → mentioned state id ≡ false → mentioned other id ≡ false → mentioned (joined state mine other theirs) id ≡ false };

    ghost absorbed_mentions: { (state : Self) (mine : VersionVector) (delta : Self.Delta) (origin id : ℕ) → IsOfOrigin delta origin → (id ≡ origin → ⊥) → mentioned state id ≡ false → mentioned (absorbed state mine delta) id ≡ false };

    ghost cleaned_mentions: { (state : Self) (removed id : ℕ) → mentioned state id ≡ false → mentioned (cleaned state removed) id ≡ false };

    ghost cleaned_unmentioned: { (state : Self) (removed : ℕ) → mentioned (cleaned state removed) removed ≡ false };

    ghost pruned_mentions: { (state : Self) (removed : ℕ) (dot : Dot) (id : ℕ) → (id ≡ dot.origin → ⊥) → mentioned state id ≡ false → mentioned (pruned state removed dot) id ≡ false };

    ghost pruned_unmentioned: { (state : Self) (removed : ℕ) (dot : Dot) → (removed ≡ dot.origin → ⊥) → mentioned (pruned state removed dot) removed ≡ false };

    // What is deleted, refused, blocked and shown is what the history says.
    ghost closed_means: { (state : Self) (log : History Self.Op) (held : VersionVector) (gone : IdentitySet) → IsPrunedCut log held gone → IsDataOf state log held gone → is_closed state ≡ data_type.deleted (cut log held) };

    ghost refusal_means: { (state : Self) (log : History Self.Op) (held : VersionVector) (gone : IdentitySet) (op : Self.Op) (origin : ℕ) → IsPrunedCut log held gone → IsDataOf state log held gone → gone origin ≡ false → (not (is_closed state) && data_type.fits (kind_of state) op) ≡ true
        → apply_refusal state op origin ≡ data_type.refusal (kind_of state) origin op (cut log held) };

    ghost blocked_means: { (state : Self) (log : History Self.Op) (held : VersionVector) (gone : IdentitySet) (owner removed : ℕ) → IsPrunedCut log held gone → IsDataOf state log held gone → gone owner ≡ false → gone removed ≡ false
        → prune_refusal state removed owner ≡ data_type.blocked (kind_of state) owner removed (cut log held) };

    ghost shown_means: { (state : Self) (log : History Self.Op) (held : VersionVector) (gone : IdentitySet) → IsPrunedCut log held gone → IsDataOf state log held gone → shown state ≡ data_type.shown (kind_of state) (cut log held) };
}
