use crate::combining::combined;
use crate::grouped::Grouped;
use crate::recent::{Recent, Room};
use crate::vectors::{agree_but, needed, put};
use base_bytes::Memory;
use base_vectors::{Id, Seq, VersionVector};
use data_envelope::Group;
use data_lattice::Replica;
use std::alloc::Global;
use std::marker::Model;

/// An own record on its way into a log: the records that its origin had before it, unless the log has those of all others,
/// its delta, which a prune has not, and the room that it needs.
#[derive(Drop)]
pub struct NextRecord<D> {
    before: Option<VersionVector>,
    delta: Option<D>,
    room: Room<Option<D>>,
}

impl<D> NextRecord<D> {
    ghost use Rattle.std.specs.Prelude.{◌≡◌, Some};

    /// The same record with this delta, and the room that it brings, which takes no memory.
    pub fn with_delta(mut self, delta: D) -> NextRecord<D>
    where
        D: Drop,
        ensures made { result.delta ≡ Some delta }
        ensures before { result.before ≡ self.before }
        ensures room { result.room ≡ self.room }
    {
        self.delta = Some(delta);
        self
    }
}

/// The last 50 of a member's own records of one key. Contracts see its parts.
#[derive(Drop)]
pub struct DeltaLog<T: Replica> {
    origin: Id,
    kind: T::Kind,
    last: Seq,
    /// What the origin had of the others before the last record.
    before: VersionVector,
    records: Recent<Option<T::Delta>>,
}

impl<T: Replica> Model for DeltaLog<T> {
    ghost use Rattle.std.specs.Coded.{coded_ℕ, codes};
    ghost use Rattle.std.specs.FinMap as map;
    ghost use Rattle.std.specs.Ordering.{nat_cmp};
    ghost use Rattle.data_deltalog.specs.Contents.{LogParts, IsLog};

    ghost Value = { LogParts T.Kind T.Delta };

    ghost coded = { Prim.hlevel (codes, map.code {R = nat_cmp} coded_ℕ coded_ℕ) };

    ghost view = { λ log. record { origin = log.origin; kind = log.kind; last = log.last; before = log.before; records = log.records } };

    ghost invariant = { λ log. IsLog T.IsOfOrigin T.delta_fits_kind (record { origin = log.origin; kind = log.kind; last = log.last; before = log.before; records = log.records }) };
}

impl<T: Replica> DeltaLog<T> {
    ghost use Rattle.std.specs.Prelude.{◌≡◌, ◌<◌, ◌≤◌, ◌^◌, [], true, Some, IfOk};
    ghost use Rattle.std.specs.FinMap as map;
    ghost use Rattle.model_history.specs.History.{History, IsHistory, at};
    ghost use Rattle.model_history.specs.Log.{IsTakenFrom};
    ghost use Rattle.model_members.specs.Entry.{Entry};
    ghost use Rattle.base_vectors.specs.Vectors.{number_at};
    ghost use Rattle.data_envelope.specs.Words.{group_parts};
    ghost use Rattle.data_deltalog.specs.Contents.{appended, answer_by, IsMadeOf, IsDeltaFor};
    ghost use Rattle.data_deltalog.specs.Answers.{answer_for};
    ghost use Rattle.data_deltalog.specs.Words.{answer_in, IfGroup, HasRoom, IsAfter, all_appended, AreNext};
    ghost use Rattle.data_deltalog.specs.Images.{StandsForLog};
    ghost use Rattle.data_deltalog.specs.Calls.{AddsOperation, AddsPrune, GivesGroup, GoesAsFlushed};

    /// A log without records of an origin, for a key of this kind. Its last number is 0.
    pub fn new(alloc: Global, origin: Id, kind: T::Kind) -> DeltaLog<T>
        ensures value { result ≡ record { origin = origin; kind = kind; last = 0; before = map.empty; records = [] } }
        ensures image { (log : History T.Op) (entry : Entry T.Op) → IsHistory log → IsTakenFrom log entry.history → at entry.history origin ≡ 0 → StandsForLog T.IsDeltaOf result log entry }
    {
        DeltaLog {
            origin,
            kind,
            last: 0,
            before: VersionVector::new(alloc),
            records: Recent::new(alloc),
        }
    }

    /// The origin's next record: the records that the member had before it, and its delta, or nothing for a prune. They are copied
    /// only where the log has other numbers of the others, so no other record may come between.
    pub fn prepare(
        &self,
        alloc: Global,
        known: &VersionVector,
        delta: Option<T::Delta>,
    ) -> Result<NextRecord<T::Delta>, Memory>
        ensures before { IfOk result (IsAfter self.now (number_at known.now)) }
        ensures delta { IfOk result (λ next. next.delta ≡ delta) }
        ensures room { IfOk result (HasRoom self.now) }
    {
        let room = self.records.room()?;
        let before = if agree_but(&self.before, known, self.origin) {
            None
        } else {
            Some(known.copy(alloc)?)
        };
        Ok(NextRecord {
            before,
            delta,
            room,
        })
    }

    /// As `prepare`, for a record that may follow others which were prepared from the log as it is: it brings what the member had
    /// before it.
    pub fn prepare_after(
        &self,
        before: VersionVector,
        delta: Option<T::Delta>,
    ) -> Result<NextRecord<T::Delta>, Memory>
        ensures before { IfOk result (λ next. next.before ≡ Some before) }
        ensures delta { IfOk result (λ next. next.delta ≡ delta) }
        ensures room { IfOk result (HasRoom self.now) }
    {
        let room = self.records.room()?;
        Ok(NextRecord {
            before: Some(before),
            delta,
            room,
        })
    }

    /// Adds the origin's next record, which takes no memory. The oldest goes where more than 50 would be kept.
    pub fn add(&mut self, next: NextRecord<T::Delta>)
        requires small { self.old.last < 2 ^ 62 }
        requires fits { IsDeltaFor T.IsOfOrigin T.delta_fits_kind self.old.kind self.old.origin next.delta }
        requires room { HasRoom self.old next }
        ensures value { self.new ≡ appended self.old next.before next.delta }
        ensures operation { AddsOperation T.IsDeltaOf self.old self.new next }
        ensures prune { AddsPrune T.IsDeltaOf self.old self.new next }
    {
        self.records.push(next.delta, next.room);
        put(&mut self.before, next.before);
        self.last += 1;
    }

    /// Adds records that were prepared from the log as it is, in their order, which takes no memory.
    pub fn add_all(&mut self, records: Vec<NextRecord<T::Delta>>)
        requires { AreNext T.IsOfOrigin T.delta_fits_kind self.old records.items }
        ensures { self.new ≡ all_appended self.old records.items }
    {
        for next in records {
            self.add(next);
        }
    }

    /// The records after a number, up to the last, as one group.
    pub fn group(&self, alloc: Global, after: Seq) -> Result<Grouped<T>, Memory>
        ensures answer { IfOk result (λ grouped. answer_in grouped ≡ answer_by self.now after) }
        ensures group { IfOk result (λ grouped. IfGroup grouped (λ made. IsMadeOf T.combined self.now after (group_parts made))) }
        ensures fits { IfOk result (λ grouped. IfGroup grouped (λ made. T.delta_fits_kind self.now.kind made.delta ≡ true)) }
        ensures origin { IfOk result (λ grouped. IfGroup grouped (λ made. T.IsOfOrigin made.delta made.origin)) }
        ensures means { (log : History T.Op) (entry : Entry T.Op) → StandsForLog T.IsDeltaOf self.now log entry
            → IfOk result (λ grouped. answer_in grouped ≡ answer_for entry self.now.origin after) }
        ensures image { GivesGroup T.Replica self.now after result }
        ensures flush { GoesAsFlushed T.Replica self.now after result }
    {
        if after >= self.last {
            return Ok(Grouped::Nothing);
        }
        let wanted = self.last - after;
        let kept = self.records.len();
        if wanted > kept as u64 {
            return Ok(Grouped::TooOld);
        }
        let first = kept - wanted as usize;
        match combined::<T>(alloc, &self.records, first)? {
            None => Ok(Grouped::NoDelta),
            Some(delta) => Ok(Grouped::Group(Group {
                origin: self.origin,
                after,
                upto: self.last,
                needs: needed(alloc, &self.before, self.origin, after)?,
                delta,
            })),
        }
    }
}
