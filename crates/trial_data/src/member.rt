ghost use Rattle.std.specs.Prelude.{◌≡◌, ◌<◌, ◌≤◌, ◌^◌, false, IsTrue};
ghost use Rattle.base_vectors.specs.Vectors.{number_at};
ghost use Rattle.data_markers.specs.Marks.{performed_in};

use base_vectors::{Id, VersionVector};
use data_deltalog::{DeltaLog, Grouped};
use data_envelope::{Envelope, Group, Init, Judgement, Perform};
use data_lattice::{ApplyError, Replica};
use data_meaning::Action;
use model_kinds::{Kind, Op};
use std::alloc::Global;
use std::test::Fail;
use trial_parts::Records;

/// No trial makes so many records of one identity.
const MOST_RECORDS: u64 = 1000;

/// A member's entry and its last own records, and beside them how many records it made, and of each identity it has taken.
#[derive(Drop)]
pub(crate) struct Member<T: Replica<Kind = Kind, Op = Op>> {
    pub(crate) id: Id,
    pub(crate) entry: Envelope<T>,
    pub(crate) taken: VersionVector,
    made: u64,
    log: DeltaLog<T>,
    ghost own: { log.origin ≡ id },
    ghost kind: { log.kind ≡ T.kind_of entry.value },
    ghost last: { log.last ≡ made },
    ghost few: { made ≤ 1000 },
}

impl<T: Replica<Kind = Kind, Op = Op>> Member<T> {
    ghost use Rattle.data_deltalog.specs.Contents.{IsDeltaFor};

    /// A member without a record.
    pub(crate) fn new(alloc: Global, kind: Kind, id: Id) -> Result<Member<T>, Fail> {
        Ok(Member {
            id,
            entry: Envelope::new(alloc, T::empty(alloc, &kind)?),
            taken: VersionVector::new(alloc),
            made: 0,
            log: DeltaLog::new(alloc, id, kind),
        })
    }

    /// How many records it made.
    pub(crate) fn made(&self) -> u64
        ensures { result ≤ 1000 }
    {
        self.made
    }

    /// Whether the member may make a record.
    fn has_room(&self) -> bool
        ensures member { IsTrue result → performed_in self.now.entry.markers self.now.id ≡ false }
        ensures room { IsTrue result → number_at self.now.entry.versions self.now.id < 2 ^ 62 }
        ensures few { IsTrue result → self.now.made < 1000 }
    {
        !self.entry.is_pruned(self.id)
            && self.entry.versions().at(self.id) < MOST_RECORDS
            && self.made < MOST_RECORDS
    }

    /// Takes what another member has.
    pub(crate) fn merge(&mut self, entry: &Envelope<T>, taken: &VersionVector) -> Result<(), Fail> {
        if !self.entry.value().same_kind(entry.value()) {
            return Err("two kinds".into());
        }
        self.entry.merge(entry)?;
        self.taken.join(taken)?;
        Ok(())
    }

    /// Takes what it has itself.
    pub(crate) fn merge_own(&mut self, alloc: Global) -> Result<(), Fail> {
        let entry = self.entry.copy(alloc)?;
        Ok(self.entry.merge(&entry)?)
    }

    /// Logs a record that the member made, and adds it to the records of all.
    fn note(
        &mut self,
        alloc: Global,
        records: &mut Records,
        action: Action,
        before: VersionVector,
        delta: Option<T::Delta>,
    ) -> Result<(), Fail>
        requires few { self.old.made < 1000 }
        requires fits { IsDeltaFor T.IsOfOrigin T.delta_fits_kind self.old.log.kind self.old.log.origin delta }
    {
        let number = self.made + 1;
        let next = self.log.prepare(alloc, &before, delta)?;
        self.log.add(next);
        self.made = number;
        records.add(self.id, &mut self.taken, action)
    }

    /// Makes a record of an operation, unless the key was deleted or the entry refuses it.
    pub(crate) fn update(
        &mut self,
        alloc: Global,
        op: Op,
        records: &mut Records,
    ) -> Result<(), Fail> {
        if self.entry.closed() {
            return Ok(());
        }
        if !self.entry.value().fits(&op) || !self.has_room() {
            return Err("unfit".into());
        }
        let before = self.entry.known(alloc)?;
        match self.entry.update(&op, self.id) {
            Ok(delta) => self.note(alloc, records, Action::Operation(op), before, Some(delta)),
            Err(ApplyError::Memory) => Err("memory".into()),
            Err(_) => Ok(()),
        }
    }

    /// Prunes an identity of which all members have the last record, in a view of these members, if there is anything to prune;
    /// and answers whether there was.
    pub(crate) fn prune(
        &mut self,
        alloc: Global,
        removed: Id,
        view: u32,
        members: &[Id],
        records: &mut Records,
    ) -> Result<bool, Fail> {
        if self.entry.init_prune(removed, self.id, view)? != Init::Marked {
            return Ok(false);
        }
        for member in members {
            self.entry.add_seen(*member, view);
        }
        if removed == self.id || !self.has_room() || self.entry.versions().at(removed) == 0 {
            return Err("unfit".into());
        }
        let before = self.entry.known(alloc)?;
        match self.entry.perform(removed, self.id, view, members)? {
            Perform::Performed => {
                self.note(alloc, records, Action::Prune(removed), before, None)?;
                Ok(true)
            }
            _ => Err("the prune was not performed".into()),
        }
    }

    /// The member's records after a number as one group, where its log gives them.
    pub(crate) fn group(&self, alloc: Global, after: u64) -> Result<Option<Group<T>>, Fail> {
        match self.log.group(alloc, after)? {
            Grouped::Group(group) => Ok(Some(group)),
            _ => Ok(None),
        }
    }

    /// Takes a group where it is wanted, and answers whether it was.
    pub(crate) fn take(&mut self, group: &Group<T>) -> Result<bool, Fail> {
        if self.entry.is_pruned(group.origin) || !self.entry.value().delta_fits(&group.delta) {
            return Err("unfit".into());
        }
        match self.entry.judge(group) {
            Judgement::Take => {
                self.entry.take(group)?;
                self.taken.raise(group.origin, group.upto)?;
                Ok(true)
            }
            _ => Ok(false),
        }
    }
}
