ghost use Rattle.std.specs.Prelude.{◌≡◌, position};
ghost use Rattle.std.specs.Str.{bytes_eq};

use crate::held::HeldEntry;
use crate::recording::next_record;
use crate::reply::Reply;
use base_bytes::{Items, Memory, Text};
use base_vectors::{Id, VersionVector};
use data_deltalog::{DeltaLog, NextRecord};
use data_envelope::Envelope;
use data_lattice::{ApplyError, Replica};
use std::alloc::Global;

/// A declared key. What is held of a durable one is kept.
#[derive(Drop)]
pub struct KeyDecl<T: Replica> {
    pub key: Text,
    pub kind: T::Kind,
    pub durable: bool,
}

/// What a member holds of a key: its entry, its last own records, and for each peer the last own record that was flushed to
/// it.
#[derive(Drop)]
pub struct KeyState<T: Replica> {
    pub(crate) name: Text,
    pub(crate) kind: T::Kind,
    pub(crate) durable: bool,
    pub(crate) entry: HeldEntry<T>,
    pub(crate) log: DeltaLog<T>,
    pub(crate) flushed: VersionVector,
}

impl<T: Replica> KeyState<T> {
    ghost use Rattle.std.specs.Prelude.{◌<◌, ◌^◌, true, false, IfOk, IsTrue, map, All};
    ghost use Rattle.member_node.specs.Outputs.{is_pending};
    ghost use Rattle.member_node.specs.Answerable.{is_of_get, CanRefuse};
    ghost use Rattle.base_vectors.specs.Vectors.{number_at};
    ghost use Rattle.data_markers.specs.Marks.{performed_in};
    ghost use Rattle.data_envelope.specs.Words.{parts_of};
    ghost use Rattle.member_node.specs.Own.{IsLogged};
    ghost use Rattle.member_node.specs.Keys.{declared, declared_by};
    ghost use Rattle.member_node.specs.Fresh.{IsFresh};
    ghost use Rattle.member_node.specs.Showing.{MeansShown};
    ghost use Rattle.member_node.specs.Recording.{is_open_to};
    ghost use Rattle.member_node.specs.Updates.{IsOwn, MeansUpdate};

    /// A key without records.
    pub(crate) fn new(alloc: Global, id: Id, decl: &KeyDecl<T>) -> Result<KeyState<T>, Memory>
        ensures declared { IfOk result (λ state. declared_by state ≡ declared decl.now) }
        ensures fresh { IfOk result (IsFresh T.kind_of T.IsDataOf T.IsDeltaOf id) }
    {
        let name = decl.key.copied();
        let value = T::empty(alloc, &decl.kind)?;
        Ok(KeyState {
            name,
            kind: decl.kind,
            durable: decl.durable,
            entry: HeldEntry::new(alloc, Envelope::new(alloc, value)),
            log: DeltaLog::new(alloc, id, decl.kind),
            flushed: VersionVector::new(alloc),
        })
    }

    /// The keys without records, in their order.
    pub(crate) fn all_new(
        alloc: Global,
        id: Id,
        keys: &[KeyDecl<T>],
    ) -> Result<Vec<KeyState<T>>, Memory>
        ensures declared { IfOk result (λ states. map declared_by states.items ≡ map declared keys.now) }
        ensures fresh { IfOk result (λ states. All (IsFresh T.kind_of T.IsDataOf T.IsDeltaOf id) states.items) }
    {
        let mut states = Items::new(alloc);
        for decl in keys {
            states.push(KeyState::new(alloc, id, decl)?)?;
        }
        Ok(states.into_vec())
    }

    /// The key.
    pub fn name(&self) -> &Text
        ensures { result.now ≡ self.now.name }
    {
        &self.name
    }

    /// Whether what is held of the key is kept.
    pub fn durable(&self) -> bool
        ensures { result ≡ self.now.durable }
    {
        self.durable
    }

    /// What the member holds of the key.
    pub fn entry(&self) -> &Envelope<T>
        ensures { result.now ≡ self.now.entry }
    {
        self.entry.envelope()
    }

    /// Whether the operation is one of the key's kind, and the key is not deleted.
    pub(crate) fn fits(&self, op: &T::Op) -> bool
        ensures { result ≡ is_open_to T.Replica self.now.entry.value op.now }
    {
        self.entry.envelope().value().fits(op)
    }

    /// The member's own operation.
    pub(crate) fn update(&self, alloc: Global, id: Id, op: &T::Op) -> Result<Updated<T>, Memory>
        requires fits { is_open_to T.Replica self.now.entry.value op.now ≡ true }
        requires member { performed_in (parts_of self.now.entry).marks id ≡ false }
        requires room { number_at (parts_of self.now.entry).versions id < 2 ^ 62 }
        requires logged { IsLogged T.kind_of id self.now }
        ensures owned { IfOk result (IsOwn T.Replica id self.now) }
        ensures means { IfOk result (MeansUpdate T.Replica id op.now self.now) }
        ensures refuses { IfOk result CanRefuse }
    {
        let mut entry = self.entry.envelope().copy(alloc)?;
        match next_record(alloc, &mut entry, &self.log, op, id) {
            Ok(next) => Ok(Updated::Recorded { entry, next }),
            Err(ApplyError::Memory) => Err(Memory),
            Err(ApplyError::Overflow { share, amount }) => {
                Ok(Updated::Refused(Reply::Overflow { share, amount }))
            }
            Err(ApplyError::ClockSpent) => Ok(Updated::Refused(Reply::ClockSpent)),
            Err(ApplyError::SetFull) => Ok(Updated::Refused(Reply::SetFull)),
        }
    }

    /// The value as it is shown, or that the key is deleted, or that there is none.
    pub(crate) fn show(&self, alloc: Global) -> Result<Reply, Memory>
        ensures quiet { IfOk result (λ reply. is_pending reply ≡ false) }
        ensures image { IfOk result (MeansShown T.Replica self.now.entry) }
        ensures shows { IfOk result (λ reply. IsTrue (is_of_get reply)) }
    {
        let entry = self.entry.envelope();
        if !entry.has_records() {
            return Ok(Reply::NotFound);
        }
        if entry.closed() {
            return Ok(Reply::Deleted);
        }
        let shown = entry.show(alloc)?;
        Ok(Reply::Value(shown))
    }
}

/// What an own operation comes to.
#[derive(Drop)]
pub(crate) enum Updated<T: Replica> {
    /// A reply, and nothing changes.
    Refused(Reply),
    /// Another entry, and a record for the log.
    Recorded {
        entry: Envelope<T>,
        next: NextRecord<T::Delta>,
    },
}

/// Where a key stands.
pub(crate) fn index_of<T: Replica>(keys: &[KeyState<T>], key: &Text) -> Option<usize>
    ensures { result ≡ position (λ state. bytes_eq state.name key.now) keys.now }
{
    keys.iter()
        .position(|state| state.name.as_str() == key.as_str())
}
