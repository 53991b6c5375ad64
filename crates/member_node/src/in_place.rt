ghost use Rattle.std.specs.Prelude.{◌≡◌, ◌<◌, ◌^◌, true, false, None, IfOk, IfSome, OnErr};
ghost use Rattle.base_vectors.specs.Vectors.{number_at};
ghost use Rattle.data_markers.specs.Marks.{performed_in};
ghost use Rattle.data_envelope.specs.Words.{parts_of};
ghost use Rattle.member_node.specs.declared.input.Input.TheVariants as input;
ghost use Rattle.member_node.specs.declared.reply.Fate.TheVariants as fate;
ghost use Rattle.member_node.specs.Own.{IsLogged};
ghost use Rattle.member_node.specs.Recording.{is_open_to};
ghost use Rattle.member_node.specs.Steps.{IsStepOf, IsUnchanged};
ghost use Rattle.member_node.specs.Updates.{reply_of, IsApplied};
ghost use Rattle.member_node.specs.InPlace.{IsInPlace, output_of};
ghost use Rattle.member_node.specs.Answerable.{CanReply};

use crate::input::Input;
use crate::key::KeyState;
use crate::node::Node;
use crate::recording::next_record;
use crate::reply::{Output, Reply};
use base_bytes::{Memory, Text};
use base_vectors::Id;
use data_lattice::{ApplyError, Replica, SpelledData};
use member_keeper::Keeper;
use member_quorum::{Level, needed};
use std::alloc::Global;

/// What became of an own operation at its key. But for a record nothing changed.
#[derive(Clone, Copy)]
pub(crate) enum Applied {
    /// It is the next record of the entry and of the log.
    Recorded,
    /// The own share of a counter and the amount add to more than `2^63 - 1`.
    Overflow { share: u64, amount: u64 },
    /// The timestamp of the register is `2^63 - 1` already.
    ClockSpent,
    /// The set shows 256 elements or more, and the added one is none of them.
    SetFull,
}

impl Applied {
    /// What is replied.
    fn reply(self) -> Reply
        ensures { result ≡ reply_of self }
    {
        match self {
            Applied::Recorded => Reply::Done,
            Applied::Overflow { share, amount } => Reply::Overflow { share, amount },
            Applied::ClockSpent => Reply::ClockSpent,
            Applied::SetFull => Reply::SetFull,
        }
    }

    /// The reply alone, which takes no memory.
    pub(crate) fn output<T: Replica>(self, alloc: Global) -> Output<T>
        ensures { result ≡ output_of self }
    {
        Output::told(alloc, self.reply())
    }
}

impl<T: Replica> KeyState<T> {
    /// Makes the member's own operation, in the entry and in the log.
    pub(crate) fn apply(&mut self, alloc: Global, id: Id, op: &T::Op) -> Result<Applied, Memory>
        requires fits { is_open_to T.Replica self.old.entry.value op.now ≡ true }
        requires member { performed_in (parts_of self.old.entry).marks id ≡ false }
        requires room { number_at (parts_of self.old.entry).versions id < 2 ^ 62 }
        requires logged { IsLogged T.kind_of id self.old }
        ensures applied { IfOk result (λ became. IsApplied T.Replica id op.now self.old became self.new) }
        ensures err { OnErr result (self.new ≡ self.old) }
    {
        match next_record(alloc, self.entry.change(), &self.log, op, id) {
            Ok(next) => {
                self.log.add(next);
                Ok(Applied::Recorded)
            }
            Err(ApplyError::Memory) => Err(Memory),
            Err(ApplyError::Overflow { share, amount }) => Ok(Applied::Overflow { share, amount }),
            Err(ApplyError::ClockSpent) => Ok(Applied::ClockSpent),
            Err(ApplyError::SetFull) => Ok(Applied::SetFull),
        }
    }
}

impl<T: SpelledData, K: Keeper + Drop> Node<T, K> {
    /// Where the key of an update stands, if its entry may change in its place: the key is not deleted, the operation is
    /// one of its kind, nothing has to be stored, and no other member is asked.
    fn in_place(&self, key: &Text, op: &T::Op, level: Level) -> Option<usize>
        ensures { IfSome result (IsInPlace self.now key.now op.now level) }
    {
        let members = self.view.members();
        let Some(index) = self.position(key) else {
            return None;
        };
        let state = &self.keys[index];
        if state.durable || state.entry().closed() || !state.fits(op) {
            return None;
        }
        match needed(level, members.len()) {
            Ok(number) if number <= 1 => Some(index),
            _ => None,
        }
    }

    /// Makes a step for an update that changes the entry in its place, and tells what became of it. Any other input makes no
    /// step.
    ///
    /// # Errors
    ///
    /// Memory was refused. The member is then as before.
    pub(crate) fn update_in_place(&mut self, input: &Input<T>) -> Result<Option<Applied>, Memory>
        requires { self.old.steps < self.old.limit }
        ensures step { IfOk result (λ told. IfSome told (λ became. IsStepOf T.SpelledData.own self.old input.now fate.NoStore (output_of became) self.new)) }
        ensures reply { IfOk result (λ told. IfSome told (λ became. CanReply input.now (reply_of became))) }
        ensures otherwise { IfOk result (λ told. told ≡ None → self.new ≡ self.old) }
        ensures err { OnErr result (IsUnchanged self.old self.new) }
    {
        let Input::Update { key, op, level } = input else {
            return Ok(None);
        };
        let Some(index) = self.in_place(key, op, *level) else {
            return Ok(None);
        };
        let alloc = self.alloc;
        let id = self.id;
        match self.keys[index].apply(alloc, id, op) {
            Ok(became) => {
                self.steps += 1;
                Ok(Some(became))
            }
            Err(refused) => Err(refused),
        }
    }
}
