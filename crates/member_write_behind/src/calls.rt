ghost use Rattle.std.specs.Prelude.{◌≡◌, Err, IfOk, OnErr, MatchResult};
ghost use Rattle.member_keeper.specs.declared.keeper.KeeperError.TheVariants as error;
ghost use Rattle.member_write_behind.specs.Gathering.{IsGathering};
ghost use Rattle.member_write_behind.specs.Runs.{outcome_of, Calls, RunsTo, RunsInPart};

use crate::write_behind::WriteBehind;
use base_bytes::{Items, Memory};
use member_keeper::{Keeper, KeeperError, Stored};

/// The entries of a store.
pub type StoredList = Items<Stored>;

/// A call of a keeper that writes behind.
#[derive(Drop)]
pub enum StoreCall {
    /// The entries are to be stored, one after the other.
    Store(StoredList),
    /// What is pending is to be handed on.
    Flush,
    /// All entries are to be forgotten.
    Clear,
}

/// What a call was answered.
#[derive(Clone, Copy, Debug, PartialEq, Eq)]
pub enum Answered {
    Ok,
    Failed,
}

/// The answers of calls, in their order.
pub type Answers = Items<Answered>;

impl<D: Keeper> WriteBehind<D> {
    /// Makes a call.
    fn call(&mut self, call: &StoreCall) -> Result<(), KeeperError>
        ensures calls { Calls D.Keeper.own self.old self.new call.now result }
        ensures sound { IsGathering self.new.period self.new.waiting self.new.pending }
    {
        match call {
            StoreCall::Store(entries) => self.store(entries.as_slice()),
            StoreCall::Flush => self.flush(),
            StoreCall::Clear => self.clear(),
        }
    }

    /// Makes a call, and tells what was answered.
    fn answer(&mut self, call: &StoreCall) -> Result<Answered, Memory>
        ensures ok { IfOk result (λ answer. Calls D.Keeper.own self.old self.new call.now (outcome_of answer)) }
        ensures err { OnErr result (Calls D.Keeper.own self.old self.new call.now (Err error.Memory)) }
        ensures sound { IsGathering self.new.period self.new.waiting self.new.pending }
    {
        match self.call(call) {
            Ok(()) => Ok(Answered::Ok),
            Err(KeeperError::Failed) => Ok(Answered::Failed),
            Err(KeeperError::Memory) => Err(Memory),
        }
    }

    /// Makes the calls in their order, from where nothing is pending.
    ///
    /// # Errors
    ///
    /// Memory was refused. The calls before the one that wanted it were made.
    pub fn run_stores(&mut self, calls: &[StoreCall]) -> Result<Answers, Memory>
        requires { self.old.waiting ≡ 0 }
        ensures ok { IfOk result (λ answers. RunsTo D.Keeper.own self.old self.new calls.now answers) }
        ensures err { OnErr result (RunsInPart D.Keeper.own self.old self.new calls.now) }
    {
        let mut answers = Vec::with_capacity(self.alloc, calls.len())?;
        for call in calls {
            let answer = self.answer(call)?;
            let _ = answers.push(answer);
        }
        Ok(Items::from_vec(answers))
    }
}
