ghost use Rattle.std.specs.Prelude.{◌≡◌, IfOk};
ghost use Rattle.model_history.specs.Texts.{Text};
ghost use Rattle.model_history.specs.History.{History};
ghost use Rattle.model_members.specs.Node.{Node as Member};
ghost use Rattle.model_kinds.specs.declared.shown.Shown.{Shown};
ghost use Rattle.member_node.specs.declared.input.Input.TheVariants as input;
ghost use Rattle.member_node.specs.Members.{StandsForNode};
ghost use Rattle.member_node.specs.Counting.{LooksAt};
ghost use Rattle.member_node.specs.Ended.{forgotten_to};
ghost use Rattle.member_node.specs.Forgetting.{IsOtherwiseAlike, StandsForgetting};
ghost use Rattle.member_node.specs.Preparing.{IsSoundFor, Prepares};
ghost use Rattle.member_node.specs.Answerable.{RepliesTo};

use crate::node::Node;
use crate::operation::{Look, Operation};
use crate::operations::OperationChange;
use crate::plan::{Plan, Prepared};
use crate::reply::{Output, Reply};
use base_bytes::Memory;
use data_lattice::SpelledData;
use member_keeper::Keeper;

impl<T: SpelledData, K: Keeper + Drop> Node<T, K> {
    /// Closes an open operation, without a result.
    pub(crate) fn timed_out(&self, op: u64) -> Prepared<T>
        ensures sound { IsSoundFor self.now result }
        ensures image { Prepares T.SpelledData.own self.now (input.Timeout op) result }
        ensures replies { RepliesTo (input.Timeout op) result }
    {
        match self.operations.asked(op) {
            Some(_) => Prepared {
                view: None,
                plan: Plan::Nothing,
                operations: OperationChange::Put {
                    op: op as usize,
                    operation: Operation::TimedOut,
                },
                output: Output::told(self.alloc, Reply::TimedOut),
            },
            None => Prepared::reply(self.alloc, Reply::NoSuchOp),
        }
    }

    /// How the operation of a number stands.
    ///
    /// # Errors
    ///
    /// Memory was refused.
    pub fn look(&self, op: u64) -> Result<Look, Memory>
        ensures { (kinds : Text → T.Kind) (logs : Text → History T.Op) (node : Member T.Kind T.Op Shown) → StandsForNode T.kind_of T.IsDataOf kinds logs self.now node → IfOk result (LooksAt node op) }
    {
        match self.operations.at(op) {
            None => Ok(Look::NoSuchOp),
            Some(Operation::Open(_)) => Ok(Look::Open),
            Some(Operation::Finished(result)) => Ok(Look::Finished(result.copy(self.alloc)?)),
            Some(Operation::TimedOut) => Ok(Look::NoSuchOp),
        }
    }

    /// Forgets how the operations of the numbers below this one ended, up to the first that is still open: `look` then tells
    /// that there is none of them. It makes no step and takes no memory, and what was kept of them is free again.
    pub fn forget(&mut self, before: u64)
        ensures same { IsOtherwiseAlike self.old self.new }
        ensures forgotten { self.new.operations.forgotten ≡ forgotten_to self.old.operations before }
        ensures stands { StandsForgetting self.old self.new }
    {
        self.operations.forget(before);
    }
}
