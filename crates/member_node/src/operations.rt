ghost use Rattle.std.specs.Prelude.{◌≡◌, min};
ghost use Rattle.member_node.specs.Ended.{ended_first};

use crate::operation::{Asked, Operation};
use crate::reply::Fate;
use base_bytes::Memory;
use std::alloc::Global;

/// An operation on its way to the others, with the room that it needs.
#[derive(Drop)]
pub(crate) struct NextOperation {
    asked: Asked,
    /// Room for all that are kept and this one, where those have none.
    spare: Option<Vec<Operation>>,
}

/// What a step makes of a member's operations.
#[derive(Drop)]
pub(crate) enum OperationChange {
    /// They stay as they are.
    Same,
    /// One more is open.
    Opened(NextOperation),
    /// The one of this number stands so.
    Put { op: usize, operation: Operation },
}

impl OperationChange {
    ghost use Rattle.std.specs.Prelude.{◌≡◌};
    ghost use Rattle.member_node.specs.Operations.{after_store};

    /// What it is once the store had this fate: after a failed one no operation is opened.
    pub(crate) fn after(self, fate: Fate) -> OperationChange
        ensures { result ≡ after_store fate self }
    {
        match (fate, self) {
            (Fate::StoreFailed, OperationChange::Opened(_)) => OperationChange::Same,
            (_, change) => change,
        }
    }
}

/// All operations that a member has opened, each by its number; how the first ones ended may be forgotten.
#[derive(Drop)]
pub struct Operations {
    /// How many were forgotten: those of the numbers below.
    forgotten: usize,
    /// The others, in the order of their numbers.
    kept: Vec<Operation>,
}

/// How many have ended before the first that is open, and no more than so many.
fn ended_within(operations: &[Operation], most: usize) -> usize
    ensures { result ≡ min most (ended_first operations.now) }
{
    let mut ended = 0;
    for operation in operations {
        if ended >= most {
            return ended;
        }
        if operation.is_open() {
            return ended;
        }
        ended += 1;
    }
    ended
}

impl Operations {
    ghost use Rattle.std.specs.Prelude.{◌≡◌, ◌<◌, ◌≤◌, [], ◌∷◌, ◌++◌, length, slice_set, vec_len, vec_capacity, IfOk};
    ghost use Rattle.std.specs.Option.{option_copied};
    ghost use Rattle.member_node.specs.Operations.{known, kept_at, AreNumbered, HasRoom, CanChange, changed_operations};
    ghost use Rattle.member_node.specs.Ended.{forgotten_to, forgetting_to};

    /// No operation.
    pub(crate) fn new(alloc: Global) -> Operations
        ensures { known result ≡ [] }
    {
        Operations {
            forgotten: 0,
            kept: Vec::new(alloc),
        }
    }

    /// How many there were, which is the number of the next.
    pub(crate) fn len(&self) -> usize
        requires { AreNumbered self.now }
        ensures { result ≡ length (known self.now) }
    {
        self.forgotten + self.kept.len()
    }

    /// The operation of a number, if it was opened and not forgotten.
    pub(crate) fn at(&self, op: u64) -> Option<&Operation>
        ensures { option_copied result ≡ kept_at self.now op }
    {
        let op = op as usize;
        if op < self.forgotten {
            return None;
        }
        self.kept.get(op - self.forgotten)
    }

    /// The next operation, with the room that it needs: none, unless the kept ones are full.
    pub(crate) fn prepare(&self, alloc: Global, asked: Asked) -> Result<NextOperation, Memory>
        ensures asked { IfOk result (λ next. next.asked ≡ asked) }
        ensures room { IfOk result (HasRoom self.now) }
    {
        let len = self.kept.len();
        if len < self.kept.capacity() {
            return Ok(NextOperation { asked, spare: None });
        }
        let spare = Vec::with_capacity(alloc, len + len.max(8))?;
        Ok(NextOperation {
            asked,
            spare: Some(spare),
        })
    }

    /// Makes room for the next operation, if there is none, by the spare vector that it brings.
    fn make_room(&mut self, next: NextOperation) -> Asked
        requires { HasRoom self.old next }
        ensures asked { result ≡ next.asked }
        ensures same { known self.new ≡ known self.old }
        ensures room { vec_len self.new.kept < vec_capacity self.new.kept }
    {
        let NextOperation { asked, spare } = next;
        if self.kept.len() < self.kept.capacity() {
            return asked;
        }
        if let Some(spare) = spare {
            let mut roomy = spare;
            roomy.append(&mut self.kept).unwrap();
            self.kept = roomy;
        }
        asked
    }

    /// Opens an operation, for which the kept ones or the spare vector have a place.
    fn open(&mut self, next: NextOperation)
        requires { HasRoom self.old next }
        ensures { known self.new ≡ known self.old ++ Operation.Open next.asked ∷ [] }
    {
        let asked = self.make_room(next);
        self.kept.push(Operation::Open(asked)).unwrap();
    }

    /// Puts an operation in place of the one of a number.
    fn put(&mut self, op: usize, operation: Operation)
        requires kept { self.old.forgotten ≤ op }
        requires known { op < length (known self.old) }
        ensures { known self.new ≡ slice_set (known self.old) op operation }
    {
        let place = op - self.forgotten;
        self.kept[place] = operation;
    }

    /// Makes the change, which takes no memory.
    pub(crate) fn change(&mut self, change: OperationChange)
        requires { CanChange self.old change }
        ensures { known self.new ≡ changed_operations (known self.old) change }
    {
        match change {
            OperationChange::Same => {}
            OperationChange::Opened(next) => self.open(next),
            OperationChange::Put { op, operation } => self.put(op, operation),
        }
    }

    /// Forgets how those of the numbers below this one ended, up to the first that is open. It takes no memory.
    pub(crate) fn forget(&mut self, before: u64)
        requires { AreNumbered self.old }
        ensures forgotten { self.new.forgotten ≡ forgotten_to self.old before }
        ensures known { known self.new ≡ forgetting_to self.new.forgotten (known self.old) }
    {
        let most = (before as usize).saturating_sub(self.forgotten);
        let ended = ended_within(&self.kept, most);
        self.kept.rotate_left(ended);
        let left = self.kept.len() - ended;
        self.kept.truncate(left);
        self.forgotten += ended;
    }
}
