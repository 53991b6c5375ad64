ghost use Rattle.std.specs.Prelude.{◌≡◌, IfOk};

use crate::shown::copy_shown;
use base_bytes::{Memory, Text};
use member_quorum::Tally;
use model_kinds::Shown;
use std::alloc::Global;

/// How an operation ended that had as many answers as it needed.
#[derive(Drop)]
pub enum OperationResult {
    /// The write was acknowledged.
    Wrote,
    /// What the key shows after the answers were merged.
    Read(Shown),
    /// The key is deleted, once the answers were merged.
    ReadDeleted,
    /// The key has no record after the answers were merged.
    ReadNothing,
}

impl OperationResult {
    /// An equal result.
    pub fn copy(&self, alloc: Global) -> Result<OperationResult, Memory>
        ensures { IfOk result (λ copy. copy ≡ self.now) }
    {
        match self {
            OperationResult::Wrote => Ok(OperationResult::Wrote),
            OperationResult::Read(shown) => Ok(OperationResult::Read(copy_shown(alloc, shown)?)),
            OperationResult::ReadDeleted => Ok(OperationResult::ReadDeleted),
            OperationResult::ReadNothing => Ok(OperationResult::ReadNothing),
        }
    }
}

/// An operation that ended, by its number.
#[derive(Drop)]
pub struct Finished {
    pub op: u64,
    pub result: OperationResult,
}

impl Finished {
    /// The same number, and an equal result.
    pub fn copy(&self, alloc: Global) -> Result<Finished, Memory>
        ensures { IfOk result (λ copy. copy ≡ self.now) }
    {
        let result = self.result.copy(alloc)?;
        Ok(Finished {
            op: self.op,
            result,
        })
    }
}

/// An equal end of an operation, if there is one.
pub(crate) fn copy_finished(
    alloc: Global,
    finished: &Option<Finished>,
) -> Result<Option<Finished>, Memory>
    ensures { IfOk result (λ copy. copy ≡ finished.now) }
{
    match finished {
        Some(finished) => Ok(Some(finished.copy(alloc)?)),
        None => Ok(None),
    }
}

/// How an operation of a member stands.
#[derive(Drop)]
pub enum Look {
    /// More members have to answer.
    Open,
    /// It has ended.
    Finished(OperationResult),
    /// There was none of this number, it was closed without a result, or how it ended was forgotten.
    NoSuchOp,
}

/// What a member asks the others of a key, and who has answered.
#[derive(Drop)]
pub(crate) struct Asked {
    pub(crate) key: Text,
    /// Whether it reads, and else it writes.
    pub(crate) reads: bool,
    pub(crate) tally: Tally,
}

/// An operation that a member has opened.
#[derive(Drop)]
pub(crate) enum Operation {
    /// Answers are counted.
    Open(Asked),
    /// It had as many answers as it needed.
    Finished(OperationResult),
    /// It was closed without a result.
    TimedOut,
}

impl Operation {
    ghost use Rattle.std.specs.Prelude.{Some, is_some};
    ghost use Rattle.member_node.specs.Counting.{open_as};

    /// Whether answers are still counted.
    pub(crate) fn is_open(&self) -> bool
        ensures { result ≡ is_some (open_as (Some self.now)) }
    {
        match self {
            Operation::Open(_) => true,
            Operation::Finished(_) => false,
            Operation::TimedOut => false,
        }
    }
}
