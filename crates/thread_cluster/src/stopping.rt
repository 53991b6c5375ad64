ghost use Rattle.std.specs.Prelude.{◌≡◌};
ghost use Rattle.thread_cluster.specs.Refusals.{stopped};

use crate::error::CallError;
use member_node::StepError;
use thread_cell::cell::CellError;

/// What is answered where a member made no step.
pub(crate) fn stopped(error: CellError<StepError>) -> CallError
    ensures { result ≡ stopped error }
{
    match error {
        CellError::CellFull => CallError::HistoryFull,
        CellError::Refused(StepError::HistoryFull) => CallError::HistoryFull,
        CellError::Refused(StepError::Memory) => CallError::Memory,
        CellError::Memory => CallError::Memory,
    }
}
