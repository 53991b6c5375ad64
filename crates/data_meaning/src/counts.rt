ghost use Rattle.std.specs.Prelude.{◌≡◌, sum_by};
ghost use Rattle.model_kinds.specs.SixKinds.{increment, decrement};
ghost use Rattle.model_meanings.specs.Counter.{amount_of};
ghost use Rattle.data_meaning.specs.Records.{action_of};

use crate::record::{Action, Record};
use model_kinds::Op;

/// What a record adds to a counter.
fn increment(action: &Action) -> u64
    ensures { result ≡ amount_of increment (action_of action.now) }
{
    match action {
        Action::Operation(Op::Increment(amount)) => *amount,
        _ => 0,
    }
}

/// What a record takes from a counter.
fn decrement(action: &Action) -> u64
    ensures { result ≡ amount_of decrement (action_of action.now) }
{
    match action {
        Action::Operation(Op::Decrement(amount)) => *amount,
        _ => 0,
    }
}

/// The sum of what the records add.
pub(crate) fn increments(records: &[Record]) -> u128
    ensures { result ≡ sum_by (λ r. amount_of increment (action_of r.action)) records.now }
{
    records
        .iter()
        .map(|record| u128::from(increment(&record.action)))
        .sum()
}

/// The sum of what the records take.
pub(crate) fn decrements(records: &[Record]) -> u128
    ensures { result ≡ sum_by (λ r. amount_of decrement (action_of r.action)) records.now }
{
    records
        .iter()
        .map(|record| u128::from(decrement(&record.action)))
        .sum()
}
