ghost use Rattle.std.specs.Prelude.{◌≡◌, map};
ghost use Rattle.std.specs.List.{list_any};
ghost use Rattle.model_kinds.specs.SixKinds.{enables};
ghost use Rattle.model_meanings.specs.Growing.{is_operation};
ghost use Rattle.data_meaning.specs.Records.{action_of};

use crate::record::{Action, Record};
use model_kinds::Op;

/// Whether a record switches a flag on.
fn enables(action: &Action) -> bool
    ensures { result ≡ is_operation enables (action_of action.now) }
{
    match action {
        Action::Operation(Op::Enable) => true,
        _ => false,
    }
}

/// Whether some record switches on.
pub(crate) fn is_on(records: &[Record]) -> bool
    ensures { result ≡ list_any (λ r. is_operation enables (action_of r.action)) records.now }
{
    records.iter().any(|record| enables(&record.action))
}
