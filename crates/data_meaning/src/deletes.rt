ghost use Rattle.std.specs.Prelude.{◌≡◌};
ghost use Rattle.std.specs.List.{list_any};
ghost use Rattle.model_kinds.specs.SixKinds.{is_delete};
ghost use Rattle.model_meanings.specs.Growing.{is_operation};
ghost use Rattle.data_meaning.specs.Records.{action_of};

use crate::record::{Action, Record};
use model_kinds::Op;

/// Whether a record deletes the key.
fn deletes(action: &Action) -> bool
    ensures { result ≡ is_operation is_delete (action_of action.now) }
{
    match action {
        Action::Operation(Op::Delete) => true,
        _ => false,
    }
}

/// Whether some record deletes the key.
pub(crate) fn is_deleted(records: &[Record]) -> bool
    ensures { result ≡ list_any (λ r. is_operation is_delete (action_of r.action)) records.now }
{
    records.iter().any(|record| deletes(&record.action))
}
