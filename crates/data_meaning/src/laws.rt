ghost use Rattle.std.specs.Prelude.{List};
ghost use Rattle.model_history.specs.History.{History, IsHistory};
ghost use Rattle.data_meaning.specs.Records.{AreRecordsOf};

use crate::record::Record;
use model_kinds::Op;

/// Every history is spelled by a list of records.
pub fn histories_are_lists()
    ensures { (H : History Op) → IsHistory H → (records : List Record) × AreRecordsOf records H }
{}
