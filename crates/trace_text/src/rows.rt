ghost use Rattle.trace_text.specs.Worked.{Counted, OwnerDeparts, DeletedKey, AnotherSystem};

/// The texts of worked traces.
pub fn worked_texts()
    ensures counted { Counted }
    ensures owner_departs { OwnerDeparts }
    ensures deleted_key { DeletedKey }
    ensures another_system { AnotherSystem }
{}
