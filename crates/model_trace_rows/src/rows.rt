ghost use Rattle.model_trace_rows.specs.Rows.{ATrace, BrokenTraces, OwnerDeparts, FailingStores, DeletedKey, FirstRule, OfDeletedKeys, SecondRule, ThirdRule, FourthRule, LastIdentity, LostUpdate, DoubledIncrement, AnotherSystem};

/// What runs of worked scripts leave as traces, and which rule worked traces break.
pub fn worked_traces()
    ensures a_trace { ATrace }
    ensures broken_traces { BrokenTraces }
    ensures owner_departs { OwnerDeparts }
    ensures failing_stores { FailingStores }
    ensures deleted_key { DeletedKey }
    ensures first_rule { FirstRule }
    ensures of_deleted_keys { OfDeletedKeys }
    ensures second_rule { SecondRule }
    ensures third_rule { ThirdRule }
    ensures fourth_rule { FourthRule }
    ensures last_identity { LastIdentity }
    ensures lost_update { LostUpdate }
    ensures doubled_increment { DoubledIncrement }
    ensures another_system { AnotherSystem }
{}
