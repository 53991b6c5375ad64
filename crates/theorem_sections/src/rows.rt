ghost use Rattle.theorem_sections.specs.Rows.{OneClient, OtherCommands, TimedOutWrite, NackHeard, MajorityGet, Racing, TwoWriters};

/// What the model makes of worked scripts with client threads.
pub fn worked_sections()
    ensures one_client { OneClient }
    ensures other_commands { OtherCommands }
    ensures timed_out_write { TimedOutWrite }
    ensures nack_heard { NackHeard }
    ensures majority_get { MajorityGet }
    ensures racing { Racing }
    ensures two_writers { TwoWriters }
{}
