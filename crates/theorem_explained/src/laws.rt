ghost use Rattle.model_members.specs.DataType.{Replication};
ghost use Rattle.theorem_explained.specs.Explained.{GetsTellInTheirStep, RunsGoOn};

/// The event that explains what a majority get is told is one of the step whose line that is.
pub fn gets_are_explained_by_their_own_step<Kinds, Operation, Value>()
    ensures { (D : Replication Kinds Operation Value) → GetsTellInTheirStep D }
{}

/// The run goes on from the settle that is told of: the lines behind it and the run's end come from the world that it leaves.
pub fn runs_go_on_from_their_settles()
    ensures { RunsGoOn }
{}
