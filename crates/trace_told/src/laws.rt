ghost use Rattle.model_history.specs.Texts.{Text};
ghost use Rattle.model_members.specs.DataType.{Replication};
ghost use Rattle.theorem_traces.specs.Traced.{OfEveryTraced};
ghost use Rattle.trace_told.specs.Told.{TellsTrace};

/// Who sees of each step the records that it made, what each running member then holds of each key, and what a get showed, and tells
/// of it what is news, tells the trace of the run.
pub fn what_is_told_is_the_trace<Kind, Operation, Shown>()
    ensures { (D : Replication Kind Operation Shown) (value_text : Shown → Text) → OfEveryTraced (TellsTrace D value_text) }
{}
