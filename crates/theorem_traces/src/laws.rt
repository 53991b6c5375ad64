ghost use Rattle.model_history.specs.Texts.{Text};
ghost use Rattle.model_members.specs.DataType.{Replication};
ghost use Rattle.theorem_traces.specs.Traced.{OfEveryTraced};
ghost use Rattle.theorem_traces.specs.Telling.{HasLawfulTrace, TellsRun};

/// The trace of every run is lawful, whatever the script's steps but settles, and whatever the keepers answer.
pub fn traces_of_runs_are_lawful<Kind, Operation, Shown>()
    ensures { (D : Replication Kind Operation Shown) (value_text : Shown → Text) → OfEveryTraced (HasLawfulTrace D value_text) }
{}

/// The trace of a run tells all records that were made, and what each member holds that runs at its end.
pub fn traces_tell_runs<Kind, Operation, Shown>()
    ensures { (D : Replication Kind Operation Shown) (value_text : Shown → Text) → OfEveryTraced (TellsRun D value_text) }
{}
