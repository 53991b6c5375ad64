ghost use Rattle.std.specs.Prelude.{ℕ, List};
ghost use Rattle.model_members.specs.DataType.{Replication};
ghost use Rattle.model_members.specs.Node.{KeyDecl};
ghost use Rattle.model_members.specs.Script.{IsStep};
ghost use Rattle.theorem_runs.specs.Runs.{OfEveryScript};
ghost use Rattle.theorem_operations.specs.Finishing.{TwoRounds, IsUndisturbed, IsOver};
ghost use Rattle.theorem_operations.specs.Quorum.{WhileUnchanged, ShowsAtOnce, ShowsLater};
ghost use Rattle.theorem_operations.specs.Scripts.{GetsInclude};

/// While membership stays unchanged, a majority read includes every earlier majority write of its key whose success was
/// seen when the read began, whatever the caps: what the read tells is the meaning of a history that has the write's
/// record, the history that the reader then has. It is a value, or that the key is deleted, where that history has a delete.
/// - A read that isn't answered `Pending` is answered with such a meaning.
/// - A pending read that finishes at a later event finishes with one.
pub fn quorum_theorem<Kind, Operation, Shown>()
    ensures at_once { (D : Replication Kind Operation Shown) → WhileUnchanged D (ShowsAtOnce D) }
    ensures later { (D : Replication Kind Operation Shown) → WhileUnchanged D (ShowsLater D) }
{}

/// The same of a script, by what its lines tell: while membership stays unchanged, a majority get whose answer is told
/// includes every majority update of its key whose success was told before.
pub fn quorum_theorem_of_scripts<Kind, Operation, Shown>()
    ensures { (D : Replication Kind Operation Shown) → OfEveryScript IsStep (GetsInclude D) }
{}

/// An operation that is opened while all running members have the last view installed is finished after the second of
/// two later rounds, where from its opening until then nothing is lost, no store fails, no history is full, no member is
/// removed, joins or restarts, and no timeout closes it.
pub fn operations_finish<Kind, Operation, Shown>()
    ensures { (D : Replication Kind Operation Shown) (members : ℕ) (keys : List (KeyDecl Kind)) (t : TwoRounds Operation) (op : ℕ) → IsUndisturbed D members keys t op → IsOver D members keys t op }
{}
