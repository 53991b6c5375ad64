ghost use Rattle.std.specs.Prelude.{◌≡◌};
ghost use Rattle.model_members.specs.DataType.{Replication};
ghost use Rattle.model_members.specs.Script.{Playing, Head, IsStep, told, settle};
ghost use Rattle.theorem_runs.specs.Runs.{AfterEveryRun, OfEveryScript};
ghost use Rattle.theorem_settling.specs.Scripts.{SettlesAgreeWhereTold};
ghost use Rattle.theorem_settling.specs.Settling.{HasBlocked, WhereDone, SendsFew, SettlesWhereTold, swept_last, settle_answer};

/// A settle of a script whose events so far are a run answers in one line what its sweeps and ticks came to.
/// - One that answers done leaves a settled world: all running members have one history of each key, and each removed
///   identity that it has a record and no prune of is blocked. For this digests tell the entries that running members have
///   of one key apart, until the settle ends, and what blocks an owner's prune goes on blocking it when the owner prunes
///   another identity.
/// - It sends at most 12 messages for each member of the last view but the leader.
/// - Its second number is how many outcomes of the second tick are `Blocked`.
/// The keepers are free: stores that fail before or in it change nothing of this.
pub fn settle_theorem<Kind, Operation, Shown>()
    ensures answers { (D : Replication Kind Operation Shown) (p : Playing Kind Operation Shown)
        → settle D p ≡ told (record (swept_last D p) { lines = p.lines }) Head.SettleHead (settle_answer D p) }
    ensures settled { (D : Replication Kind Operation Shown) → AfterEveryRun D (SettlesWhereTold D) }
    ensures few_messages { (D : Replication Kind Operation Shown) → AfterEveryRun D (λ members keys p. SendsFew D p) }
    ensures second_number { (D : Replication Kind Operation Shown) → AfterEveryRun D (λ members keys p. WhereDone D p (λ messages blocked. HasBlocked D p blocked)) }
{}

/// The same of a script, by what its lines tell: a settle that tells that it is done sent at most 12 messages for each
/// member of the last view but the leader, its second number is how many outcomes of its second tick are `Blocked`, and it
/// leaves a settled world, where digests tell entries apart until it is done and what blocks a prune goes on blocking it.
pub fn settle_theorem_of_scripts<Kind, Operation, Shown>()
    ensures { (D : Replication Kind Operation Shown) → OfEveryScript IsStep (SettlesAgreeWhereTold D) }
{}
