ghost use Rattle.std.specs.Prelude.{◌≡◌, ◌↔◌, ℕ, ◌<◌, true};
ghost use Rattle.model_history.specs.Texts.{Text};
ghost use Rattle.std.specs.List.{AllByRecursion};
ghost use Rattle.model_history.specs.Table.{identity_limit};
ghost use Rattle.model_history.specs.Vector.{VersionVector, Covers};
ghost use Rattle.model_history.specs.History.{History, at, versions, cut, IsHistory, IsExactlyPruned};
ghost use Rattle.model_members.specs.DataType.{DataType};
ghost use Rattle.model_traces.specs.Meaning.{IsOfIdentity, IsWithin, CoversAt, IsClosed, covers_last_pasts, ShowsAlike, TellsFirstBreak, IsConsistentIfLawful};
ghost use Rattle.model_traces.specs.Traces.{Trace, IsLawful, verdict, covers, is_none, is_closed, is_exactly_pruned};
ghost use Rattle.model_traces.specs.Traces.Verdict.{Lawful};

/// The verdict on a trace is that it is lawful exactly where it is, and else names the first line that breaks a rule, and
/// the least rule that it breaks.
pub fn verdicts<Kind, Operation, Shown>()
    ensures lawful { (D : DataType Kind Operation Shown) (value_text : Shown → Text) (trace : Trace Kind Operation) → (verdict D value_text trace ≡ Lawful) ↔ IsLawful D value_text trace }
    ensures broken { (D : DataType Kind Operation Shown) (value_text : Shown → Text) (trace : Trace Kind Operation) → TellsFirstBreak D value_text trace }
{}

/// What the tests of the rules say: that a vector counts no fewer than another at each identity, that a history is empty, that it
/// holds the past of each of its records, and that it is exactly pruned.
pub fn tests_say<Operation>()
    ensures covers { (v w : VersionVector) → (covers v w ≡ true) ↔ CoversAt v w }
    ensures none { (H : History Operation) → (is_none H ≡ true) ↔ ((i : ℕ) → i < identity_limit → at H i ≡ 0) }
    ensures closed { (H : History Operation) → IsWithin H → (is_closed H ≡ true) ↔ IsClosed H }
    ensures exactly_pruned { (H : History Operation) → IsWithin H → (is_exactly_pruned H ≡ true) ↔ IsExactlyPruned H }
{}

/// Whether a vector's records hold their pasts is told by the last records of each identity alone.
pub fn last_pasts_are_enough<Operation>()
    ensures { (made : History Operation) (known : VersionVector) → IsHistory made → Covers (versions made) known → covers_last_pasts made known ≡ is_closed (cut made known) }
{}

/// What it means that a trace is lawful. At each line the records made are a history, of which each member holds a part that is
/// closed under past, exactly pruned, and has all of its own records; no record is lost. What is shown is what the member's
/// history means, and members that hold as many records of each identity hold the same ones and show the same.
pub fn lawful_traces_are_consistent<Kind, Operation, Shown>()
    ensures consistent { (D : DataType Kind Operation Shown) (value_text : Shown → Text) (trace : Trace Kind Operation) → IsConsistentIfLawful D value_text trace }
    ensures alike { (D : DataType Kind Operation Shown) (value_text : Shown → Text) (trace : Trace Kind Operation) → AllByRecursion IsOfIdentity trace.lines → IsLawful D value_text trace → ShowsAlike D value_text trace }
{}
