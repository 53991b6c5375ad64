ghost use Rattle.data_value.specs.DataSpelled.{history_byte, history_spelled};
ghost use Rattle.model_history.specs.Texts.{Text};
ghost use Rattle.model_kinds.specs.ShownText.{shown_text};
ghost use Rattle.model_members.specs.World.{start};
ghost use Rattle.theorem_digests.specs.Digests.{DistinctDigests};
ghost use Rattle.theorem_headline.specs.Headline.{ReportsHaveHeadline};
ghost use Rattle.std.specs.Prelude.{◌≤◌, ℕ, List, map};
ghost use Rattle.std.specs.List.{AllByRecursion};
ghost use Rattle.model_members.specs.Script.{KeeperAnswers};
ghost use Rattle.theorem_sections.specs.Runs.{IsRunStep};
ghost use Rattle.model_kinds.specs.SixKinds.{six_kinds};
ghost use Rattle.script_reading.specs.declared.clients.Clients.{Clients};
ghost use Rattle.script_reading.specs.declared.script.Script.{Script};
ghost use Rattle.script_reading.specs.Reading.{Spells};
ghost use Rattle.world_members.specs.Threads.{run_step_of};
ghost use Rattle.trace_judged.specs.Judgements.{IsJudgement};
ghost use Rattle.trace_judged.specs.declared.judging.Judgement.TheVariants as judged;
ghost use Rattle.trace_played.specs.Traced.{IsTraceText};
ghost use Rattle.top_call.specs.EachRun.{SettlesAreSo, SettlesAreTold, ReadsIncludeWrites, OfEveryRunOfSix, HasHeadline, OfEverySpelled, six};

/// The headline: all that holds of each run whose report the program may write, over the six kinds and the SHA-1 of
/// spellings, whatever the keepers answer and whatever the schedule is. Of what bytes spell its premises hold
/// (`scripts_are_within_bounds`, `the_headline_of_scripts`).
pub fn the_headline()
    ensures { ReportsHaveHeadline six shown_text (λ members keys. DistinctDigests six history_byte history_spelled (start members keys)) }
{}

/// Bytes that spell a script spell one within the bounds that the headline asks for: it begins with 1 to 8 members, and the
/// places of its steps are those of a script.
pub fn scripts_are_within_bounds()
    ensures members { (clients : Clients) (bytes : List ℕ) (script : Script) → Spells clients bytes script → (1 ≤ script.members) × (script.members ≤ 8) }
    ensures steps { (clients : Clients) (bytes : List ℕ) (script : Script) → Spells clients bytes script → AllByRecursion IsRunStep (map run_step_of script.steps) }
{}

/// The headline of a script that bytes spell, and of a text that is the report of a run of it: this is what the clause `done`
/// of `replicate` says of a report, with the answers that the keepers gave.
pub fn the_headline_of_scripts()
    ensures { OfEverySpelled HasHeadline }
{}

/// What a settle of a script that may have clients tells is so, whatever the schedule and whatever the keepers answer.
/// - A settle that tells that it is done sent at most 12 messages for each member of the last view but the leader, and its
///   second number is how many outcomes of its second tick are `Blocked`.
/// - It leaves a settled world: all running members have one history of each key, and each removed identity that it has a
///   record and no prune of is blocked. For this no two running members have, until the settle ends, spellings of one key
///   that differ and have one SHA-1.
pub fn settles_of_runs_are_so()
    ensures here { OfEveryRunOfSix SettlesAreSo }
    ensures told { SettlesAreTold }
{}

/// In a run of a script that may have clients, whatever the schedule and whatever the keepers answer: while membership stays
/// unchanged, what a majority read shows includes each earlier majority write of its key whose success was seen when the read
/// began.
pub fn reads_of_runs_include_writes()
    ensures { OfEveryRunOfSix (λ members keys last. ReadsIncludeWrites members keys last.events) }
{}

/// What `trace` writes of a script with status 0, `check` finds lawful.
pub fn traces_are_found_lawful()
    ensures { (answers : KeeperAnswers) (script : Script) (text : Text) → IsTraceText six_kinds history_byte history_spelled answers script text → IsJudgement text judged.Lawful }
{}
