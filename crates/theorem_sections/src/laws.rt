ghost use Rattle.model_members.specs.DataType.{Replication};
ghost use Rattle.model_members.specs.Script.{Playing};
ghost use Rattle.theorem_sections.specs.Sections.{OfEverySection, AreDueAfter};
ghost use Rattle.theorem_sections.specs.Histories.{HistoriesAreRuns};
ghost use Rattle.theorem_sections.specs.Queues.{TakenAreDue, OthersWait};
ghost use Rattle.theorem_sections.specs.Paths.{PathsHaveSections};
ghost use Rattle.theorem_sections.specs.Knowing.{KnownPathsArePaths};
ghost use Rattle.theorem_sections.specs.Runs.{SectionsAreRuns, PlainScriptsHaveOneReport};

/// What a script with client threads plays is a run, whatever the schedule and whatever the keepers answer.
pub fn sections_are_runs<Kind, Operation, Shown>()
    ensures { (D : Replication Kind Operation Shown) → SectionsAreRuns D }
{}

/// A script without thread steps has the report of its one run.
pub fn plain_scripts_have_one_report<Kind, Operation, Shown>()
    ensures { (D : Replication Kind Operation Shown) → PlainScriptsHaveOneReport D }
{}

/// After a section the next message of a link is the first that was not heard, where none was pending before; else it is
/// as before.
pub fn next_after_sections<Kind, Operation, Shown>()
    ensures { (D : Replication Kind Operation Shown) (before : Playing Kind Operation Shown) → OfEverySection D before (λ clients moves. AreDueAfter before) }
{}

/// Histories of members, in which each take is of the next message posted on its link by an entry of a lower stamp, are
/// one run: sorted by stamp, then place, their entries are lawful events, and lead to the members that they replay.
pub fn histories_are_runs<Kind, Operation, Shown>()
    ensures { (D : Replication Kind Operation Shown) → HistoriesAreRuns D }
{}

/// Where no entry has a lower stamp than those before it, and each take is of the next message posted on its link by an
/// entry of a lower stamp: an entry that takes a message takes the first one on its way. This holds of entries of any kind.
pub fn messages_are_due<E, X>()
    ensures taken { TakenAreDue E X }
    ensures others { OthersWait E X }
{}

/// What clients did, as the histories of the members tell it, is a section with their lines, where the keepers' answers
/// are those of the entries: its calls of each keeper are the next ones, as many as the entries tell.
pub fn paths_have_sections<Kind, Operation, Shown>()
    ensures { (D : Replication Kind Operation Shown) → PathsHaveSections D }
{}

/// What clients did, as they knew it, is what the histories tell: where each claim speaks of the entries that the client
/// had come to see, it holds of the entries up to the client's stamp.
pub fn known_paths_are_paths<Kind, Operation, Shown>()
    ensures { (D : Replication Kind Operation Shown) → KnownPathsArePaths D }
{}
