ghost use Rattle.model_members.specs.DataType.{Replication};
ghost use Rattle.theorem_runs.specs.Logs.{HasLogs, HaveLogs, AllHaveHistories};
ghost use Rattle.theorem_runs.specs.Views.{HasSoundViews};
ghost use Rattle.theorem_runs.specs.PassedOver.{NothingIsPassedOver};
ghost use Rattle.theorem_runs.specs.Pruning.{InEveryRun, AllSeeTheirMarks, AllHaveUnprunedMarks, SeenHaveInstalled, SeenAreKept, JoinedUnpruned, PrunersHaveInstalled, NoLateRecord, NoLateGroup, NoEarlierPrune, GroupsHaveNoPrunes, StoredIsHeld, PrunesFollowMarks, OnePruneAView, EntriesArePruned, UnionsArePruned};
ghost use Rattle.theorem_runs.specs.Runs.{OfEveryRun, ScriptsAreRuns};
ghost use Rattle.theorem_runs.specs.Taken.{SameCountsSameHistory, SameRecordsSameHistory, SameCountsSameReply, SameCountsSameShown, StepsKeepRecords, DeletesStay, StepsKeepDeletes};

/// The logs of a run hold each history that a member, a message or a store held on the way: each key, origin and number
/// names one record, and each history holds the pasts of its records. They have no prune where no event was a prune tick.
pub fn logs_throughout<Kind, Operation, Shown>()
    ensures { OfEveryRun Kind Operation Shown (λ D members keys events world. HaveLogs D members keys events) }
{}

/// In every run, each running member's history of a key is one in which pasts lie inside it, numbers are in order, and a
/// past holds the pasts of its records. So meanings that recur on pasts say of it what they seem to.
pub fn members_have_histories<Kind, Operation, Shown>()
    ensures { InEveryRun Kind Operation Shown (λ variables world. AllHaveHistories world) }
{}

/// What a script plays is a run, whatever the keepers answer.
pub fn scripts_are_runs<Kind, Operation, Shown>()
    ensures { (D : Replication Kind Operation Shown) → ScriptsAreRuns D }
{}

/// In every run, view 0, view 1 and so on are sound: somebody is in each, identities rise and were given, and no two
/// members share a place.
pub fn sound_views<Kind, Operation, Shown>()
    ensures { InEveryRun Kind Operation Shown (λ variables world. HasSoundViews world) }
{}

/// In every run, nothing of a message to a running member from a member of its view is passed over, whether it is taken
/// whole or in part: no entry counts more of the receiver's records than it made, or has a prune of it, and no group has
/// records of the receiver, or of an identity that it has a prune of.
pub fn nothing_is_passed_over<Kind, Operation, Shown>()
    ensures { InEveryRun Kind Operation Shown (λ variables world. NothingIsPassedOver world) }
{}

/// In every run, what marks and prunes say of the entries: those that running members hold, those in messages to
/// running members from members of their views, and those in the stores of running members' places. The history variables
/// of the run note who installed which view, who joined the seen set of which mark, and which record was made in which view.
/// - Who stands in a mark has installed a view of at least its number, and the entry holds the records of the removed
///   identity that it had when it first joined. At that moment its history had no prune of that identity.
/// - A member stands in each mark that it holds whose view is at most its own. No entry that it holds has a mark and a
///   prune of one identity.
/// - A member whose history has a prune has installed a view without the pruned identity.
/// - Once every member of a view has joined, no entry and no group has a record of the removed identity that none of
///   them had when it joined, and no entry has a prune of it that was performed in an earlier view. No group has a prune.
/// - What a store holds of a durable key is part of what its member holds.
/// - A prune is performed by its view's leader, after every member of the view has joined, and once in a view.
/// - So the union of any two entries' histories of a key is exactly pruned, and so that of any two running members'
///   histories: there is one prune of each pruned identity, and no record of it beside those that its prune has seen.
pub fn pruning_safety<Kind, Operation, Shown>()
    ensures seen_have_installed { InEveryRun Kind Operation Shown SeenHaveInstalled }
    ensures seen_are_kept { InEveryRun Kind Operation Shown SeenAreKept }
    ensures joined_unpruned { InEveryRun Kind Operation Shown (λ variables world. JoinedUnpruned variables) }
    ensures own_marks { InEveryRun Kind Operation Shown (λ variables world. AllSeeTheirMarks world) }
    ensures unpruned_marks { InEveryRun Kind Operation Shown (λ variables world. AllHaveUnprunedMarks world) }
    ensures pruners_have_installed { InEveryRun Kind Operation Shown (λ variables world. PrunersHaveInstalled world) }
    ensures no_late_record { InEveryRun Kind Operation Shown NoLateRecord }
    ensures no_late_group { InEveryRun Kind Operation Shown NoLateGroup }
    ensures no_earlier_prune { InEveryRun Kind Operation Shown NoEarlierPrune }
    ensures groups_have_no_prunes { InEveryRun Kind Operation Shown (λ variables world. GroupsHaveNoPrunes world) }
    ensures stored_is_held { InEveryRun Kind Operation Shown (λ variables world. StoredIsHeld world) }
    ensures prunes_follow_marks { InEveryRun Kind Operation Shown PrunesFollowMarks }
    ensures one_prune_a_view { InEveryRun Kind Operation Shown OnePruneAView }
    ensures entries_are_pruned { InEveryRun Kind Operation Shown (λ variables world. EntriesArePruned world) }
    ensures unions_are_pruned { InEveryRun Kind Operation Shown (λ variables world. UnionsArePruned world) }
    ensures variables_have_logs { InEveryRun Kind Operation Shown (λ variables world. HasLogs variables.made world) }
{}

/// In every run, what a running member shows of a key depends only on the updates and prunes of it that the
/// member has taken: members that have taken as many records of each identity have taken the same, in the same history,
/// answer a local get alike, and show the same.
pub fn same_taken_same_shown<Kind, Operation, Shown>()
    ensures history { InEveryRun Kind Operation Shown (λ variables world. SameCountsSameHistory world) }
    ensures records { InEveryRun Kind Operation Shown (λ variables world. SameRecordsSameHistory world) }
    ensures replies { OfEveryRun Kind Operation Shown (λ D members keys events world. SameCountsSameReply D world) }
    ensures shown { OfEveryRun Kind Operation Shown (λ D members keys events world. SameCountsSameShown D world) }
{}

/// No step of a member loses a record that it has taken. So a deleted key stays deleted there, where histories that hold one
/// with a delete are deleted (`model_kinds::deletes_win`).
pub fn nothing_is_lost<Kind, Operation, Shown>()
    ensures records { (D : Replication Kind Operation Shown) → StepsKeepRecords D }
    ensures deleted { (D : Replication Kind Operation Shown) → DeletesStay D → StepsKeepDeletes D }
{}
