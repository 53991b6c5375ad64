ghost use Rattle.model_rows.specs.Rows.{Meanings, EmptyScript, OneMember, Repeats, AddWins, DeltaOvertakesItsCause, PrunedCounter, BlockedPrune, ReplacedDot, OwnerDeparts, LateMessages, RestartedMember, MajorityWriteAndRead, TimedOutWrite, RegisterWrites, Refusals, OtherKinds, FiftyDeltas, FiftyOneDeltas, Carts, FailingStore, FailingLoad, GeneratedScript, TwoMembers, FlushedRegister, GossipedCounter, ThreeMembers};
ghost use Rattle.model_rows.specs.Borders.{SecondPrune, NackedWrite, FailingTick, BlockedSettle, EmptyRead, FullMember, BlockedMinus, FailingClear, JoinAfterStored, FailingInstall, TooManyIdentities, NewerMark, SetFull};
ghost use Rattle.model_rows.specs.Deletes.{DeletedSet, DeleteAmongAdds, GossipedDelete, DeletedEntry, MajorityFindsDeleted, DeletedCounterPrunes, DeletedSettle, DeletedRestarts, DeletedKinds, DeletedFullSet};
ghost use Rattle.model_kinds.specs.declared.kind.Kind.TheVariants.{GSet, OrSet};

/// What the model makes of worked scripts.
pub fn worked_rows()
    ensures meanings { Meanings }
    ensures empty_script { EmptyScript }
    ensures one_member { OneMember }
    ensures repeats { Repeats }
    ensures add_wins { AddWins }
    ensures delta_overtakes_its_cause { DeltaOvertakesItsCause }
    ensures pruned_counter { PrunedCounter }
    ensures blocked_prune { BlockedPrune }
    ensures replaced_dot { ReplacedDot }
    ensures owner_departs { OwnerDeparts }
    ensures late_messages { LateMessages }
    ensures restarted_member { RestartedMember }
    ensures majority_write_and_read { MajorityWriteAndRead }
    ensures timed_out_write { TimedOutWrite }
    ensures register_writes { RegisterWrites }
    ensures refusals { Refusals }
    ensures other_kinds { OtherKinds }
    ensures fifty_deltas { FiftyDeltas }
    ensures fifty_one_deltas { FiftyOneDeltas }
    ensures carts { Carts }
    ensures failing_store { FailingStore }
    ensures failing_load { FailingLoad }
    ensures generated_script { GeneratedScript }
    ensures two_members { TwoMembers }
    ensures flushed_register { FlushedRegister }
    ensures gossiped_counter { GossipedCounter }
    ensures three_members { ThreeMembers }
{}

/// What the model makes of scripts at the borders.
pub fn borders()
    ensures second_prune { SecondPrune }
    ensures nacked_write { NackedWrite }
    ensures failing_tick { FailingTick }
    ensures blocked_settle { BlockedSettle }
    ensures empty_read { EmptyRead }
    ensures full_member { FullMember }
    ensures blocked_minus { BlockedMinus }
    ensures failing_clear { FailingClear }
    ensures join_after_stored { JoinAfterStored }
    ensures failing_install { FailingInstall }
    ensures too_many_identities { TooManyIdentities }
    ensures newer_mark { NewerMark }
    ensures growing_set_full { SetFull GSet }
    ensures set_full { SetFull OrSet }
{}

/// What the model makes of scripts with deleted keys.
pub fn deleted_keys()
    ensures deleted_set { DeletedSet }
    ensures delete_among_adds { DeleteAmongAdds }
    ensures gossiped_delete { GossipedDelete }
    ensures deleted_entry { DeletedEntry }
    ensures majority_finds_deleted { MajorityFindsDeleted }
    ensures deleted_counter_prunes { DeletedCounterPrunes }
    ensures deleted_settle { DeletedSettle }
    ensures deleted_restarts { DeletedRestarts }
    ensures deleted_kinds { DeletedKinds }
    ensures deleted_growing_set_full { DeletedFullSet GSet }
    ensures deleted_set_full { DeletedFullSet OrSet }
{}
