ghost use Rattle.std.specs.Prelude.{◌≡◌, Option};
ghost use Rattle.std.specs.List.{list_any};
ghost use Rattle.model_history.specs.Texts.{Text};
ghost use Rattle.model_history.specs.History.{History, all_records, IsHistory};
ghost use Rattle.model_history.specs.Vector.{VersionVector};
ghost use Rattle.model_meanings.specs.Growing.{Assignment, timestamp, winner};
ghost use Rattle.model_meanings.specs.ObservedRemove.{SetOperations, touches, is_live};
ghost use Rattle.theorem_latest.specs.Latest.{LastTouchesTell, has_last_live};
ghost use Rattle.theorem_latest.specs.Taken.{OfTakenRecords};
ghost use Rattle.theorem_latest.specs.Writes.{last_winner};
ghost use Rattle.theorem_latest.specs.Risen.{RisenPastsTell};

/// An element is shown exactly where one of the last records of each identity that touch it adds it, and is in the past of none of the others.
/// So it is of one identity's adding records alone, which says what a prune of the identity touches.
pub fn last_touches_are_enough<Operation>()
    ensures any { (operations : SetOperations Operation) (e : Text) (H : History Operation) → IsHistory H → list_any (is_live operations e H) (all_records H) ≡ has_last_live operations e H }
    ensures of_identity { (operations : SetOperations Operation) (e : Text) (H : History Operation) → IsHistory H → LastTouchesTell operations e H }
{}

/// Whether a record touches an element, and which timestamp it has, is settled when it is made: all histories that hold it agree with the log.
pub fn records_say_the_same_everywhere<Operation>()
    ensures touches { (operations : SetOperations Operation) (e : Text) → OfTakenRecords (λ log H x. touches operations e H x ≡ touches operations e log x) }
    ensures timestamp { (assigned : Operation → Option Assignment) → OfTakenRecords (λ log H x. timestamp assigned H x ≡ timestamp assigned log x) }
{}

/// Where what a member held is closed under past, so is what it then holds, exactly if it has the pasts of the last records of
/// each identity whose number rose.
pub fn risen_pasts_are_enough<Operation>()
    ensures { (made H : History Operation) (known : VersionVector) → IsHistory made → RisenPastsTell made H known }
{}

/// A register's winner is the last write of an identity: the one with the greatest timestamp, and among these of the least origin.
pub fn last_writes_are_enough<Operation>()
    ensures { (assigned : Operation → Option Assignment) (H : History Operation) → IsHistory H → winner assigned H ≡ last_winner assigned H }
{}
