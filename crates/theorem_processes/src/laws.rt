ghost use Rattle.theorem_processes.specs.Runs.{AreAlwaysOneRun, AlwaysHoldHistories};

use data_delta_codec::SpelledDelta;
use member_codec::{one_spelling, stands_as_sent};
use member_keeper::Keeper;
use model_kinds::Op;

/// Members in processes, each making steps of its contract, and taking of bytes what a transport hands over that guarantees one
/// thing: as from a member it hands over only bytes that spell what this member posted to that one. Each member has declared some
/// keys of a catalogue, and may declare more while it runs. Then what happened is one run of the model, in which all members have
/// all keys, whatever the order was, and whatever was handed over again, late or never: the members stand for those of the world
/// that the run leads to, but for keys that they have not declared, of which those hold nothing, and ends of operations that they
/// were told to forget; what they posted is what lies on its links, and what each step tells is what its event puts out, or that a
/// key is not declared. So whatever is proved of every run holds of them.
pub fn processes_are_one_run<T: SpelledDelta<Op = Op>, K: Keeper>()
    ensures { AreAlwaysOneRun T.Replica K.Keeper T.SpelledData.own T.SpelledDelta.own }
{
    one_spelling::<T>();
    stands_as_sent::<T>();
}

/// What the members of such processes hold: of each key an image of a history of their run, whose meaning is what they show.
/// Any two of these histories are exactly pruned together, so no update is lost by a prune or counted twice; and members that
/// have taken as many records of each identity have taken the same.
pub fn processes_hold_histories<T: SpelledDelta<Op = Op>, K: Keeper>()
    ensures { AlwaysHoldHistories T.Replica K.Keeper T.SpelledData.own T.SpelledDelta.own }
{
    one_spelling::<T>();
    stands_as_sent::<T>();
}
