ghost use Rattle.model_history.specs.Texts.{Text};
ghost use Rattle.model_history.specs.History.{History};
ghost use Rattle.member_embedding.specs.Wire.{StandsAsPosted, IsTakenAsPosted};

use data_delta_codec::SpelledDelta;
use member_codec::{one_spelling, stands_as_sent};

/// What is read of the bytes of a message stands for what was posted, and taking it for taking that: whatever the keys of the
/// member are, and whoever it is from. `spell_message` (`value`, `readable`) and `read_message` (`found`) give the premises, and
/// `Node::step` goes on from there: the step is that of the model's member for the message that was posted.
pub fn arrives_as_posted<T: SpelledDelta>()
    ensures stands { (kinds : Text → T.Kind) (logs : Text → History T.Op) → StandsAsPosted T.Replica T.SpelledData.own T.SpelledDelta.own kinds logs }
    ensures taken { (kinds : Text → T.Kind) (logs : Text → History T.Op) → IsTakenAsPosted T.Replica T.SpelledData.own T.SpelledDelta.own kinds logs }
{
    one_spelling::<T>();
    stands_as_sent::<T>();
}
