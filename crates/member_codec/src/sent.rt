ghost use Rattle.model_history.specs.Texts.{Text};
ghost use Rattle.model_history.specs.History.{History};
ghost use Rattle.member_codec.specs.Standing.{StandByParts};

use data_lattice::Replica;

/// A message stands for what another stands for that has the same parts. What `read_message` makes of the spelling of a
/// message has its parts, so it stands for what was sent: a message comes across as it was posted.
pub fn stands_as_sent<T: Replica>()
    ensures { (kinds : Text → T.Kind) (logs : Text → History T.Op) → StandByParts T.Replica kinds logs }
{}
