ghost use Rattle.world_members.specs.Gone.{NeverReturns};

use crate::world::World;
use data_lattice::SpelledData;
use member_keeper::Keeper;
use model_kinds::Op;

/// The removed never returns: once a running member has a prune of an identity at a key, each later envelope of that key at
/// that member has it too, and mentions the identity neither in its versions nor in its data. Earlier and later are two
/// worlds of one script's way.
pub fn the_removed_never_returns<T: SpelledData<Op = Op>, K: Keeper + Drop>(
    earlier: &World<T, K>,
    later: &World<T, K>,
)
    ensures { NeverReturns T.SpelledData.own earlier.now later.now }
{}
