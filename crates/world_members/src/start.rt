ghost use Rattle.std.specs.Prelude.{List};
ghost use Rattle.world_places.specs.Seating.{RefusesClear};
ghost use Rattle.world_members.specs.Steps.{RefusesStart};

use member_keeper::{Keeper, KeeperError};

/// Why there is no first world. The keepers come back in their order.
#[derive(Drop)]
pub enum StartError<K: Keeper> {
    /// The keeper of the place failed. Those before it have forgotten all.
    ClearFailed { keepers: Vec<K>, place: u8 },
    /// Memory was refused. Some of the keepers may have forgotten all.
    Memory { keepers: Vec<K> },
}

/// Why there is no first world, where a keeper refused to forget.
pub(crate) fn refusal<K: Keeper>(place: u8, error: KeeperError, keepers: Vec<K>) -> StartError<K>
    ensures { (old : List K) → RefusesClear K.Keeper place error old keepers.items → RefusesStart K.Keeper old result }
{
    match error {
        KeeperError::Failed => StartError::ClearFailed { keepers, place },
        KeeperError::Memory => StartError::Memory { keepers },
    }
}
