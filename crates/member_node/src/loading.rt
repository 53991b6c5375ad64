ghost use Rattle.std.specs.Prelude.{◌≡◌, true, IfOk, IfErr};
ghost use Rattle.model_members.specs.View.{is_member};
ghost use Rattle.member_node.specs.Loading.{IsLoaded, IsRefusedLoad, StandsForLoaded};
ghost use Rattle.member_node.specs.Loaded.{HoldsGiven, IsDamaged};

use crate::node::Node;
use crate::operations::Operations;
use crate::restoring::{Unfit, restored};
use base_bytes::Text;
use base_vectors::Id;
use data_lattice::{Replica, SpelledData};
use member_keeper::{Keeper, KeeperError};
use member_views::View;

/// Why no member was loaded. The old one is as before but for its keeper.
#[derive(Drop)]
pub enum LoadError<T: Replica, K: Keeper> {
    /// The keeper failed.
    LoadFailed(Node<T, K>),
    /// What is kept at this key is no entry of a durable key that a new member may take.
    Damaged(Node<T, K>, Text),
    /// Memory was refused.
    Memory(Node<T, K>),
}

impl<T: SpelledData, K: Keeper + Drop> Node<T, K> {
    /// A new member in place of an old one, with its declared keys and its keeper, and with what this has kept. It adds itself
    /// to the marks of what was kept, where their view is at most its own.
    ///
    /// # Errors
    ///
    /// The keeper failed; what it has kept at some key is no entry of the kind of a durable key, or names an identity that was
    /// not given or the new member's; or memory was refused.
    pub fn loaded(old: Node<T, K>, id: Id, view: View) -> Result<Node<T, K>, LoadError<T, K>>
        requires member { is_member view id ≡ true }
        ensures stands { IfOk result (StandsForLoaded T.SpelledData.own old id view) }
        ensures loaded { IfOk result (IsLoaded old id view) }
        ensures refused { IfErr result (IsRefusedLoad old) }
        ensures sound { IfOk result (HoldsGiven T.SpelledData.own old id view) }
        // A keeper that gives what members stored is not damaged.
        ensures damaged { IfErr result (IsDamaged T.SpelledData.own old id view) }
    {
        let mut old = old;
        let loaded = match old.keeper.load() {
            Ok(loaded) => loaded,
            Err(KeeperError::Failed) => return Err(LoadError::LoadFailed(old)),
            Err(KeeperError::Memory) => return Err(LoadError::Memory(old)),
        };
        match restored(old.alloc, &old.keys, &old.places, id, &view, loaded) {
            Ok(keys) => Ok(Node {
                alloc: old.alloc,
                id,
                view,
                keys,
                places: old.places,
                operations: Operations::new(old.alloc),
                steps: 0,
                limit: old.limit,
                keeper: old.keeper,
            }),
            Err(Unfit::Damaged(key)) => Err(LoadError::Damaged(old, key)),
            Err(Unfit::Memory) => Err(LoadError::Memory(old)),
        }
    }
}
