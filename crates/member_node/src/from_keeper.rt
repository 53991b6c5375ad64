ghost use Rattle.std.specs.Prelude.{◌≡◌, true, Some, map, IfOk, IfErr};
ghost use Rattle.model_members.specs.View.{is_member};
ghost use Rattle.member_keeper.specs.Tables.{Table};
ghost use Rattle.member_node.specs.Keys.{AreDistinct};
ghost use Rattle.member_node.specs.Loading.{AreSound};
ghost use Rattle.member_node.specs.FromKeeper.{IsFromKeeper, StandsForKept, IsRefusedFrom, IsFirstUnfitOf, KeepsUndamaged};

use crate::key::{KeyDecl, KeyState};
use crate::node::{MOST_STEPS, Node};
use crate::operations::Operations;
use crate::places::Places;
use crate::restoring::{Unfit, restored};
use base_bytes::Text;
use base_vectors::Id;
use data_lattice::SpelledData;
use member_keeper::{Keeper, KeeperError};
use member_views::View;
use std::alloc::Global;

/// Why no member was made from a keeper, which comes back.
#[derive(Drop)]
pub enum FromKeeperError<K> {
    /// The keeper failed.
    LoadFailed(K),
    /// What is kept at this key is no entry of a durable key that a new member may take.
    Damaged(K, Text),
    /// Memory was refused.
    Memory(K),
}

impl<T: SpelledData, K: Keeper + Drop> Node<T, K> {
    /// A new member with these keys, over a keeper, and with what this has kept: what `loaded` makes where there is no old
    /// member, as in a process that starts again. It adds itself to the marks of what was kept, where their view is at most
    /// its own. The keys are held in the order in which they are given.
    ///
    /// # Errors
    ///
    /// The keeper failed; what it has kept at some key is no entry of the kind of a durable key, or names an identity that was
    /// not given or the new member's; or memory was refused. The keeper comes back.
    pub fn from_keeper(
        alloc: Global,
        keeper: K,
        id: Id,
        view: View,
        keys: &[KeyDecl<T>],
    ) -> Result<Node<T, K>, FromKeeperError<K>>
        requires member { is_member view id ≡ true }
        requires distinct { AreDistinct (map (λ decl. decl.key) keys.now) }
        ensures stands { IfOk result (StandsForKept T.SpelledData.own keys.now keeper id view) }
        ensures loaded { IfOk result (IsFromKeeper keys.now keeper id view) }
        ensures refused { IfErr result (IsRefusedFrom K.Keeper.own keeper) }
        ensures sound { (table : Table) → K.table keeper ≡ Some table → IfOk result (λ node. AreSound T.Replica T.SpelledData.own node.keys.items id view.given table) }
        ensures damaged { (table : Table) → K.table keeper ≡ Some table → IfErr result (IsFirstUnfitOf T.Replica T.SpelledData.own keys.now id view.given table) }
        // A keeper that keeps what members stored is not damaged.
        ensures undamaged { IfErr result (KeepsUndamaged T.Replica T.SpelledData.own K.Keeper.own keys.now keeper id view) }
    {
        let mut keeper = keeper;
        let states = match KeyState::all_new(alloc, id, keys) {
            Ok(states) => states,
            Err(_) => return Err(FromKeeperError::Memory(keeper)),
        };
        let Ok(places) = Places::of(alloc, &states) else {
            return Err(FromKeeperError::Memory(keeper));
        };
        let loaded = match keeper.load() {
            Ok(loaded) => loaded,
            Err(KeeperError::Failed) => return Err(FromKeeperError::LoadFailed(keeper)),
            Err(KeeperError::Memory) => return Err(FromKeeperError::Memory(keeper)),
        };
        match restored(alloc, &states, &places, id, &view, loaded) {
            Ok(keys) => Ok(Node {
                alloc,
                id,
                view,
                keys,
                places,
                operations: Operations::new(alloc),
                steps: 0,
                limit: MOST_STEPS,
                keeper,
            }),
            Err(Unfit::Damaged(key)) => Err(FromKeeperError::Damaged(keeper, key)),
            Err(Unfit::Memory) => Err(FromKeeperError::Memory(keeper)),
        }
    }
}
