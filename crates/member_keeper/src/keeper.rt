ghost use Rattle.std.specs.Prelude.{◌≡◌, ℕ, Bool, List, [], IfOk, is_some};
ghost use Rattle.std.specs.declared.option.Option.{Option};
ghost use Rattle.member_keeper.specs.Tables.{Table, put_all};
ghost use Rattle.member_keeper.specs.Calls.{Becomes, Changes, Joins, IsCaused, Gives};

use crate::stored::Stored;
use base_bytes::Memory;
use thiserror::Error;

/// Why a keeper refused a call.
#[derive(Clone, Copy, Debug, PartialEq, Eq, Error)]
pub enum KeeperError {
    /// What keeps the entries failed, and the keeper's count of faults rose.
    #[error("the keeper failed")]
    Failed,
    /// Memory was refused.
    #[error("out of memory")]
    Memory,
}

impl From<Memory> for KeeperError {
    ghost use Rattle.std.specs.Prelude.{◌≡◌};
    ghost use Rattle.member_keeper.specs.declared.keeper.KeeperError.TheVariants as error;

    ghost from_gives = { λ _ e. e ≡ error.Memory };

    fn from(_refused: Memory) -> KeeperError {
        KeeperError::Memory
    }
}

/// Where entries are kept.
///
/// It has a table from keys to bytes and the list of its answers, each of which it may keep to itself, and a count of its
/// faults, which never falls. What it tells before a call it tells after it. Either error leaves the table as it was.
pub trait Keeper {
    // The table, where it is told.
    ghost table: { Self → Option Table };
    // What the calls so far were answered, where that is told: true is Ok, false is Failed.
    ghost answers: { Self → Option (List Bool) };
    // How many calls failed.
    ghost faults: { Self → ℕ };

    /// Puts all of the entries, one after the other, or none.
    fn store(&mut self, entries: &[Stored]) -> Result<(), KeeperError>
        ensures table { Changes (table self.old) (table self.new) (λ t. put_all t entries.now) result }
        ensures answers { Joins (answers self.old) (answers self.new) result }
        ensures cause { IsCaused (faults self.old) (faults self.new) result };

    /// The entries, in the order of their keys.
    fn load(&mut self) -> Result<Vec<Stored>, KeeperError>
        ensures loaded { IfOk result (λ loaded. Gives (table self.old) loaded.items) }
        ensures table { Becomes (table self.old) (table self.new) (λ t. t) }
        ensures answers { Joins (answers self.old) (answers self.new) result }
        ensures cause { IsCaused (faults self.old) (faults self.new) result };

    /// Forgets all entries.
    fn clear(&mut self) -> Result<(), KeeperError>
        ensures table { Changes (table self.old) (table self.new) (λ _. []) result }
        ensures answers { Joins (answers self.old) (answers self.new) result }
        ensures cause { IsCaused (faults self.old) (faults self.new) result };

    // Each keeper of a type tells its table, or none does: what is not told before a call is not told after it.
    ghost tells_alike: { (a b : Self) → is_some (table a) ≡ is_some (table b) };
}
