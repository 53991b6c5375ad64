ghost use Rattle.std.specs.Prelude.{◌≡◌, ◌≤◌, None, Some, IfOk, OnErr};
ghost use Rattle.model_members.specs.Node as model;
ghost use Rattle.member_quorum.specs.Levels.{level_meant};

use thiserror::Error;

/// How many members an update or a read waits for, the asking one included.
#[derive(Clone, Copy, Debug, PartialEq, Eq)]
pub enum Level {
    /// The asking member alone.
    Local,
    /// So many members, and at least the asking one.
    To(u8),
    /// More than half of the members, and no fewer than the cap, as far as there are as many.
    Majority(u8),
    /// Every member of the view.
    All,
}

/// A level asks for more members than there are.
#[derive(Clone, Copy, Debug, PartialEq, Eq, Error)]
#[error("too few members")]
pub struct TooFew;

/// How many of so many members have to answer, the asking one included. It refuses a level that asks for more of them than
/// there are.
pub fn needed(level: Level, members: usize) -> Result<usize, TooFew>
    requires { 1 ≤ members }
    ensures enough { IfOk result (λ number. model.needed (level_meant level) members ≡ Some number) }
    ensures too_few { OnErr result (model.needed (level_meant level) members ≡ None) }
    ensures range { IfOk result (λ number. (1 ≤ number) × (number ≤ members)) }
{
    let number = match level {
        Level::Local => 1,
        Level::To(number) => usize::from(number).max(1),
        Level::Majority(cap) => members.min((members / 2 + 1).max(usize::from(cap))),
        Level::All => members,
    };
    if number <= members {
        Ok(number)
    } else {
        Err(TooFew)
    }
}
