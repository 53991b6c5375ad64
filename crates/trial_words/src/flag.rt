//! Words that are set once, and keepers that wait for one.

ghost use Rattle.std.specs.Prelude.{◌≡◌, length, IfOk};

use member_keeper::{Keeper, KeeperError, MemoryKeeper, Stored};
use std::alloc::{AllocError, Global};
use std::sync::Arc;
use std::sync::atomic::{AtomicU64, Ordering};
use std::test::Fail;

/// How often is looked whether the other side has come so far.
const MOST_LOOKS: u64 = 1_000_000_000;

/// A word that is set once.
#[derive(Drop)]
pub(crate) struct Flag {
    word: Arc<AtomicU64, Global>,
}

impl Flag {
    pub(crate) fn new(alloc: Global) -> Result<Flag, AllocError> {
        Ok(Flag {
            word: Arc::new(alloc, AtomicU64::new(0))?,
        })
    }

    /// The same word.
    pub(crate) fn again(&self) -> Result<Flag, AllocError> {
        Ok(Flag {
            word: Arc::try_clone(&self.word)?,
        })
    }

    pub(crate) fn set(&self) {
        self.word.store(1, Ordering::SeqCst);
    }

    /// Looks until it is set, so often at most. Answers whether it was.
    pub(crate) fn wait(&self) -> bool {
        for _look in 0..MOST_LOOKS {
            if self.word.load(Ordering::SeqCst) == 1 {
                return true;
            }
        }
        false
    }
}

/// What is told when something has begun, and what it then waits for.
#[derive(Drop)]
pub(crate) struct Meeting {
    pub(crate) begun: Flag,
    pub(crate) awaited: Flag,
}

/// A keeper whose stores tell that they have begun, and then wait. It is out of memory where that was in vain.
#[derive(Drop)]
pub(crate) struct HoldingKeeper {
    kept: MemoryKeeper,
    holds: Option<Meeting>,
}

impl HoldingKeeper {
    pub(crate) fn new(alloc: Global, holds: Option<Meeting>) -> HoldingKeeper {
        HoldingKeeper {
            kept: MemoryKeeper::new(alloc, Vec::new(alloc)),
            holds,
        }
    }
}

impl Keeper for HoldingKeeper {
    ghost use Rattle.std.specs.Prelude.{None, refl};

    ghost table = { λ _. None };

    ghost answers = { λ _. None };

    ghost faults = { λ k. k.kept.calls.faults };

    ghost tells_alike = { λ _ _. refl };

    fn store(&mut self, entries: &[Stored]) -> Result<(), KeeperError> {
        if let Some(meeting) = &self.holds {
            meeting.begun.set();
            if !meeting.awaited.wait() {
                return Err(KeeperError::Memory);
            }
        }
        self.kept.store(entries)
    }

    fn load(&mut self) -> Result<Vec<Stored>, KeeperError> {
        self.kept.load()
    }

    fn clear(&mut self) -> Result<(), KeeperError> {
        self.kept.clear()
    }
}

/// A keeper for each place, of which the first two may hold what is stored.
pub(crate) fn holding_keepers(
    alloc: Global,
    first: Option<Meeting>,
    second: Option<Meeting>,
) -> Result<Vec<HoldingKeeper>, Fail>
    ensures { IfOk result (λ keepers. length keepers.items ≡ 8) }
{
    let mut first = first;
    let mut second = second;
    let mut keepers = Vec::new(alloc);
    for place in 0..8_usize {
        let holds = match place {
            0 => first.take(),
            1 => second.take(),
            _ => None,
        };
        keepers.push(HoldingKeeper::new(alloc, holds))?;
    }
    Ok(keepers)
}
