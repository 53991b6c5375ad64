ghost use Rattle.std.specs.Prelude.{◌≡◌};
ghost use Rattle.member_keeper.specs.Calls.{IsCaused};
ghost use Rattle.member_keeper.specs.InMemory.{Counts};

use crate::keeper::KeeperError;
use std::marker::Model;

/// Counts calls, and says which of them fail.
#[derive(Drop)]
pub(crate) struct CallCount {
    failing: Vec<u64>,
    calls: u64,
    faults: u64,
}

impl Model for CallCount {
    ghost use Rattle.member_keeper.specs.InMemory.{Counted};

    ghost Value = { Counted };

    ghost view = { λ c. record { failing = c.failing.items; calls = c.calls; faults = c.faults } };
}

impl CallCount {
    /// No call so far. Those will fail whose numbers, counted from 0, are named.
    pub(crate) fn new(failing: Vec<u64>) -> CallCount
        ensures { result ≡ record { failing = failing.items; calls = 0; faults = 0 } }
    {
        CallCount {
            failing,
            calls: 0,
            faults: 0,
        }
    }

    /// Counts a call, and answers whether it fails. Past the last number of 64 bits each call wants memory.
    pub(crate) fn answer(&mut self) -> Result<(), KeeperError>
        ensures counts { Counts self.old self.new result }
        ensures cause { IsCaused self.old.faults self.new.faults result }
    {
        if self.calls == u64::MAX {
            return Err(KeeperError::Memory);
        }
        let fails = self.failing.contains(&self.calls);
        self.calls += 1;
        if fails {
            self.faults = self.faults.saturating_add(1);
            return Err(KeeperError::Failed);
        }
        Ok(())
    }
}
