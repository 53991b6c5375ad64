use crate::shelf::{Fate, Shelf};
use thread_machine::machine::Machine;

/// A total that grows, and the shelf that keeps it.
#[derive(Drop)]
pub struct Tally {
    pub total: u64,
    pub shelf: Shelf,
}

/// The total would pass the greatest number.
#[derive(Drop)]
pub struct Overflow;

impl Machine for Tally {
    ghost use Rattle.std.specs.Prelude.{◌≡◌, ◌+◌, ◌^◌, ◌≤◌};
    ghost use Rattle.trial_cell.specs.Shelves.{is_lost};
    ghost use Rattle.trial_cell.specs.Tallies.{IsStep};

    type Input = u64;

    type Fate = Fate;

    type Output = u64;

    type Refusal = Overflow;

    ghost Steps = { IsStep };

    ghost MayRefuse = { λ before amount refusal. 2 ^ 64 ≤ before.total + amount };

    ghost IsUnchanged = { λ before after. after ≡ before };

    ghost faults = { λ tally. tally.shelf.faults };

    ghost is_fault = { is_lost };

    fn step(&mut self, amount: &u64) -> Result<(Fate, u64, u64), Overflow> {
        let Some(total) = self.total.checked_add(*amount) else {
            return Err(Overflow);
        };
        let fate = self.shelf.put(total);
        self.total = total;
        Ok((fate, total, total))
    }
}
