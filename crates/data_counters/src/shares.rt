ghost use Rattle.std.specs.Prelude.{◌≡◌, ℕ, ◌≤◌, ◌^◌, OnOk, OnErr, IfOk, IfErr, None};
ghost use Rattle.base_vectors.specs.declared.id.Dot.{Dot};
ghost use Rattle.data_lattice.specs.Refusals.{IsApplyRefusal, IsPruneRefusal};
ghost use Rattle.data_counters.specs.Counter.{counter_applied, counter_delta_of, counter_apply_refusal, counter_absorbed, counter_pruned, counter_prune_refusal, counter_sum};

use crate::amounts::Amount;
use crate::counter::{GCounter, Share};
use base_bytes::Memory;
use base_vectors::{Dot, Id};
use data_lattice::{ApplyError, PruneError};

impl GCounter {
    /// Adds an amount to the share of the dot's origin, and answers that share.
    pub(crate) fn add(&mut self, by: u64, dot: Dot) -> Result<Share, ApplyError>
        ensures unrefused { OnOk result (counter_apply_refusal self.old by dot.origin ≡ None) }
        ensures applied { OnOk result (self.new ≡ counter_applied self.old by dot) }
        ensures delta { IfOk result (λ delta. delta ≡ counter_delta_of self.old by dot) }
        ensures refused { IfErr result (IsApplyRefusal (counter_apply_refusal self.old by dot.origin)) }
        ensures err { OnErr result (self.new ≡ self.old) }
    {
        let share = self.shares.at(dot.origin);
        let Some(sum) = share.plus(by) else {
            return Err(ApplyError::Overflow {
                share: share.number(),
                amount: by,
            });
        };
        self.shares.raise(dot.origin, sum)?;
        Ok(Share {
            origin: dot.origin,
            share: sum,
        })
    }

    /// The share of the dot's origin, to which it adds nothing.
    pub(crate) fn stay(&self, dot: Dot) -> Amount
        ensures same { self.now ≡ counter_applied self.now 0 dot }
        ensures share { result ≡ (counter_delta_of self.now 0 dot).share }
    {
        self.shares.at(dot.origin)
    }

    /// Takes the greater of the share here and that of a delta.
    pub(crate) fn reach(&mut self, delta: Share) -> Result<(), Memory>
        ensures ok { OnOk result (self.new ≡ counter_absorbed self.old delta) }
        ensures err { OnErr result (self.new ≡ self.old) }
    {
        self.shares.raise(delta.origin, delta.share)
    }

    /// Adds the share of a removed identity to that of its owner.
    pub(crate) fn take_over(&mut self, removed: Id, owner: Id) -> Result<(), PruneError>
        requires { removed ≡ owner → ⊥ }
        ensures unrefused { OnOk result (counter_prune_refusal self.old removed owner ≡ None) }
        ensures pruned { OnOk result (self.new ≡ counter_pruned self.old removed owner) }
        ensures refused { IfErr result (IsPruneRefusal (counter_prune_refusal self.old removed owner)) }
        ensures err { OnErr result (self.new ≡ self.old) }
    {
        let owner_share = self.shares.at(owner);
        let removed_share = self.shares.at(removed);
        let Some(sum) = owner_share.plus(removed_share.number()) else {
            return Err(PruneError::Blocked {
                owner_share: owner_share.number(),
                removed_share: removed_share.number(),
            });
        };
        self.shares.raise(owner, sum)?;
        self.shares.without(removed);
        Ok(())
    }

    /// An equal counter that took over a share, as `take_over` does.
    pub(crate) fn taken_over(&self, removed: Id, owner: Id) -> Result<GCounter, PruneError>
        requires { removed ≡ owner → ⊥ }
        ensures unrefused { OnOk result (counter_prune_refusal self.now removed owner ≡ None) }
        ensures pruned { IfOk result (λ pruned. pruned ≡ counter_pruned self.now removed owner) }
        ensures refused { IfErr result (IsPruneRefusal (counter_prune_refusal self.now removed owner)) }
    {
        let mut pruned = self.copy_beside()?;
        pruned.take_over(removed, owner)?;
        Ok(pruned)
    }

    /// An equal counter, from the same allocator.
    pub(crate) fn copy_beside(&self) -> Result<GCounter, Memory>
        ensures { IfOk result (λ copy. copy ≡ self.now) }
    {
        let shares = self.shares.copy_beside()?;
        Ok(GCounter { shares })
    }

    /// The sum of the shares.
    pub(crate) fn sum(&self) -> u128
        ensures value { result ≡ counter_sum self.now }
        ensures range { result ≤ 2 ^ 72 }
    {
        let mut total: u128 = 0;
        for number in 0..self.shares.limit() {
            if let Some(id) = Id::new(number) {
                total += u128::from(self.shares.at(id).number());
            }
        }
        total
    }
}
