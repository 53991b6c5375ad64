ghost use Rattle.std.specs.Prelude.{◌≡◌, ℕ, ◌+◌, ◌≤◌, ◌++◌, ◌↔◌, max, IsSome, IfSome, OnOk, OnErr, IfOk};
ghost use Rattle.std.specs.FinMap as map;
ghost use Rattle.model_history.specs.Table.{identity_limit};
ghost use Rattle.model_meanings.specs.Refusal.{greatest_share};
ghost use Rattle.base_bytes.specs.Fields.{Gives};
ghost use Rattle.base_vectors.specs.IdSets.{members_in};
ghost use Rattle.base_vectors.specs.Spelling.{numbers_spelled, numbers_in, AreSpellable};
ghost use Rattle.base_vectors.specs.Vectors.{IsNormal, number_at, raised, joined, removed};

use base_bytes::{FieldError, Memory};
use base_vectors::{Id, IdSet, Numbers};
use std::alloc::Global;
use std::marker::Model;

/// What one identity may hold of a counter at most.
const GREATEST: u64 = 0x7fff_ffff_ffff_ffff;

/// What one identity may hold of a counter: at most `2^63 - 1`.
#[derive(Clone, Copy, Debug, PartialEq, Eq, PartialOrd, Ord)]
pub struct Amount {
    number: u64,
}

impl Model for Amount {
    ghost use Rattle.std.specs.Prelude.{ℕ, ◌≤◌};
    ghost use Rattle.model_meanings.specs.Refusal.{greatest_share};

    ghost Value = { ℕ };

    ghost view = { λ amount. amount.number };

    ghost invariant = { λ amount. amount.number ≤ greatest_share };

    ghost inverse = { λ number. record { number = number } };
}

impl Amount {
    /// The amount of this number, unless it is above `2^63 - 1`.
    pub fn new(number: u64) -> Option<Amount>
        ensures variant { IsSome result ↔ (number ≤ greatest_share) }
        ensures value { IfSome result (λ amount. amount ≡ number) }
    {
        if number <= GREATEST {
            Some(Amount { number })
        } else {
            None
        }
    }

    /// The number.
    pub fn number(self) -> u64
        ensures value { result ≡ self }
        ensures range { self ≤ greatest_share }
    {
        self.number
    }

    /// This amount and so much more, unless that is above `2^63 - 1`.
    pub(crate) fn plus(self, by: u64) -> Option<Amount>
        ensures variant { IsSome result ↔ (self + by ≤ greatest_share) }
        ensures value { IfSome result (λ amount. amount ≡ self + by) }
    {
        match self.number.checked_add(by) {
            Some(sum) => Amount::new(sum),
            None => None,
        }
    }

    /// The greater of two amounts.
    pub(crate) fn max(self, other: Amount) -> Amount
        ensures { result ≡ max self other }
    {
        if other.number > self.number {
            other
        } else {
            self
        }
    }
}

/// An amount per identity, 0 where none was set.
#[derive(Drop)]
pub(crate) struct Amounts {
    alloc: Global,
    numbers: Numbers,
}

impl Model for Amounts {
    ghost use Rattle.std.specs.Prelude.{ℕ};
    ghost use Rattle.std.specs.Coded.{coded_ℕ};
    ghost use Rattle.std.specs.FinMap as map;
    ghost use Rattle.std.specs.Ordering.{nat_cmp};

    ghost Value = { map.FinMap nat_cmp ℕ };

    ghost coded = { map.code coded_ℕ coded_ℕ };

    ghost use Rattle.data_counters.specs.Kept.{AreAmounts};

    ghost view = { λ amounts. amounts.numbers };

    ghost invariant = { λ amounts. AreAmounts amounts.numbers };
}

impl Amounts {
    /// No amount at any identity.
    pub(crate) fn new(alloc: Global) -> Amounts
        ensures { result ≡ map.empty }
    {
        Amounts {
            alloc,
            numbers: Numbers::new(alloc),
        }
    }

    /// The amount at an identity.
    pub(crate) fn at(&self, id: Id) -> Amount
        ensures value { result ≡ number_at self.now id }
        ensures normal { IsNormal self.now }
    {
        let number = self.numbers.at(id);
        Amount { number }
    }

    /// Every identity from this on has no amount.
    pub(crate) fn limit(&self) -> u8
        ensures above { (i : ℕ) → result ≤ i → number_at self.now i ≡ 0 }
        ensures range { result ≤ identity_limit }
    {
        self.numbers.limit()
    }

    /// Keeps the greater amount.
    pub(crate) fn raise(&mut self, id: Id, to: Amount) -> Result<(), Memory>
        ensures ok { OnOk result (self.new ≡ raised self.old id to) }
        ensures err { OnErr result (self.new ≡ self.old) }
    {
        let _here = self.numbers.at(id);
        if to.number == 0 {
            return Ok(());
        }
        self.numbers.raise(id, to.number)
    }

    /// Drops the amount at an identity.
    pub(crate) fn without(&mut self, id: Id)
        ensures { self.new ≡ removed self.old id }
    {
        self.numbers.without(id);
    }

    /// Keeps the greater amount at each identity.
    pub(crate) fn join(&mut self, other: &Amounts) -> Result<(), Memory>
        ensures ok { OnOk result (self.new ≡ joined self.old other.now) }
        ensures err { OnErr result (self.new ≡ self.old) }
    {
        self.numbers.join(&other.numbers)
    }

    /// Equal amounts.
    pub(crate) fn copy(&self, alloc: Global) -> Result<Amounts, Memory>
        ensures same { IfOk result (λ copy. copy ≡ self.now) }
        ensures normal { IsNormal self.now }
    {
        let numbers = self.numbers.copy(alloc)?;
        Ok(Amounts { alloc, numbers })
    }

    /// Equal amounts, from the same allocator.
    pub(crate) fn copy_beside(&self) -> Result<Amounts, Memory>
        ensures same { IfOk result (λ copy. copy ≡ self.now) }
        ensures normal { IsNormal self.now }
    {
        self.copy(self.alloc)
    }

    /// Appends the spelling. After a refusal a part of it may have been appended.
    pub(crate) fn spell(&self, into: &mut Vec<u8>) -> Result<(), Memory>
        ensures sound { AreSpellable greatest_share self.now }
        ensures ok { OnOk result (into.new.items ≡ into.old.items ++ numbers_spelled (number_at self.now)) }
    {
        self.numbers.spell(into)
    }

    /// The spelling.
    pub(crate) fn spelled(&self) -> Result<Vec<u8>, Memory>
        ensures sound { AreSpellable greatest_share self.now }
        ensures ok { IfOk result (λ bytes. bytes.items ≡ numbers_spelled (number_at self.now)) }
    {
        let mut bytes = Vec::new(self.alloc);
        self.spell(&mut bytes)?;
        Ok(bytes)
    }

    /// The spelling, and that of others after it.
    pub(crate) fn spelled_before(&self, others: &Amounts) -> Result<Vec<u8>, Memory>
        ensures sound { AreSpellable greatest_share self.now }
        ensures others_sound { AreSpellable greatest_share others.now }
        ensures ok { IfOk result (λ bytes. bytes.items ≡ numbers_spelled (number_at self.now) ++ numbers_spelled (number_at others.now)) }
    {
        let _others = &others.numbers;
        let mut bytes = self.spelled()?;
        others.spell(&mut bytes)?;
        Ok(bytes)
    }

    /// The amounts at the front of these bytes, without a barred identity; and the bytes after them.
    pub(crate) fn read(
        alloc: Global,
        barred: IdSet,
        bytes: &[u8],
    ) -> Result<(Amounts, &[u8]), FieldError>
        ensures { Gives (λ x. (x.0, x.1.now)) result (numbers_in greatest_share (members_in barred) bytes.now) }
    {
        let (numbers, rest) = Numbers::read(alloc, GREATEST, barred, bytes)?;
        Ok((Amounts { alloc, numbers }, rest))
    }
}
