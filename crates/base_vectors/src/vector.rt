ghost use Rattle.std.specs.Prelude.{◌≡◌, ℕ, ◌<◌, ◌≤◌, ◌^◌, ◌++◌, ◌↔◌, IsTrue, IsSome, IfSome, IfNone, OnOk, OnErr, IfOk};
ghost use Rattle.std.specs.FinMap as map;
ghost use Rattle.model_history.specs.Table.{identity_limit};
ghost use Rattle.model_history.specs.Vector.{Covers};
ghost use Rattle.base_vectors.specs.Vectors.{IsNormal, number_at, raised, joined, removed, IsFirstLacking};
ghost use Rattle.base_vectors.specs.Orders.{reaches, is_reached};
ghost use Rattle.base_bytes.specs.Fields.{Gives};
ghost use Rattle.base_vectors.specs.IdSets.{members_in};
ghost use Rattle.base_vectors.specs.Spelling.{numbers_spelled, numbers_in, AreSpellable};

use crate::id::{Dot, Id, Seq};
use crate::id_set::IdSet;
use crate::numbers::Numbers;
use base_bytes::{FieldError, Memory};
use std::alloc::Global;
use std::marker::Model;

/// The greatest record number taken, per origin.
#[derive(Drop)]
pub struct VersionVector {
    numbers: Numbers,
}

impl Model for VersionVector {
    ghost use Rattle.std.specs.Prelude.{ℕ};
    ghost use Rattle.std.specs.Coded.{coded_ℕ};
    ghost use Rattle.std.specs.FinMap as map;
    ghost use Rattle.std.specs.Ordering.{nat_cmp};

    ghost Value = { map.FinMap nat_cmp ℕ };

    ghost coded = { map.code coded_ℕ coded_ℕ };

    ghost use Rattle.base_vectors.specs.Kept.{AreSeqs};

    ghost view = { λ vector. vector.numbers };

    ghost invariant = { λ vector. AreSeqs vector.numbers };
}

/// How two version vectors stand to each other.
#[derive(Clone, Copy, Debug, PartialEq, Eq)]
pub enum Order {
    /// The other has all that the one has, and more.
    Before,
    /// Both have the same.
    Same,
    /// The one has all that the other has, and more.
    After,
    /// Each has what the other lacks.
    Concurrent,
}

impl VersionVector {
    /// No record of any origin.
    pub fn new(alloc: Global) -> VersionVector
        ensures { result ≡ map.empty }
    {
        VersionVector {
            numbers: Numbers::new(alloc),
        }
    }

    /// The greatest record number of an origin, 0 where there is none.
    pub fn at(&self, id: Id) -> Seq
        ensures value { result ≡ number_at self.now id }
        ensures range { result ≤ 2 ^ 62 }
        ensures normal { IsNormal self.now }
    {
        self.numbers.at(id)
    }

    /// Every identity from this on has no record.
    pub fn limit(&self) -> u8
        ensures above { (i : ℕ) → result ≤ i → number_at self.now i ≡ 0 }
        ensures range { result ≤ identity_limit }
    {
        self.numbers.limit()
    }

    /// Keeps the greater number.
    pub fn raise(&mut self, id: Id, to: Seq) -> Result<(), Memory>
        requires { (1 ≤ to) × (to ≤ 2 ^ 62) }
        ensures ok { OnOk result (self.new ≡ raised self.old id to) }
        ensures err { OnErr result (self.new ≡ self.old) }
    {
        self.numbers.raise(id, to)
    }

    /// Drops the number at an identity.
    pub fn without(&mut self, id: Id)
        ensures { self.new ≡ removed self.old id }
    {
        self.numbers.without(id);
    }

    /// Whether the record is counted.
    pub fn contains_dot(&self, dot: Dot) -> bool
        ensures { IsTrue result ↔ (dot.seq ≤ number_at self.now dot.origin) }
    {
        dot.seq <= self.at(dot.origin)
    }

    /// Keeps the greater number at each identity.
    pub fn join(&mut self, other: &VersionVector) -> Result<(), Memory>
        ensures ok { OnOk result (self.new ≡ joined self.old other.now) }
        ensures err { OnErr result (self.new ≡ self.old) }
    {
        self.numbers.join(&other.numbers)
    }

    /// Whether each number of the other is reached.
    pub fn covers(&self, needs: &VersionVector) -> bool
        ensures { IsTrue result ↔ Covers (number_at self.now) (number_at needs.now) }
    {
        self.first_lacking(needs).is_none()
    }

    /// Whether both vectors have the same numbers.
    pub fn same(&self, other: &VersionVector) -> bool
        ensures { IsTrue result ↔ ((i : ℕ) → number_at self.now i ≡ number_at other.now i) }
    {
        self.covers(other) && other.covers(self)
    }

    /// How this vector stands to the other.
    pub fn compare(&self, other: &VersionVector) -> Order
        ensures reaches { IsTrue (reaches result) ↔ Covers (number_at self.now) (number_at other.now) }
        ensures reached { IsTrue (is_reached result) ↔ Covers (number_at other.now) (number_at self.now) }
    {
        if self.covers(other) {
            if other.covers(self) {
                Order::Same
            } else {
                Order::After
            }
        } else if other.covers(self) {
            Order::Before
        } else {
            Order::Concurrent
        }
    }

    /// The least identity at which this vector is below the other.
    pub fn first_lacking(&self, needs: &VersionVector) -> Option<Id>
        ensures none { IfNone result (Covers (number_at self.now) (number_at needs.now)) }
        ensures some { IfSome result (IsFirstLacking self.now needs.now) }
    {
        self.numbers.first_lacking(&needs.numbers)
    }

    /// An equal vector.
    pub fn copy(&self, alloc: Global) -> Result<VersionVector, Memory>
        ensures same { IfOk result (λ copy. copy ≡ self.now) }
        ensures normal { IsNormal self.now }
    {
        let numbers = self.numbers.copy(alloc)?;
        Ok(VersionVector { numbers })
    }

    /// Appends how many origins have a record, and these, rising, each with its greatest record number. After a refusal a
    /// part of it may have been appended.
    pub fn spell(&self, into: &mut Vec<u8>) -> Result<(), Memory>
        ensures sound { AreSpellable (2 ^ 62) self.now }
        ensures ok { OnOk result (into.new.items ≡ into.old.items ++ numbers_spelled (number_at self.now)) }
    {
        self.numbers.spell(into)
    }

    /// The vector at the front of these bytes, without a barred identity; and the bytes after it.
    pub fn read(
        alloc: Global,
        barred: IdSet,
        bytes: &[u8],
    ) -> Result<(VersionVector, &[u8]), FieldError>
        ensures { Gives (λ x. (x.0, x.1.now)) result (numbers_in (2 ^ 62) (members_in barred) bytes.now) }
    {
        let (numbers, rest) = Numbers::read(alloc, 1 << 62, barred, bytes)?;
        Ok((VersionVector { numbers }, rest))
    }
}
