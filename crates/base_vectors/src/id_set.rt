ghost use Rattle.std.specs.Prelude.{◌≡◌, ◌↔◌, ◌<◌, ◌≤◌, ◌^◌, ◌++◌, ℕ, false, bit_or, IsTrue, OnOk};
ghost use Rattle.model_history.specs.Table.{identity_limit};
ghost use Rattle.model_history.specs.Vector.{with_member, united};
ghost use Rattle.base_bytes.specs.Fields.{Gives};
ghost use Rattle.base_vectors.specs.IdSets.{members_in, member_count};
ghost use Rattle.base_vectors.specs.Spelling.{ids_spelled, ids_in};

use crate::id::{IDENTITIES, Id};
use crate::reading::read_ids;
use base_bytes::{FieldError, Memory};
use std::marker::Model;

/// So many identities have their bits in one word.
const WORD: u8 = 64;

/// A set of identities, a bit for each. Contracts see the number whose bits are its members.
#[derive(Clone, Copy, Debug, PartialEq, Eq)]
pub struct IdSet {
    words: [u64; 4],
}

impl Model for IdSet {
    ghost use Rattle.std.specs.Prelude.{ℕ};
    ghost use Rattle.base_vectors.specs.IdSets.{AreSetWords, bits_of, words_in};
    ghost use Rattle.base_vectors.specs.WordLaws.{words_back};

    ghost Value = { ℕ };

    ghost view = { λ set. bits_of set.words };

    ghost invariant = { λ set. AreSetWords set.words };

    ghost inverse = { λ bits. record { words = words_in 4 bits } };

    ghost inverse_ok = { λ set fits i. record { words = words_back set.words fits i } };
}

impl IdSet {
    /// The set without a member.
    pub fn empty() -> IdSet
        ensures bits { result ≡ 0 }
        ensures members { (i : ℕ) → members_in result i ≡ false }
    {
        IdSet { words: [0; 4] }
    }

    /// The set with one more member.
    pub fn with(self, id: Id) -> IdSet
        ensures bits { result ≡ bit_or self (2 ^ id) }
        ensures members { (i : ℕ) → members_in result i ≡ with_member (members_in self) id i }
    {
        let number = id.number();
        let mut words = self.words;
        words[usize::from(number / WORD)] |= 1 << (number % WORD);
        IdSet { words }
    }

    /// Whether the identity is a member.
    pub fn has(self, id: Id) -> bool
        ensures { result ≡ members_in self id }
    {
        let number = id.number();
        (self.words[usize::from(number / WORD)] >> (number % WORD)) & 1 == 1
    }

    /// The identities that are members of either set.
    pub fn union(self, other: IdSet) -> IdSet
        ensures bits { result ≡ bit_or self other }
        ensures members { (i : ℕ) → members_in result i ≡ united (members_in self) (members_in other) i }
    {
        IdSet {
            words: [
                self.words[0] | other.words[0],
                self.words[1] | other.words[1],
                self.words[2] | other.words[2],
                self.words[3] | other.words[3],
            ],
        }
    }

    /// How many members there are.
    pub fn len(self) -> u32
        ensures value { result ≡ member_count (members_in self) }
        ensures range { result ≤ identity_limit }
    {
        let lower = self.words[0].count_ones() + self.words[1].count_ones();
        let upper = self.words[2].count_ones() + self.words[3].count_ones();
        lower + upper
    }

    /// Whether both sets have the same members.
    pub fn same(self, other: IdSet) -> bool
        ensures { IsTrue result ↔ ((i : ℕ) → i < identity_limit → members_in self i ≡ members_in other i) }
    {
        self.words == other.words
    }

    /// No identity from this on is a member.
    pub fn limit(self) -> u8
        ensures above { (i : ℕ) → result ≤ i → members_in self i ≡ false }
        ensures range { result ≤ identity_limit }
    {
        if self.words[3] > 0 {
            IDENTITIES
        } else if self.words[2] > 0 {
            3 * WORD
        } else if self.words[1] > 0 {
            2 * WORD
        } else {
            WORD
        }
    }

    /// Appends how many members there are, and the members, rising. After a refusal a part of it may have been appended.
    pub fn spell(self, into: &mut Vec<u8>) -> Result<(), Memory>
        ensures range { self < 2 ^ identity_limit }
        ensures ok { OnOk result (into.new.items ≡ into.old.items ++ ids_spelled (members_in self)) }
    {
        into.push(self.len() as u8)?;
        for number in 0..self.limit() {
            if let Some(id) = Id::new(number) {
                if self.has(id) {
                    into.push(number)?;
                }
            }
        }
        Ok(())
    }

    /// The set at the front of these bytes, which has a member; and the bytes after it.
    pub fn read(bytes: &[u8]) -> Result<(IdSet, &[u8]), FieldError>
        ensures { Gives (λ x. (x.0, x.1.now)) result (ids_in bytes.now) }
    {
        read_ids(bytes)
    }
}
