ghost use Rattle.std.specs.Prelude.{◌≡◌, ℕ, ◌≤◌, ◌++◌, length, OnOk, OnErr, IfOk, IfSome, IfNone};
ghost use Rattle.std.specs.List.{flat_map};
ghost use Rattle.std.specs.FinMap as map;
ghost use Rattle.base_bytes.specs.Fields.{Gives};
ghost use Rattle.base_vectors.specs.IdSets.{members_in};
ghost use Rattle.model_history.specs.Table.{identity_limit};
ghost use Rattle.model_history.specs.Vector.{Covers};
ghost use Rattle.base_vectors.specs.Vectors.{IsNormal, number_at, raised, joined, removed, IsFirstLacking};
ghost use Rattle.base_vectors.specs.Spelling.{pairs_of, pair_spelled, numbers_spelled, numbers_in, AreSpellable};

use crate::id::Id;
use crate::id_set::IdSet;
use crate::reading::read_numbers;
use crate::words::{first_below, lengthen, raise_each};
use base_bytes::{FieldError, Memory};
use std::alloc::Global;
use std::marker::Model;

/// A number per identity, 0 where none was set.
#[derive(Drop)]
pub struct Numbers {
    words: Vec<u64>,
}

impl Model for Numbers {
    ghost use Rattle.std.specs.Prelude.{ℕ};
    ghost use Rattle.std.specs.Coded.{coded_ℕ};
    ghost use Rattle.std.specs.FinMap as map;
    ghost use Rattle.std.specs.Ordering.{nat_cmp};

    ghost Value = { map.FinMap nat_cmp ℕ };

    ghost coded = { map.code coded_ℕ coded_ℕ };

    ghost use Rattle.std.specs.Prelude.{◌≤◌, length};
    ghost use Rattle.model_history.specs.Table.{identity_limit};
    ghost use Rattle.base_vectors.specs.Words.{of_words};

    ghost view = { λ numbers. of_words numbers.words.items };

    ghost invariant = { λ numbers. length numbers.words.items ≤ identity_limit };
}

impl Numbers {
    /// No number at any identity.
    pub fn new(alloc: Global) -> Numbers
        ensures { result ≡ map.empty }
    {
        Numbers {
            words: Vec::new(alloc),
        }
    }

    /// The number at an identity.
    pub fn at(&self, id: Id) -> u64
        ensures value { result ≡ number_at self.now id }
        ensures normal { IsNormal self.now }
    {
        let index = usize::from(id.number());
        if index < self.words.len() {
            self.words[index]
        } else {
            0
        }
    }

    /// Every identity from this on has no number.
    pub fn limit(&self) -> u8
        ensures above { (i : ℕ) → result ≤ i → number_at self.now i ≡ 0 }
        ensures range { result ≤ identity_limit }
    {
        self.words.len() as u8
    }

    /// Keeps the greater number.
    pub fn raise(&mut self, id: Id, to: u64) -> Result<(), Memory>
        requires { 1 ≤ to }
        ensures ok { OnOk result (self.new ≡ raised self.old id to) }
        ensures err { OnErr result (self.new ≡ self.old) }
    {
        let index = usize::from(id.number());
        lengthen(&mut self.words, index + 1)?;
        self.words[index] = self.words[index].max(to);
        Ok(())
    }

    /// Drops the number at an identity.
    pub fn without(&mut self, id: Id)
        ensures { self.new ≡ removed self.old id }
    {
        let index = usize::from(id.number());
        if index < self.words.len() {
            self.words[index] = 0;
        }
    }

    /// Keeps the greater number at each identity.
    pub fn join(&mut self, other: &Numbers) -> Result<(), Memory>
        ensures ok { OnOk result (self.new ≡ joined self.old other.now) }
        ensures err { OnErr result (self.new ≡ self.old) }
    {
        lengthen(&mut self.words, other.words.len())?;
        raise_each(self.words.as_mut_slice(), other.words.as_slice());
        Ok(())
    }

    /// The least identity at which there is a lower number than is needed.
    pub(crate) fn first_lacking(&self, needs: &Numbers) -> Option<Id>
        ensures none { IfNone result (Covers (number_at self.now) (number_at needs.now)) }
        ensures some { IfSome result (IsFirstLacking self.now needs.now) }
    {
        let index = first_below(self.words.as_slice(), needs.words.as_slice())?;
        Id::new(index as u8)
    }

    /// Equal numbers.
    pub fn copy(&self, alloc: Global) -> Result<Numbers, Memory>
        ensures same { IfOk result (λ copy. copy ≡ self.now) }
        ensures normal { IsNormal self.now }
    {
        let words = Vec::from_slice(alloc, self.words.as_slice())?;
        Ok(Numbers { words })
    }

    /// How many identities have a number.
    fn count(&self) -> u8
        ensures { result ≡ length (pairs_of (number_at self.now)) }
    {
        let mut count = 0;
        for word in self.words.iter() {
            if *word > 0 {
                count += 1;
            }
        }
        count
    }

    /// Appends each identity that has a number, and the number.
    fn spell_pairs(&self, into: &mut Vec<u8>) -> Result<(), Memory>
        ensures ok { OnOk result (into.new.items ≡ into.old.items ++ flat_map pair_spelled (pairs_of (number_at self.now))) }
    {
        for (index, word) in self.words.iter().enumerate() {
            if *word > 0 {
                into.push(index as u8)?;
                into.extend_from_slice(&word.to_be_bytes())?;
            }
        }
        Ok(())
    }

    /// Appends how many identities have a number, and these, rising, each with its number. After a refusal a part of it
    /// may have been appended.
    pub fn spell(&self, into: &mut Vec<u8>) -> Result<(), Memory>
        ensures ok { OnOk result (into.new.items ≡ into.old.items ++ numbers_spelled (number_at self.now)) }
    {
        into.push(self.count())?;
        self.spell_pairs(into)
    }

    /// The numbers at the front of these bytes, each from 1 to a greatest one and none at a barred identity; and the
    /// bytes after them.
    pub fn read(
        alloc: Global,
        most: u64,
        barred: IdSet,
        bytes: &[u8],
    ) -> Result<(Numbers, &[u8]), FieldError>
        ensures exact { Gives (λ x. (x.0, x.1.now)) result (numbers_in most (members_in barred) bytes.now) }
        ensures sound { IfOk result (λ x. AreSpellable most x.0) }
    {
        read_numbers(alloc, most, barred, bytes)
    }
}
