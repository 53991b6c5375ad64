ghost use Rattle.std.specs.Prelude.{◌≡◌, ℕ, ◌<◌, ◌≤◌, ◌^◌, List, ◌∷◌, [], ◌++◌, length, drop, Option, None, Result, Ok, OnOk, OnErr};
ghost use Rattle.std.proofs.Common.{refl};
ghost use Rattle.base_bytes.specs.Fields.{Gives, byte_in, word_in, number_in, text_in};
ghost use Rattle.base_bytes.specs.Spelling.{AreBytes, Takes, GivesAt, IsText, word_spelled, number_spelled, text_spelled};
ghost use Rattle.base_bytes.specs.FieldLaws as laws;
ghost use Rattle.base_bytes.specs.declared.fault.Fault.{Fault};

use crate::fault::{FieldError, ReadError};
use crate::fields::{read_byte, read_number, read_text, read_word, spell_text};
use crate::memory::Memory;
use crate::text::Text;
use std::alloc::Global;

/// A value with one spelling as bytes. No spelling is a proper prefix of another's.
pub trait Spelled: Sized {
    // The values that there are, and the one spelling of each.
    ghost IsSound: { Self → Type 0 };

    ghost spelled: { Self → List ℕ };

    // What stands at the front of bytes: a value and the bytes after it, or the first fault.
    ghost read_in: { List ℕ → Result (Self × List ℕ) Fault };

    /// Appends the spelling. After a refusal nothing was appended.
    fn spell(&self, into: &mut Vec<u8>) -> Result<(), Memory>
        ensures sound { IsSound self.now }
        ensures ok { OnOk result (into.new.items ≡ into.old.items ++ spelled self.now) }
        ensures err { OnErr result (into.new.items ≡ into.old.items) };

    /// The value that is spelled at a place, and the place after it; else the place of the first field that is cut short
    /// or breaks its rule.
    fn read(alloc: Global, from: &[u8], place: usize) -> Result<(Self, usize), ReadError>
        requires { place ≤ length from.now }
        ensures { GivesAt (length from.now) result (read_in (drop place from.now)) };

    // What is read is spelled so, and what is spelled so is read again, whatever follows it.
    ghost read_is_spelled: { (bytes : List ℕ) (x : Self) (rest : List ℕ) → AreBytes bytes → read_in bytes ≡ Ok (x, rest) → Takes bytes (spelled x) rest × IsSound x };

    ghost spelled_is_read: { (x : Self) (rest : List ℕ) → IsSound x → read_in (spelled x ++ rest) ≡ Ok (x, rest) };
}

/// What was read at the front of the last of so many bytes, with places among all of them in place of how many were left.
pub fn placed<X: Drop>(
    total: usize,
    read: Result<(X, &[u8]), FieldError>,
) -> Result<(X, usize), ReadError>
    ensures { (meant : Result (X × List ℕ) Fault) → Gives (λ x. (x.0, x.1.now)) read.entry meant → GivesAt total result meant }
{
    match read {
        Ok((value, rest)) => Ok((value, total.saturating_sub(rest.len()))),
        Err(error) => Err(error.at_place(total)),
    }
}

impl Spelled for u8 {
    ghost IsSound = { λ n. n < 2 ^ 8 };

    ghost spelled = { λ n. n ∷ [] };

    ghost read_in = { byte_in };

    fn spell(&self, into: &mut Vec<u8>) -> Result<(), Memory> {
        Ok(into.push(*self)?)
    }

    fn read(_alloc: Global, from: &[u8], place: usize) -> Result<(u8, usize), ReadError> {
        placed(from.len(), read_byte(&from[place..]))
    }

    ghost read_is_spelled = { laws.byte_takes };

    ghost spelled_is_read = { λ x rest sound. laws.byte_again x rest };
}

impl Spelled for u32 {
    ghost IsSound = { λ n. n < 2 ^ 32 };

    ghost spelled = { word_spelled };

    ghost read_in = { word_in };

    fn spell(&self, into: &mut Vec<u8>) -> Result<(), Memory> {
        Ok(into.extend_from_slice(&self.to_be_bytes())?)
    }

    fn read(_alloc: Global, from: &[u8], place: usize) -> Result<(u32, usize), ReadError> {
        placed(from.len(), read_word(&from[place..]))
    }

    ghost read_is_spelled = { laws.word_takes };

    ghost spelled_is_read = { laws.word_again };
}

impl Spelled for u64 {
    ghost IsSound = { λ n. n < 2 ^ 64 };

    ghost spelled = { number_spelled };

    ghost read_in = { number_in };

    fn spell(&self, into: &mut Vec<u8>) -> Result<(), Memory> {
        Ok(into.extend_from_slice(&self.to_be_bytes())?)
    }

    fn read(_alloc: Global, from: &[u8], place: usize) -> Result<(u64, usize), ReadError> {
        placed(from.len(), read_number(&from[place..]))
    }

    ghost read_is_spelled = { laws.number_takes };

    ghost spelled_is_read = { laws.number_again };
}

impl Spelled for Text {
    ghost IsSound = { IsText };

    ghost spelled = { text_spelled };

    ghost read_in = { text_in None };

    fn spell(&self, into: &mut Vec<u8>) -> Result<(), Memory> {
        spell_text(self, into)
    }

    fn read(alloc: Global, from: &[u8], place: usize) -> Result<(Text, usize), ReadError> {
        placed(from.len(), read_text(alloc, None, &from[place..]))
    }

    ghost read_is_spelled = { laws.text_takes_first };

    ghost spelled_is_read = { λ x rest sound. laws.text_again None x rest sound refl };
}
