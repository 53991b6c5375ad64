ghost use Rattle.std.specs.Prelude.{◌≡◌, ℕ, ◌≤◌, ◌++◌, List, length, drop, Bool, true, Result, Ok, OnOk};
ghost use Rattle.base_bytes.specs.declared.fault.Fault.{Fault};
ghost use Rattle.base_bytes.specs.Spelling.{AreBytes, Takes, GivesAt};

use base_bytes::{Memory, ReadError};
use base_vectors::Id;
use data_lattice::SpelledData;
use std::alloc::Global;

/// Data whose deltas have one spelling as bytes, behind a byte that tells what the delta is, and behind its origin, which a
/// group tells. No spelling of a delta of one byte and one origin is a proper prefix of another's.
pub trait SpelledDelta: SpelledData {
    // The byte that tells what a delta is, and which bytes there are.
    ghost delta_byte: { Self.Delta → ℕ };

    ghost is_delta_byte: { ℕ → Bool };

    // The deltas that there are, and the one spelling of each.
    ghost IsSoundDelta: { Self.Delta → Type 0 };

    ghost delta_spelled: { Self.Delta → List ℕ };

    // What stands at the front of bytes, of what a byte tells and of an origin: a delta and the bytes after it, or the
    // first fault.
    ghost delta_in: { ℕ → ℕ → List ℕ → Result (Self.Delta × List ℕ) Fault };

    /// Whether the byte tells what a delta is.
    fn is_delta(byte: u8) -> bool
        ensures { result ≡ is_delta_byte byte };

    /// The byte that tells what the delta is.
    fn delta_kind(delta: &Self::Delta) -> u8
        ensures { result ≡ delta_byte delta.now };

    /// Appends the spelling. After a refusal a part of it may have been appended.
    fn spell_delta(delta: &Self::Delta, into: &mut Vec<u8>) -> Result<(), Memory>
        ensures sound { OnOk result (IsSoundDelta delta.now) }
        ensures ok { OnOk result (into.new.items ≡ into.old.items ++ delta_spelled delta.now) };

    /// The delta that this byte tells, which is spelled at a place and is of this origin, and the place after it; else the
    /// place of the first field that is cut short or breaks its rule.
    fn read_delta(
        alloc: Global,
        kind: u8,
        origin: Id,
        from: &[u8],
        place: usize,
    ) -> Result<(Self::Delta, usize), ReadError>
        requires known { is_delta_byte kind ≡ true }
        requires within { place ≤ length from.now }
        ensures { GivesAt (length from.now) result (delta_in kind origin (drop place from.now)) };

    // The byte of a delta is one of those that there are.
    ghost delta_is_known: { (x : Self.Delta) → is_delta_byte (delta_byte x) ≡ true };

    // What is read is spelled so, and what is spelled so is read again, whatever follows it.
    ghost delta_read_is_spelled: { (kind origin : ℕ) (bytes : List ℕ) (x : Self.Delta) (rest : List ℕ) → is_delta_byte kind ≡ true → AreBytes bytes → delta_in kind origin bytes ≡ Ok (x, rest)
        → Takes bytes (delta_spelled x) rest × IsSoundDelta x × (delta_byte x ≡ kind) × Self.IsOfOrigin x origin };

    ghost delta_spelled_is_read: { (x : Self.Delta) (origin : ℕ) (rest : List ℕ) → IsSoundDelta x → ∥ Self.IsOfOrigin x origin ∥₁ → delta_in (delta_byte x) origin (delta_spelled x ++ rest) ≡ Ok (x, rest) };
}
