ghost use Rattle.std.specs.Prelude.{◌≡◌, ℕ, ◌≤◌, ◌++◌, List, length, drop, Result, IfOk, OnOk};
ghost use Rattle.base_bytes.specs.declared.fault.Fault.{Fault};
ghost use Rattle.base_places.specs.Places.{GivesOn};
ghost use Rattle.base_places.specs.Spells.{Spells};

use base_bytes::{Memory, ReadError};
use std::alloc::Global;

/// A value with one spelling as bytes, which is read at a place. No spelling is a proper prefix of another's.
///
/// Contracts see its parts: a value may keep proofs beside them.
pub(crate) trait Piece: Drop {
    // What contracts see of the value, whatever the proofs beside it.
    ghost Parts: { Type 0 };

    ghost parts: { Self → Parts };

    // The parts that there are, the one spelling of each, and what stands at the front of bytes.
    ghost IsSound: { Parts → Type 0 };

    ghost spelled: { Parts → List ℕ };

    ghost piece_in: { List ℕ → Result (Parts × List ℕ) Fault };

    /// Appends the spelling. After a refusal a part of it may have been appended.
    fn put(&self, into: &mut Vec<u8>) -> Result<(), Memory>
        ensures sound { OnOk result (IsSound (parts self.now)) }
        ensures ok { OnOk result (into.new.items ≡ into.old.items ++ spelled (parts self.now)) };

    /// The value that is spelled at a place, and the place after it; else the place of the first field that is cut short
    /// or breaks its rule.
    fn take(alloc: Global, from: &[u8], place: usize) -> Result<(Self, usize), ReadError>
        requires { place ≤ length from.now }
        ensures within { IfOk result (λ x. x.1 ≤ length from.now) }
        ensures exact { GivesOn from.now parts result (piece_in (drop place from.now)) };

    // What is read is spelled so, and what is spelled so is read again.
    ghost spells: { Spells IsSound spelled piece_in };
}
