ghost use Rattle.std.specs.Prelude.{◌≡◌, ℕ, ◌≤◌, ◌++◌, List, length, drop, Bool, true, false, Result, Ok, OnOk, OnErr};
ghost use Rattle.model_history.specs.Table.{identity_limit};
ghost use Rattle.model_history.specs.Vector.{VersionVector, IdentitySet};
ghost use Rattle.model_history.specs.History.{History, cut};
ghost use Rattle.model_history.specs.Cuts.{IsPrunedCut};
ghost use Rattle.base_bytes.specs.declared.fault.Fault.{Fault};
ghost use Rattle.base_bytes.specs.Spelling.{AreBytes, Takes, GivesAt};
ghost use Rattle.base_vectors.specs.IdSets.{members_in};

use crate::replica::Replica;
use base_bytes::{Memory, ReadError};
use base_vectors::IdSet;
use std::alloc::Global;

/// Data with one spelling as bytes, which is a function of their history. No spelling of data of one kind is a proper
/// prefix of another's.
pub trait SpelledData: Replica {
    // The bytes that tell what data are: that of their kind, or another where their key was deleted; and which bytes there are.
    ghost byte_of: { Self → ℕ };

    ghost is_known: { ℕ → Bool };

    // The data that there are, and the one spelling of each.
    ghost IsSound: { Self → Type 0 };

    ghost spelled: { Self → List ℕ };

    // What stands at the front of bytes, of what a byte tells and naming no barred identity: data and the bytes after
    // them, or the first fault.
    ghost read_in: { ℕ → IdentitySet → List ℕ → Result (Self × List ℕ) Fault };

    // The byte of the data of a history, and their spelling, without what it has of the identities that it has pruned.
    ghost history_byte: { Self.Kind → History Self.Op → ℕ };

    ghost history_spelled: { Self.Kind → History Self.Op → List ℕ };

    /// Whether the byte is that of a kind, or of a deleted key of a kind.
    fn is_kind(byte: u8) -> bool
        ensures { result ≡ is_known byte };

    /// The byte of the kind, or of a deleted key of the kind.
    fn kind_byte(&self) -> u8
        ensures { result ≡ byte_of self.now };

    /// Appends the spelling. After a refusal nothing was appended.
    fn spell_data(&self, into: &mut Vec<u8>) -> Result<(), Memory>
        ensures sound { IsSound self.now }
        ensures ok { OnOk result (into.new.items ≡ into.old.items ++ spelled self.now) }
        ensures err { OnErr result (into.new.items ≡ into.old.items) };

    /// The data that this byte tells, which are spelled at a place and name no barred identity, and the place
    /// after them; else the place of the first field that is cut short or breaks its rule.
    fn read_data(
        alloc: Global,
        kind: u8,
        barred: IdSet,
        from: &[u8],
        place: usize,
    ) -> Result<(Self, usize), ReadError>
        requires known { is_known kind ≡ true }
        requires within { place ≤ length from.now }
        ensures { GivesAt (length from.now) result (read_in kind (members_in barred) (drop place from.now)) };

    // This is the spelling that the replica tells.
    ghost spelling_is: { (x : Self) → Self.spelling x ≡ (byte_of x, spelled x) };

    // The byte of data is one of those that there are.
    ghost byte_is_known: { (x : Self) → is_known (byte_of x) ≡ true };

    // What is read is spelled so, and what is spelled so is read again, whatever follows it.
    ghost read_is_spelled: { (kind : ℕ) (barred : IdentitySet) (bytes : List ℕ) (x : Self) (rest : List ℕ) → is_known kind ≡ true → AreBytes bytes → read_in kind barred bytes ≡ Ok (x, rest)
        → Takes bytes (spelled x) rest × IsSound x × (byte_of x ≡ kind) × ((i : ℕ) → barred i ≡ true → Self.mentioned x i ≡ false) };

    ghost spelled_is_read: { (x : Self) (barred : IdentitySet) (rest : List ℕ) → IsSound x → ((i : ℕ) → barred i ≡ true → Self.mentioned x i ≡ false) → read_in (byte_of x) barred (spelled x ++ rest) ≡ Ok (x, rest) };

    // Data mention identities alone.
    ghost mentioned_few: { (state : Self) (id : ℕ) → IsSound state → identity_limit ≤ id → Self.mentioned state id ≡ false };

    // Data of a history are spelled as the history says.
    ghost byte_means: { (state : Self) (log : History Self.Op) (held : VersionVector) (gone : IdentitySet) → IsPrunedCut log held gone → Self.IsDataOf state log held gone → byte_of state ≡ history_byte (Self.kind_of state) (cut log held) };

    ghost spelling_means: { (state : Self) (log : History Self.Op) (held : VersionVector) (gone : IdentitySet) → IsPrunedCut log held gone → Self.IsDataOf state log held gone → spelled state ≡ history_spelled (Self.kind_of state) (cut log held) };
}
