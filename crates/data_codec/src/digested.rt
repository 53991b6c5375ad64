use crate::spelling::digest;
use crate::steps::Steps;
use base_bytes::Memory;
use data_envelope::Envelope;
use data_lattice::{Replica, SpelledData};
use std::alloc::Global;
use std::marker::Model;
use std::sync::ledger::Ledger;

/// An envelope and, where one was made since the last change, its digest.
#[derive(Drop)]
pub struct Digested<T: Replica> {
    alloc: Global,
    envelope: Envelope<T>,
    digest: Option<[u8; 20]>,
}

impl<T: Replica> Model for Digested<T> {
    ghost use Rattle.std.specs.Prelude.{◌≡◌, MatchOption, is_some};
    ghost use Rattle.std.specs.Coded.{codes};
    ghost use Rattle.sha1.specs.Sha1.{sha1};
    ghost use Rattle.base_vectors.specs.contracts.vector.VersionVector as versions;
    ghost use Rattle.data_markers.specs.contracts.markers.Markers as markers;
    ghost use Rattle.data_envelope.specs.Words.{parts_of};
    ghost use Rattle.data_codec.specs.Envelopes.{spelled_by};
    ghost use Rattle.data_codec.specs.Kept.{Kept};

    ghost Value = { Kept T T.Kind T.Op T.Delta };

    ghost coded = { Prim.hlevel (codes, versions.the_row.coded, markers.the_row.coded) };

    ghost view = { λ digested. record { envelope = digested.envelope; is_kept = is_some digested.digest } };

    ghost invariant = { λ digested. MatchOption digested.digest (Unit {0}) (λ kept. kept ≡ sha1 (spelled_by T.spelling (parts_of digested.envelope))) };
}

impl<T: Replica> Digested<T> {
    ghost use Rattle.std.specs.Prelude.{◌≡◌, false};
    ghost use Rattle.std.specs.Borrow.{sem};
    ghost use Rattle.data_codec.specs.Lends.{lends_envelope};

    /// The envelope, without a digest.
    pub fn new(alloc: Global, envelope: Envelope<T>) -> Digested<T>
        ensures { result ≡ record { envelope = envelope; is_kept = false } }
    {
        Digested {
            alloc,
            envelope,
            digest: None,
        }
    }

    /// The envelope.
    pub fn envelope(&self) -> &Envelope<T>
        ensures { result.now ≡ self.now.envelope }
    {
        &self.envelope
    }

    /// Whether its digest is kept.
    pub fn is_kept(&self) -> bool
        ensures { result ≡ self.now.is_kept }
    {
        self.digest.is_some()
    }

    /// The envelope to be changed. Its digest is no longer kept.
    pub fn change(&mut self) -> &mut Envelope<T>
        ensures* writes_back { sem 𝓛 (lends_envelope T.row T.Kind.row T.Op.row T.Delta.row T.Replica self.entry result) }
        ensures value { result.now ≡ self.old.envelope }
    {
        self.digest = None;
        &mut self.envelope
    }
}

impl<T: SpelledData> Digested<T> {
    ghost use Rattle.std.specs.Prelude.{◌≡◌, ◌+◌, true, not, ◌&&◌, if◌then◌else◌, is_ok, IfOk, OnOk, OnErr};
    ghost use Rattle.sha1.specs.Sha1.{sha1};
    ghost use Rattle.data_envelope.specs.Words.{parts_of};
    ghost use Rattle.data_codec.specs.Envelopes.{envelope_spelled};
    ghost use Rattle.data_codec.specs.Entries.{entry_digest};
    ghost use Rattle.data_codec.specs.Calls.{DigestsEntry};

    /// The digest that is kept, or else one that is made and not kept.
    pub fn told(&self) -> Result<[u8; 20], Memory>
        ensures value { IfOk result (λ digest. digest ≡ sha1 (envelope_spelled T.byte_of T.spelled (parts_of self.now.envelope))) }
        ensures image { DigestsEntry T.IsDataOf (parts_of self.now.envelope) (entry_digest T.history_byte T.history_spelled (T.kind_of self.now.envelope.value)) result }
    {
        match self.digest {
            Some(kept) => Ok(kept),
            None => digest(self.alloc, &self.envelope),
        }
    }

    /// Keeps the digest, which is made where none is kept.
    pub fn keep(&mut self) -> Result<(), Memory>
        ensures ok { OnOk result (self.new ≡ record { envelope = self.old.envelope; is_kept = true }) }
        ensures err { OnErr result (self.new ≡ self.old) }
    {
        if self.digest.is_none() {
            self.digest = Some(digest(self.alloc, &self.envelope)?);
        }
        Ok(())
    }

    /// The digest, which is then kept. A step is a digest that was made.
    pub fn digest<L: Ledger>(&mut self, steps: &mut Steps<L>) -> Result<[u8; 20], Memory>
        ensures value { IfOk result (λ digest. digest ≡ sha1 (envelope_spelled T.byte_of T.spelled (parts_of self.old.envelope))) }
        ensures image { DigestsEntry T.IsDataOf (parts_of self.old.envelope) (entry_digest T.history_byte T.history_spelled (T.kind_of self.old.envelope.value)) result }
        ensures kept { OnOk result (self.new ≡ record { envelope = self.old.envelope; is_kept = true }) }
        ensures err { OnErr result (self.new ≡ self.old) }
        ensures steps { steps.new ≡ (if is_ok result && not self.old.is_kept then steps.old + 1 else steps.old) }
    {
        if let Some(kept) = self.digest {
            return Ok(kept);
        }
        let made = digest(self.alloc, &self.envelope)?;
        steps.tick();
        self.digest = Some(made);
        Ok(made)
    }
}
