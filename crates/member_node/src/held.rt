ghost use Rattle.std.specs.Prelude.{◌≡◌};

use base_bytes::Memory;
use data_codec::Digested;
use data_envelope::Envelope;
use data_lattice::{Replica, SpelledData};
use std::alloc::Global;
use std::marker::Model;

/// An entry as a member holds it: with its digest, where one was made since the last change. Whether one is kept is no part of
/// what contracts see.
#[derive(Drop)]
pub struct HeldEntry<T: Replica> {
    digested: Digested<T>,
}

impl<T: Replica> Model for HeldEntry<T> {
    ghost use Rattle.std.specs.Coded.{codes};
    ghost use Rattle.base_vectors.specs.contracts.vector.VersionVector as versions;
    ghost use Rattle.data_markers.specs.contracts.markers.Markers as markers;
    ghost use Rattle.data_envelope.specs.declared.envelope.Envelope.{Envelope};

    ghost Value = { Envelope T T.Kind T.Op T.Delta };

    ghost coded = { Prim.hlevel (codes, versions.the_row.coded, markers.the_row.coded) };

    ghost view = { λ held. held.digested.envelope };

    ghost invariant = { λ _. Unit {0} };
}

impl<T: Replica> HeldEntry<T> {
    ghost use Rattle.std.specs.Borrow.{sem, Lends};
    ghost use Rattle.data_envelope.specs.contracts.envelope.Envelope as entry;
    ghost use Rattle.member_node.specs.contracts.held.HeldEntry as held;

    /// The entry, without a digest.
    pub(crate) fn new(alloc: Global, envelope: Envelope<T>) -> HeldEntry<T>
        ensures { result ≡ envelope }
    {
        HeldEntry {
            digested: Digested::new(alloc, envelope),
        }
    }

    /// The entry.
    pub(crate) fn envelope(&self) -> &Envelope<T>
        ensures { result.now ≡ self.now }
    {
        self.digested.envelope()
    }

    /// The entry to be changed. Its digest is no longer kept.
    pub(crate) fn change(&mut self) -> &mut Envelope<T>
        ensures* writes_back { sem 𝓛 (Lends (held.the_row T.row T.Kind.row T.Op.row T.Delta.row T.Replica) (entry.the_row T.row T.Kind.row T.Op.row T.Delta.row T.Replica) self.entry result (λ now. now)) }
        ensures value { result.now ≡ self.old }
    {
        self.digested.change()
    }

    /// Another entry.
    pub(crate) fn put(&mut self, envelope: Envelope<T>)
        ensures { self.new ≡ envelope }
    {
        *self.change() = envelope;
    }
}

impl<T: SpelledData> HeldEntry<T> {
    ghost use Rattle.std.specs.Prelude.{IfOk};
    ghost use Rattle.model_history.specs.History.{History};
    ghost use Rattle.model_members.specs.Entry.{Entry};
    ghost use Rattle.data_envelope.specs.Images.{StandsFor};
    ghost use Rattle.data_envelope.specs.Words.{parts_of};
    ghost use Rattle.member_node.specs.Digests.{spelled_digest};

    /// The digest, which is made where none is kept.
    pub(crate) fn digest(&self) -> Result<[u8; 20], Memory>
        ensures { (log : History T.Op) (entry : Entry T.Op) → StandsFor T.IsDataOf (parts_of self.now) log entry
            → IfOk result (λ digest. digest ≡ spelled_digest T.Replica T.SpelledData.own self.now entry) }
    {
        self.digested.told()
    }

    /// Keeps the digest. The entry stays.
    pub(crate) fn keep(&mut self) -> Result<(), Memory>
        ensures { self.new ≡ self.old }
    {
        self.digested.keep()
    }
}
