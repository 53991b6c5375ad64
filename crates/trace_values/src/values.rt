ghost use Rattle.std.specs.Prelude.{◌≡◌, ◌<◌, ◌≤◌, IfOk, OnOk, pos, neg_ℤ, ◌+ℤ◌};
ghost use Rattle.model_history.specs.Table.{identity_limit};
ghost use Rattle.model_history.specs.History.{History, versions, no_records, IsHistory};
ghost use Rattle.model_history.specs.Log.{IsTakenFrom};
ghost use Rattle.model_kinds.specs.SixKinds as kinds;
ghost use Rattle.model_kinds.specs.declared.operation.Op as operations;
ghost use Rattle.model_kinds.specs.declared.kind.Kind.TheVariants.{GCounter, PnCounter, GSet, OrSet, Flag, LwwRegister};
ghost use Rattle.model_kinds.specs.declared.shown.Shown.TheVariants.{Signed};
ghost use Rattle.base_vectors.specs.Vectors.{number_at};
ghost use Rattle.trace_values.specs.Rows.{AreRows};
ghost use Rattle.trace_values.specs.Standing.{StandForValues, KeepsOneMore, OfWhatIsCounted};

use crate::sets::{Element, added, live, push_elements};
use crate::sums::{Sums, push_sums, sums_of};
use crate::writes::{LastWrite, push_write, winning_text};
use base_bytes::{Items, Memory};
use base_vectors::{Id, Seq, VersionVector};
use data_meaning::{Action, Record};
use model_kinds::{Kind, Shown};
use std::alloc::Global;

/// What is kept of the records of a key, so that it can be told what a part of them means.
#[derive(Drop)]
pub struct Values {
    /// For each record what it and those before it of its identity come to.
    pub(crate) sums: Vec<Items<Sums>>,
    /// For each record which of it and those before it of its identity is the last write.
    pub(crate) writes: Vec<Items<LastWrite>>,
    /// The elements that records name, in byte order, and which of the records touch and add them.
    pub(crate) elements: Vec<Element>,
}

/// A sum as a signed number. Memory has no room for so many records that it isn't one.
fn signed(sum: u128) -> Result<i128, Memory>
    ensures { IfOk result (λ number. number ≡ pos sum) }
{
    match i128::try_from(sum) {
        Ok(number) => Ok(number),
        Err(_) => Err(Memory),
    }
}

/// What a sum comes to where another is taken from it.
fn difference(added: u128, taken: u128) -> Result<Shown, Memory>
    ensures { IfOk result (λ shown. shown ≡ Signed (pos added +ℤ neg_ℤ (pos taken))) }
{
    Ok(Shown::Signed(signed(added)? - signed(taken)?))
}

impl Values {
    /// What is kept of no records.
    pub fn new(alloc: Global) -> Values
        ensures { StandForValues result no_records }
    {
        Values {
            sums: Vec::new(alloc),
            writes: Vec::new(alloc),
            elements: Vec::new(alloc),
        }
    }

    /// Keeps one more record of an identity, which has this number and this past. The rows are those of the records before it.
    ///
    /// # Errors
    ///
    /// Memory was refused.
    pub fn keep(
        &mut self,
        alloc: Global,
        rows: &[Items<Record>],
        past: &VersionVector,
        id: Id,
        number: Seq,
        action: &Action,
    ) -> Result<(), Memory>
        requires member { id < identity_limit }
        requires number { 1 ≤ number }
        ensures { OnOk result (KeepsOneMore self.old self.new rows.now past.now id number action.now) }
    {
        push_sums(&mut self.sums, alloc, id, number, action)?;
        push_write(&mut self.writes, alloc, id, number, past, action)?;
        push_elements(&mut self.elements, alloc, rows, past, id, number, action)
    }

    /// The sum of a growing counter.
    fn count(&self, known: &VersionVector) -> Result<Shown, Memory>
        ensures { (made H : History operations.Op) → StandForValues self.now made → IsTakenFrom made H → number_at known.now ≡ versions H → IfOk result (λ shown. shown ≡ kinds.shown GCounter H) }
    {
        let sums = sums_of(self.sums.as_slice(), known)?;
        Ok(Shown::Count(sums.added))
    }

    /// The sum of a counter that moves both ways.
    fn balance(&self, known: &VersionVector) -> Result<Shown, Memory>
        ensures { (made H : History operations.Op) → StandForValues self.now made → IsTakenFrom made H → number_at known.now ≡ versions H → IfOk result (λ shown. shown ≡ kinds.shown PnCounter H) }
    {
        let sums = sums_of(self.sums.as_slice(), known)?;
        difference(sums.added, sums.taken)
    }

    /// Whether a flag is on.
    fn switch(&self, known: &VersionVector) -> Result<Shown, Memory>
        ensures { (made H : History operations.Op) → StandForValues self.now made → IsTakenFrom made H → number_at known.now ≡ versions H → IfOk result (λ shown. shown ≡ kinds.shown Flag H) }
    {
        let sums = sums_of(self.sums.as_slice(), known)?;
        Ok(Shown::Switch(sums.enabled))
    }

    /// The text of a register.
    fn written(&self, rows: &[Items<Record>], known: &VersionVector) -> Shown
        ensures { (made H : History operations.Op) → StandForValues self.now made → AreRows rows.now made → IsHistory made → IsTakenFrom made H → number_at known.now ≡ versions H → result ≡ kinds.shown LwwRegister H }
    {
        Shown::Written(winning_text(rows, self.writes.as_slice(), known))
    }

    /// The elements of a set that only grows.
    fn growing(&self, alloc: Global, known: &VersionVector) -> Result<Shown, Memory>
        ensures { (made H : History operations.Op) → StandForValues self.now made → IsHistory made → IsTakenFrom made H → number_at known.now ≡ versions H → IfOk result (λ shown. shown ≡ kinds.shown GSet H) }
    {
        let elements = added(self.elements.as_slice(), alloc, known)?;
        Ok(Shown::Elements(elements))
    }

    /// The elements of a set of which elements are removed.
    fn lasting(
        &self,
        alloc: Global,
        rows: &[Items<Record>],
        known: &VersionVector,
    ) -> Result<Shown, Memory>
        ensures { (made H : History operations.Op) → StandForValues self.now made → AreRows rows.now made → IsHistory made → IsTakenFrom made H → number_at known.now ≡ versions H → IfOk result (λ shown. shown ≡ kinds.shown OrSet H) }
    {
        let elements = live(self.elements.as_slice(), alloc, rows, known)?;
        Ok(Shown::Elements(elements))
    }

    /// What the records mean that a vector counts, where none of them deletes the key.
    ///
    /// # Errors
    ///
    /// Memory was refused.
    pub fn value(
        &self,
        alloc: Global,
        kind: Kind,
        rows: &[Items<Record>],
        known: &VersionVector,
    ) -> Result<Shown, Memory>
        ensures { OfWhatIsCounted self.now rows.now known.now (λ H. IfOk result (λ shown. shown ≡ kinds.six_kinds.shown kind H)) }
    {
        match kind {
            Kind::GCounter => self.count(known),
            Kind::PnCounter => self.balance(known),
            Kind::Flag => self.switch(known),
            Kind::LwwRegister => Ok(self.written(rows, known)),
            Kind::GSet => self.growing(alloc, known),
            Kind::OrSet => self.lasting(alloc, rows, known),
        }
    }
}
