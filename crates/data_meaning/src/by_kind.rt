ghost use Rattle.std.specs.Prelude.{◌≡◌, IfOk, pos, neg_ℤ, ◌+ℤ◌};
ghost use Rattle.model_history.specs.History.{History};
ghost use Rattle.model_kinds.specs.SixKinds as kinds;
ghost use Rattle.model_kinds.specs.declared.shown.Shown.TheVariants.{Signed};
ghost use Rattle.data_meaning.specs.Records.{AreRecordsOf, AreInOrder};

use crate::counts::{decrements, increments};
use crate::deletes::is_deleted;
use crate::elements::{added_elements, live_elements};
use crate::record::Record;
use crate::switches::is_on;
use crate::timestamps::winning_text;
use base_bytes::{Items, Memory};
use model_kinds::{Kind, Op, Shown};
use std::alloc::Global;

/// A sum as a signed number. Memory has no room for so many records that it isn't one.
fn signed(sum: u128) -> Result<i128, Memory>
    ensures { IfOk result (λ number. number ≡ pos sum) }
{
    match i128::try_from(sum) {
        Ok(number) => Ok(number),
        Err(_) => Err(Memory),
    }
}

/// What a sum comes to where another is taken from it.
fn difference(added: u128, taken: u128) -> Result<Shown, Memory>
    ensures { IfOk result (λ shown. shown ≡ Signed (pos added +ℤ neg_ℤ (pos taken))) }
{
    Ok(Shown::Signed(signed(added)? - signed(taken)?))
}

/// The records by origin and then by number.
fn in_order(mut records: Vec<Record>) -> Result<Vec<Record>, Memory>
    ensures { (H : History Op) → AreRecordsOf records.items H → IfOk result (λ sorted. AreInOrder sorted.items H) }
{
    match records.sort_by_key(|one| (one.origin.number(), one.number)) {
        Ok(()) => Ok(records),
        Err(_) => Err(Memory),
    }
}

/// What a history of a kind shows, deletes among its operations. The records are those of the history, each once, in any order.
pub fn meaning(alloc: Global, kind: Kind, records: Vec<Record>) -> Result<Shown, Memory>
    ensures { (H : History Op) → AreRecordsOf records.items H → IfOk result (λ shown. shown ≡ kinds.six_kinds.shown kind H) }
{
    let sorted = in_order(records)?;
    meaning_in_order(alloc, kind, &sorted)
}

/// What a history shows whose records stand by origin and then by number.
fn meaning_in_order(alloc: Global, kind: Kind, records: &[Record]) -> Result<Shown, Memory>
    ensures { (H : History Op) → AreInOrder records.now H → IfOk result (λ shown. shown ≡ kinds.six_kinds.shown kind H) }
{
    if is_deleted(records) {
        return Ok(Shown::Deleted);
    }
    value_in_order(alloc, kind, records)
}

/// The value of a history whose records stand by origin and then by number, where none deletes the key.
fn value_in_order(alloc: Global, kind: Kind, records: &[Record]) -> Result<Shown, Memory>
    ensures { (H : History Op) → AreInOrder records.now H → IfOk result (λ shown. shown ≡ kinds.shown kind H) }
{
    match kind {
        Kind::GCounter => Ok(Shown::Count(increments(records))),
        Kind::PnCounter => difference(increments(records), decrements(records)),
        Kind::GSet => {
            let elements = added_elements(alloc, records)?;
            Ok(Shown::Elements(Items::from_vec(elements)))
        }
        Kind::OrSet => {
            let elements = live_elements(alloc, records)?;
            Ok(Shown::Elements(Items::from_vec(elements)))
        }
        Kind::Flag => Ok(Shown::Switch(is_on(records))),
        Kind::LwwRegister => Ok(Shown::Written(winning_text(alloc, records)?)),
    }
}
