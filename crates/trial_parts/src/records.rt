ghost use Rattle.std.specs.Prelude.{◌≡◌, ◌+◌, ◌++◌, ◌∷◌, [], ◌↔◌, IsTrue, IfOk, OnOk, OnErr};
ghost use Rattle.model_history.specs.History.{History};
ghost use Rattle.model_kinds.specs.declared.operation.Op.{Op};
ghost use Rattle.model_kinds.specs.SixKinds as kinds;
ghost use Rattle.base_vectors.specs.Vectors.{number_at, raised};
ghost use Rattle.data_meaning.specs.Records.{AreRecordsOf};
ghost use Rattle.trial_parts.specs.Counting.{is_counted, counted};

use crate::shown::same_shown;
use base_bytes::Memory;
use base_vectors::{Id, VersionVector};
use data_meaning::{Action, Record, meaning};
use model_kinds::{Kind, Shown};
use std::alloc::Global;
use std::test::Fail;

/// No trial makes so many records of one identity.
const MOST_RECORDS: u64 = 1000;

/// The records of a key that members made, in the order in which they were made.
#[derive(Drop)]
pub struct Records {
    alloc: Global,
    kind: Kind,
    records: Vec<Record>,
}

impl Records {
    /// No record of a key of this kind.
    pub fn new(alloc: Global, kind: Kind) -> Records
        ensures kind { result.kind ≡ kind }
        ensures records { result.records.items ≡ [] }
    {
        Records {
            alloc,
            kind,
            records: Vec::new(alloc),
        }
    }

    /// Adds the next record of a member, which has taken these before; then it has taken this one too.
    ///
    /// # Errors
    ///
    /// The member made 1,000 records, or memory was refused.
    pub fn add(&mut self, origin: Id, taken: &mut VersionVector, action: Action) -> Result<(), Fail>
        ensures records { OnOk result (self.new.records.items ≡ self.old.records.items ++ record { origin = origin; number = number_at taken.old origin + 1; action = action; past = taken.old } ∷ []) }
        ensures taken { OnOk result (taken.new ≡ raised taken.old origin (number_at taken.old origin + 1)) }
        ensures kind { self.new.kind ≡ self.old.kind }
    {
        let number = taken.at(origin) + 1;
        if number > MOST_RECORDS {
            return Err("too many records".into());
        }
        let past = taken.copy(self.alloc)?;
        taken.raise(origin, number)?;
        let record = Record {
            origin,
            number,
            action,
            past,
        };
        self.records.push(record).map_err(|_| "memory")?;
        Ok(())
    }

    /// Whether this value is what those of the records mean that a member has taken.
    ///
    /// # Errors
    ///
    /// Memory was refused.
    pub fn mean(&self, taken: &VersionVector, shown: &Shown) -> Result<bool, Memory>
        ensures { (H : History Op) → AreRecordsOf (counted taken.now self.now.records.items) H → IfOk result (λ same. IsTrue same ↔ (shown.now ≡ kinds.six_kinds.shown self.now.kind H)) }
    {
        let records = taken_of(self.alloc, taken, &self.records)?;
        let meant = meaning(self.alloc, self.kind, records)?;
        Ok(same_shown(shown, &meant))
    }
}

/// Whether a record is among those taken.
fn is_taken(taken: &VersionVector, record: &Record) -> bool
    ensures { result ≡ is_counted taken.now record.now }
{
    record.number <= taken.at(record.origin)
}

/// Those of the records that were taken.
fn taken_of(alloc: Global, taken: &VersionVector, records: &[Record]) -> Result<Vec<Record>, Memory>
    ensures { IfOk result (λ those. those.items ≡ counted taken.now records.now) }
{
    let mut those = Vec::new(alloc);
    for record in records {
        if is_taken(taken, record) {
            those.push(copied(alloc, record)?)?;
        }
    }
    Ok(those)
}

/// An equal record.
fn copied(alloc: Global, record: &Record) -> Result<Record, Memory>
    ensures { IfOk result (λ copy. copy ≡ record.now) }
{
    let action = match &record.action {
        Action::Operation(op) => Action::Operation(op.copied()),
        Action::Prune(removed) => Action::Prune(*removed),
    };
    let past = record.past.copy(alloc)?;
    Ok(Record {
        origin: record.origin,
        number: record.number,
        action,
        past,
    })
}
