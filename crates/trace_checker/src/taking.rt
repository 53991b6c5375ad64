ghost use Rattle.std.specs.Prelude.{◌≡◌, ◌+◌, ◌<◌, ◌≤◌, ◌^◌, ℕ, true, OnOk, IfOk};
ghost use Rattle.model_history.specs.Table.{identity_limit, with_at};
ghost use Rattle.model_history.specs.History.{History, versions, cut, no_records};
ghost use Rattle.model_history.specs.History.Action.{Operation, Prune};
ghost use Rattle.model_kinds.specs.SixKinds.{six_kinds, is_delete};
ghost use Rattle.model_kinds.specs.ShownText.{shown_text};
ghost use Rattle.model_kinds.specs.declared.operation.Op as operations;
ghost use Rattle.base_vectors.specs.Vectors.{number_at};
ghost use Rattle.model_traces.specs.Traces.{covers, recorded, made_after, held_after, may_hold};
ghost use Rattle.trace_lines.specs.Meant.{act_meant};
ghost use Rattle.trace_checker.specs.Rows.{vector_of};
ghost use Rattle.trace_checker.specs.Standing.{AreKept, StandsForKey, IsAdded};

use crate::key_history::KeyHistory;
use crate::prunes::PruneMade;
use crate::rows::{put_vector, vector_of};
use base_bytes::{Items, Memory};
use base_vectors::{Dot, Id, Seq, VersionVector};
use data_meaning::{Action, Record};
use model_kinds::Op;
use std::alloc::Global;
use trace_lines::TraceAct;
use trace_values::{Values, push_row};

/// Whether an operation deletes its key.
fn is_delete(op: &Op) -> bool
    ensures { result ≡ is_delete op.now }
{
    matches!(op, Op::Delete)
}

/// The greatest number of a record.
const LAST_SEQ: Seq = 1 << 62;

impl KeyHistory {
    /// Nothing made and nothing held.
    pub(crate) fn new(alloc: Global) -> KeyHistory
        ensures { StandsForKey result no_records (λ i. no_records) }
    {
        KeyHistory {
            rows: Vec::new(alloc),
            held: Vec::new(alloc),
            prunes: Items::new(alloc),
            deletes: Items::new(alloc),
            values: Values::new(alloc),
        }
    }

    /// How many records of an identity a member holds.
    fn number_of(&self, at: Id, id: Id) -> Seq
        ensures value { result ≡ number_at (vector_of self.now.held.items at) id }
        ensures range { result ≤ 2 ^ 62 }
    {
        match self.held.get(usize::from(at.number())) {
            Some(known) => known.at(id),
            None => 0,
        }
    }

    /// The number of a member's next record. Memory has no room for so many records that there is none.
    fn next_number(&self, at: Id) -> Result<Seq, Memory>
        ensures value { IfOk result (λ number. number ≡ number_at (vector_of self.now.held.items at) at + 1) }
        ensures range { IfOk result (λ number. number ≤ 2 ^ 62) }
    {
        let count = self.number_of(at, at);
        if count < LAST_SEQ {
            Ok(count + 1)
        } else {
            Err(Memory)
        }
    }

    /// Adds a record of a member, whose past is what the member holds, and raises the member's own number.
    fn add(&mut self, alloc: Global, at: Id, number: Seq, action: Action) -> Result<(), Memory>
        requires member { at < identity_limit }
        requires number { (1 ≤ number) × (number ≤ 2 ^ 62) }
        ensures { OnOk result (IsAdded self.old self.new at number action) }
    {
        let past = vector_of(alloc, self.held.as_slice(), at)?;
        let mut now = past.copy(alloc)?;
        now.raise(at, number)?;
        self.values
            .keep(alloc, self.rows.as_slice(), &past, at, number, &action)?;
        let record = Record {
            origin: at,
            number,
            action,
            past,
        };
        push_row(&mut self.rows, alloc, at, record)?;
        put_vector(&mut self.held, alloc, at, now)
    }

    /// A member makes a record of an operation.
    fn record(&mut self, alloc: Global, at: Id, op: &Op) -> Result<(), Memory>
        requires { at < identity_limit }
        ensures { OnOk result ((made : History operations.Op) (held : ℕ → History operations.Op) → StandsForKey self.old made held → AreKept made held
            → StandsForKey self.new (recorded made at (held at) (Operation op.now)) (with_at held at (recorded (held at) at (held at) (Operation op.now)))) }
    {
        let number = self.next_number(at)?;
        self.add(alloc, at, number, Action::Operation(op.copied()))?;
        let deletes = is_delete(op);
        if deletes {
            self.deletes.push(Dot {
                origin: at,
                seq: number,
            })
        } else {
            Ok(())
        }
    }

    /// A member makes a record that prunes an identity.
    fn prune(&mut self, alloc: Global, at: Id, removed: Id) -> Result<(), Memory>
        requires { at < identity_limit }
        ensures { OnOk result ((made : History operations.Op) (held : ℕ → History operations.Op) → StandsForKey self.old made held → AreKept made held
            → StandsForKey self.new (recorded made at (held at) (Prune removed)) (with_at held at (recorded (held at) at (held at) (Prune removed)))) }
    {
        let number = self.next_number(at)?;
        let seen = self.number_of(at, removed);
        self.add(alloc, at, number, Action::Prune(removed))?;
        self.prunes.push(PruneMade {
            origin: at,
            number,
            removed,
            seen,
        })
    }

    /// A member holds so many records of each identity.
    fn hold(&mut self, alloc: Global, at: Id, known: &VersionVector) -> Result<(), Memory>
        ensures { OnOk result ((made : History operations.Op) (held : ℕ → History operations.Op) → StandsForKey self.old made held → AreKept made held → covers (versions made) (number_at known.now) ≡ true
            → StandsForKey self.new made (with_at held at (cut made (number_at known.now)))) }
    {
        let copy = known.copy(alloc)?;
        put_vector(&mut self.held, alloc, at, copy)
    }

    /// Does what a lawful act of a member does.
    ///
    /// # Errors
    ///
    /// Memory was refused.
    pub(crate) fn take(&mut self, alloc: Global, at: Id, act: &TraceAct) -> Result<(), Memory>
        requires { at < identity_limit }
        ensures { OnOk result ((made : History operations.Op) (held : ℕ → History operations.Op) → StandsForKey self.old made held → AreKept made held → may_hold six_kinds shown_text made (held at) (act_meant act.now) ≡ true
            → StandsForKey self.new (made_after made at (held at) (act_meant act.now)) (with_at held at (held_after made at (held at) (act_meant act.now)))) }
    {
        match act {
            TraceAct::Record(op) => self.record(alloc, at, op),
            TraceAct::Prune(removed) => self.prune(alloc, at, *removed),
            TraceAct::Hold(known) => self.hold(alloc, at, known),
            TraceAct::Show(_) => Ok(()),
        }
    }
}
