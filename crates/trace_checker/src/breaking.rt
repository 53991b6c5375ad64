ghost use Rattle.std.specs.Prelude.{◌≡◌, ◌<◌, ℕ, IfOk};
ghost use Rattle.model_history.specs.Table.{identity_limit};
ghost use Rattle.model_history.specs.History.{History, versions, IsHistory, cut};
ghost use Rattle.model_history.specs.Log.{IsTakenFrom};
ghost use Rattle.model_kinds.specs.SixKinds.{six_kinds};
ghost use Rattle.model_kinds.specs.ShownText.{shown_text};
ghost use Rattle.model_kinds.specs.declared.operation.Op as operations;
ghost use Rattle.base_vectors.specs.Vectors.{IsNormal, number_at};
ghost use Rattle.model_traces.specs.Traces.{broken_by, may_hold, may_show};
ghost use Rattle.model_traces.specs.Traces.Act.{Holds, Shows};
ghost use Rattle.trace_lines.specs.Meant.{act_meant};
ghost use Rattle.trace_lines.specs.WellFormed.{IsAct};
ghost use Rattle.trace_checker.specs.Rows.{vector_of};
ghost use Rattle.trace_values.specs.Rows.{AreRows};
ghost use Rattle.trace_checker.specs.Standing.{AreKept, StandsForKey, IsToldBy};

use crate::key_history::KeyHistory;
use crate::prunes::{are_exact, has_prune};
use crate::rows::vector_of;
use crate::rules::{
    all_three, are_made, counts_some, first_broken, holds_pasts, may_prune, may_record,
};
use base_bytes::Memory;
use base_vectors::{Id, VersionVector};
use model_kinds::Kind;
use std::alloc::Global;
use trace_lines::{Bytes, TraceAct};

impl KeyHistory {
    /// Whether a member that holds so much may hold this: it covers that, counts what was made, and is closed under past.
    fn may_hold(&self, mine: &VersionVector, known: &VersionVector) -> bool
        requires { IsNormal known.now }
        ensures { (made H : History operations.Op) → AreRows self.now.rows.items made → IsHistory made → IsTakenFrom made H → number_at mine.now ≡ versions H
            → result ≡ may_hold six_kinds shown_text made H (Holds (number_at known.now)) }
    {
        let rows = self.rows.as_slice();
        let covers = known.covers(mine);
        let made = are_made(rows, known);
        let closed = holds_pasts(rows, mine, known);
        all_three(covers, made, closed)
    }

    /// Whether a member that holds so much may show this text: it holds a record, and it is the text of what it holds.
    fn may_show(
        &self,
        alloc: Global,
        kind: Kind,
        mine: &VersionVector,
        text: &Bytes,
    ) -> Result<bool, Memory>
        ensures { (made H : History operations.Op) → IsToldBy self.now made H → number_at mine.now ≡ versions H → IfOk result (λ may. may ≡ may_show six_kinds shown_text kind H (Shows text.now)) }
    {
        let some = counts_some(mine);
        if some {
            let value = self.shown(alloc, kind, mine)?;
            Ok(value.as_bytes() == text.as_slice())
        } else {
            Ok(false)
        }
    }

    /// The least rule that an act of a member breaks.
    ///
    /// # Errors
    ///
    /// Memory was refused.
    pub(crate) fn broken_by(
        &self,
        alloc: Global,
        kind: Kind,
        at: Id,
        act: &TraceAct,
    ) -> Result<Option<u8>, Memory>
        requires act { IsAct act.now }
        requires member { at < identity_limit }
        ensures { (made : History operations.Op) (held : ℕ → History operations.Op) → StandsForKey self.now made held → AreKept made held
            → IfOk result (λ rule. rule ≡ broken_by six_kinds shown_text kind made at (held at) (act_meant act.now)) }
    {
        let mine = vector_of(alloc, self.held.as_slice(), at)?;
        match act {
            TraceAct::Record(op) => {
                let may = may_record(kind, op, self.deletes.as_slice(), &mine);
                let exact = !has_prune(self.prunes.as_slice(), &mine, at);
                Ok(first_broken(may, true, exact, true))
            }
            TraceAct::Prune(removed) => {
                let may = may_prune(self.prunes.as_slice(), &mine, at, *removed);
                let exact = !has_prune(self.prunes.as_slice(), &mine, at);
                Ok(first_broken(may, true, exact, true))
            }
            TraceAct::Hold(known) => {
                let may = self.may_hold(&mine, known);
                let exact = are_exact(self.prunes.as_slice(), known);
                Ok(first_broken(true, may, exact, true))
            }
            TraceAct::Show(text) => {
                let may = self.may_show(alloc, kind, &mine, text)?;
                Ok(first_broken(true, true, true, may))
            }
        }
    }
}
