ghost use Rattle.std.specs.Prelude.{◌≡◌, string_bytes, IfOk};
ghost use Rattle.model_history.specs.History.{History, versions};
ghost use Rattle.model_kinds.specs.SixKinds.{six_kinds};
ghost use Rattle.model_kinds.specs.ShownText.{shown_text};
ghost use Rattle.model_kinds.specs.declared.operation.Op as operations;
ghost use Rattle.base_vectors.specs.Vectors.{number_at};
ghost use Rattle.trace_checker.specs.Standing.{IsToldBy};

use crate::key_history::KeyHistory;
use crate::prunes::has_delete;
use base_bytes::Memory;
use base_vectors::VersionVector;
use model_kinds::{Kind, Shown};
use report_texts::push_shown;
use std::alloc::Global;

impl KeyHistory {
    /// What the records mean that a vector counts.
    fn meaning(&self, alloc: Global, kind: Kind, known: &VersionVector) -> Result<Shown, Memory>
        ensures { (made H : History operations.Op) → IsToldBy self.now made H → number_at known.now ≡ versions H → IfOk result (λ value. value ≡ six_kinds.shown kind H) }
    {
        let deleted = has_delete(self.deletes.as_slice(), known);
        if deleted {
            Ok(Shown::Deleted)
        } else {
            self.values.value(alloc, kind, self.rows.as_slice(), known)
        }
    }

    /// The text of what the records mean that a vector counts.
    pub(crate) fn shown(
        &self,
        alloc: Global,
        kind: Kind,
        known: &VersionVector,
    ) -> Result<String, Memory>
        ensures { (made H : History operations.Op) → IsToldBy self.now made H → number_at known.now ≡ versions H → IfOk result (λ text. string_bytes text ≡ shown_text (six_kinds.shown kind H)) }
    {
        let value = self.meaning(alloc, kind, known)?;
        let mut text = String::new(alloc);
        push_shown(alloc, &mut text, &value)?;
        Ok(text)
    }
}
