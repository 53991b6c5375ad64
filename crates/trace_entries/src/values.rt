ghost use Rattle.std.specs.Prelude.{◌≡◌, [], ◌∷◌, codes, OnOk, IfOk};
ghost use Rattle.model_kinds.specs.ShownText.{shown_text};
ghost use Rattle.model_traces.specs.Runs.{line_of};
ghost use Rattle.model_traces.specs.Traces.Act.{Shows};
ghost use Rattle.trace_lines.specs.Meant.{act_meant};
ghost use Rattle.trace_lines.specs.WellFormed.{IsAct};
ghost use Rattle.trace_lines.specs.declared.trace.TraceAct.TheVariants as act;
ghost use Rattle.trace_recorder.specs.Saw.{IsFormed};
ghost use Rattle.trace_entries.specs.Seeing.{Sees};

use base_bytes::{Items, Memory, Text};
use base_vectors::Id;
use model_kinds::Shown;
use report_texts::push_shown;
use std::alloc::Global;
use trace_lines::{Bytes, TraceAct, TraceLine};
use trace_recorder::Recorder;

/// Sees what a member does with a key.
///
/// # Errors
///
/// Memory was refused.
pub fn see(recorder: &mut Recorder, at: Id, key: &Text, act: TraceAct) -> Result<(), Memory>
    requires { IsAct act }
    ensures saw { OnOk result (Sees recorder.old recorder.new (line_of at key.now (act_meant act) ∷ [])) }
    ensures formed { OnOk result (IsFormed recorder.old → IsFormed recorder.new) }
{
    let key = key.copied();
    recorder.see(TraceLine { at, key, act })
}

/// The bytes of a text.
fn bytes_of(alloc: Global, text: &str) -> Result<Bytes, Memory>
    ensures bytes { IfOk result (λ bytes. bytes ≡ text.now) }
    ensures act { IfOk result (λ bytes. IsAct (act.Show bytes)) }
{
    let mut bytes = Vec::with_capacity(alloc, text.len())?;
    bytes.extend_from_slice(text.as_bytes())?;
    Ok(Items::from_vec(bytes))
}

/// Sees that a member shows this text of a key.
fn see_text(
    recorder: &mut Recorder,
    alloc: Global,
    at: Id,
    key: &Text,
    text: &str,
) -> Result<(), Memory>
    ensures saw { OnOk result (Sees recorder.old recorder.new (line_of at key.now (Shows text.now) ∷ [])) }
    ensures formed { OnOk result (IsFormed recorder.old → IsFormed recorder.new) }
{
    let bytes = bytes_of(alloc, text)?;
    see(recorder, at, key, TraceAct::Show(bytes))
}

/// Sees that a member shows a value of a key.
///
/// # Errors
///
/// Memory was refused.
pub fn see_value(
    recorder: &mut Recorder,
    alloc: Global,
    at: Id,
    key: &Text,
    shown: &Shown,
) -> Result<(), Memory>
    ensures saw { OnOk result (Sees recorder.old recorder.new (line_of at key.now (Shows (shown_text shown.now)) ∷ [])) }
    ensures formed { OnOk result (IsFormed recorder.old → IsFormed recorder.new) }
{
    let mut text = String::new(alloc);
    push_shown(alloc, &mut text, shown)?;
    see_text(recorder, alloc, at, key, text.as_str())
}

/// Sees that a member shows that a key is deleted.
///
/// # Errors
///
/// Memory was refused.
pub fn see_deleted(recorder: &mut Recorder, alloc: Global, at: Id, key: &Text) -> Result<(), Memory>
    ensures saw { OnOk result (Sees recorder.old recorder.new (line_of at key.now (Shows (codes "deleted")) ∷ [])) }
    ensures formed { OnOk result (IsFormed recorder.old → IsFormed recorder.new) }
{
    see_text(recorder, alloc, at, key, "deleted")
}
