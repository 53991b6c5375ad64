ghost use Rattle.std.specs.Prelude.{◌≡◌, ◌+◌, [], length, All, IfOk, IfErr};
ghost use Rattle.serde_json.specs.View.{view, items_view};
ghost use Rattle.trace_lines.specs.WellFormed.{IsLine};
ghost use Rattle.trace_text.specs.Fields.{Gives};
ghost use Rattle.trace_text.specs.Reading.{line_of, lines_after, ReadsAs};

use crate::acts::act;
use crate::fault::Fault;
use crate::fields::{identity, key, text};
use crate::read::TraceError;
use base_bytes::Items;
use serde_json::Value;
use std::alloc::Global;
use trace_lines::TraceLine;

/// A line.
#[tactic(auto, unfolding(crate::specs::Reading::line_of))]
fn one_line(alloc: Global, value: &Value) -> Result<TraceLine, Fault>
    ensures value { Gives (λ line. line) result (line_of (view value.now)) }
    ensures bounds { IfOk result IsLine }
{
    let Some(form) = text(value, "do") else {
        return Err(Fault::Broken);
    };
    let act = act(alloc, value, form)?;
    let Some(at) = identity(value, "at") else {
        return Err(Fault::Broken);
    };
    let Some(key) = key(value, "key") else {
        return Err(Fault::Broken);
    };
    Ok(TraceLine { at, key, act })
}

/// The lines, or the first that is none.
#[tactic(auto, unfolding(crate::specs::Reading::lines_after))]
pub(crate) fn all_lines(alloc: Global, list: &[Value]) -> Result<Items<TraceLine>, TraceError>
    ensures value { ReadsAs result (lines_after [] (items_view list.now)) }
    ensures bounds { IfOk result (All IsLine) }
{
    let mut lines = Items::new(alloc);
    let mut number = 0u64;
    for value in list {
        number += 1;
        match one_line(alloc, value) {
            Ok(line) => lines.push(line)?,
            Err(Fault::Broken) => return Err(TraceError::NotATrace { line: number }),
            Err(Fault::Memory) => return Err(TraceError::Memory),
        }
    }
    Ok(lines)
}
