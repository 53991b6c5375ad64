ghost use Rattle.std.specs.Prelude.{◌≡◌, IfOk, IfErr};
ghost use Rattle.serde_json.specs.View.{view};
ghost use Rattle.trace_lines.specs.WellFormed.{IsWellFormed};
ghost use Rattle.trace_text.specs.Reading.{trace_of, Reads, Spells, Breaks, HasNoReading, MatchError, ReadsAs};

use crate::fault::Fault;
use crate::fields::array;
use crate::keys::declared;
use crate::lines::all_lines;
use base_bytes::Memory;
use serde_json::Value;
use std::alloc::Global;
use trace_lines::Trace;

/// Why no trace was read.
#[derive(Clone, Copy, Debug, PartialEq, Eq)]
pub enum TraceError {
    /// The bytes are no JSON text.
    NotJson,
    /// The first line, from 1, that has not its form. Line 0 is the object or its keys.
    NotATrace { line: u64 },
    /// Memory was refused.
    Memory,
}

impl From<Memory> for TraceError {
    ghost use Rattle.std.specs.Prelude.{◌≡◌};
    ghost use Rattle.trace_text.specs.declared.read.TraceError.TheVariants as error;

    ghost from_gives = { λ memory e. e ≡ error.Memory };

    fn from(_refused: Memory) -> TraceError {
        TraceError::Memory
    }
}

/// What a value says.
#[tactic(auto, unfolding(crate::specs::Reading::trace_of))]
fn trace(alloc: Global, value: &Value) -> Result<Trace, TraceError>
    ensures value { ReadsAs result (trace_of (view value.now)) }
    ensures bounds { IfOk result IsWellFormed }
{
    let keys = match declared(alloc, value) {
        Ok(keys) => keys,
        Err(Fault::Broken) => return Err(TraceError::NotATrace { line: 0 }),
        Err(Fault::Memory) => return Err(TraceError::Memory),
    };
    let Some(list) = array(value, "lines") else {
        return Err(TraceError::NotATrace { line: 0 });
    };
    let lines = all_lines(alloc, list)?;
    Ok(Trace { keys, lines })
}

/// The JSON value that the bytes are a text of.
fn json(alloc: Global, bytes: &[u8]) -> Result<Value, TraceError>
    ensures value { IfOk result (λ value. Reads bytes.now (view value)) }
    ensures refused { IfErr result (MatchError (HasNoReading bytes.now) (λ line. ⊥)) }
{
    match Value::from_slice(alloc, bytes) {
        Ok(value) => Ok(value),
        Err(error) if error.is_memory() => Err(TraceError::Memory),
        Err(_) => Err(TraceError::NotJson),
    }
}

/// The trace that the bytes spell.
///
/// # Errors
///
/// `NotJson` where the bytes are no JSON text, `NotATrace` with the first line that has not its form, and `Memory` where
/// memory was refused.
pub fn read_trace(alloc: Global, bytes: &[u8]) -> Result<Trace, TraceError>
    ensures trace { IfOk result (Spells bytes.now) }
    ensures bounds { IfOk result IsWellFormed }
    ensures refused { IfErr result (MatchError (HasNoReading bytes.now) (Breaks bytes.now)) }
{
    let value = json(alloc, bytes)?;
    trace(alloc, &value)
}
