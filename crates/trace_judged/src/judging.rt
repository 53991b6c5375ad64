ghost use Rattle.std.specs.Prelude.{ℕ, List, IfOk};
ghost use Rattle.trace_checker.specs.Verdicts.{verdict_meant};
ghost use Rattle.trace_judged.specs.Judgements.{SpellsOne, IsJudgement};

use base_bytes::Memory;
use std::alloc::Global;
use trace_checker::{Verdict, check};
use trace_lines::Trace;
use trace_text::{TraceError, read_trace};

/// What is to be said of bytes as a trace.
#[derive(Clone, Copy, Debug, PartialEq, Eq)]
pub enum Judgement {
    /// They are no JSON text.
    NotJson,
    /// The first line, from 1, that has not its form. Line 0 is the object or its keys.
    NotATrace { line: u64 },
    /// The first line, from 1, that breaks a rule, and the least rule, from 1 to 4, that it breaks.
    Broken { line: u64, rule: u8 },
    /// They spell a lawful trace.
    Lawful,
}

/// A verdict as a judgement.
fn of_verdict(verdict: Verdict) -> Judgement
    ensures { (bytes : List ℕ) → SpellsOne bytes (verdict_meant verdict) → IsJudgement bytes result }
{
    match verdict {
        Verdict::Lawful => Judgement::Lawful,
        Verdict::Broken { line, rule } => Judgement::Broken { line, rule },
    }
}

/// What is to be said of the bytes: whether they spell a trace, and whether it is lawful.
///
/// # Errors
///
/// Memory was refused.
pub fn judged(alloc: Global, bytes: &[u8]) -> Result<Judgement, Memory>
    ensures { IfOk result (IsJudgement bytes.now) }
{
    match read_trace(alloc, bytes) {
        Ok(trace) => Ok(of_verdict(check(alloc, &trace)?)),
        Err(TraceError::NotJson) => Ok(Judgement::NotJson),
        Err(TraceError::NotATrace { line }) => Ok(Judgement::NotATrace { line }),
        Err(TraceError::Memory) => Err(Memory),
    }
}
