ghost use Rattle.std.specs.Prelude.{◌≡◌, ◌≢◌, ◌<◌, ℕ, map, length, vec_len, None, Some, AllPairs, IfOk, IfSome};
ghost use Rattle.model_kinds.specs.SixKinds.{six_kinds};
ghost use Rattle.model_kinds.specs.ShownText.{shown_text};
ghost use Rattle.model_kinds.specs.declared.operation.Op as operations;
ghost use Rattle.model_traces.specs.Traces.{TraceState, nothing_traced, verdict, broken_rule, after_line};
ghost use Rattle.trace_lines.specs.Meant.{key_meant, line_meant, trace_meant};
ghost use Rattle.trace_lines.specs.WellFormed.{IsLine, IsWellFormed};
ghost use Rattle.trace_checker.specs.Verdicts.{verdict_meant};
ghost use Rattle.trace_checker.specs.Standing.{StandFor, IsPlaceOf};

use crate::key_history::KeyHistory;
use base_bytes::{Memory, Text};
use script_reading::ScriptKey;
use std::alloc::Global;
use trace_lines::{Trace, TraceLine};

/// What is to be said of a trace.
#[derive(Clone, Copy, Debug, PartialEq, Eq)]
pub enum Verdict {
    /// No line breaks a rule.
    Lawful,
    /// The first line that breaks a rule, from 1, and the least rule that it breaks.
    Broken { line: u64, rule: u8 },
}

/// Which of the keys has the name.
fn place_of(keys: &[ScriptKey], name: &Text) -> Option<usize>
    ensures place { IsPlaceOf keys.now name.now result }
    ensures within { IfSome result (λ place. place < length keys.now) }
{
    for (place, key) in keys.iter().enumerate() {
        if key.key.as_str() == name.as_str() {
            return Some(place);
        }
    }
    None
}

/// Nothing made and nothing held, of each key.
fn begin(alloc: Global, keys: &[ScriptKey]) -> Result<Vec<KeyHistory>, Memory>
    ensures count { IfOk result (λ codes. vec_len codes ≡ length keys.now) }
    ensures stand { IfOk result (λ codes. StandFor keys.now codes.items nothing_traced) }
{
    let mut codes = Vec::new(alloc);
    while codes.len() < keys.len() {
        codes.push(KeyHistory::new(alloc))?;
    }
    Ok(codes)
}

/// The least rule that a line of the key at this place breaks. Where it breaks none, what it does is done.
fn judge_at(
    alloc: Global,
    keys: &[ScriptKey],
    codes: &mut Vec<KeyHistory>,
    place: usize,
    line: &TraceLine,
) -> Result<Option<u8>, Memory>
    requires line { IsLine line.now }
    requires count { vec_len codes.old ≡ length keys.now }
    requires apart { AllPairs (λ a b. a.key ≢ b.key) keys.now }
    requires place { IsPlaceOf keys.now line.now.key (Some place) }
    requires within { place < length keys.now }
    ensures count { vec_len codes.new ≡ length keys.now }
    ensures rule { (state : TraceState operations.Op) → StandFor keys.now codes.old.items state → IfOk result (λ rule. rule ≡ broken_rule six_kinds shown_text (map key_meant keys.now) state (line_meant line.now)) }
    ensures taken { (state : TraceState operations.Op) → StandFor keys.now codes.old.items state → IfOk result (λ rule. rule ≡ None → StandFor keys.now codes.new.items (after_line state (line_meant line.now))) }
{
    let kind = keys[place].kind;
    let code = &mut codes[place];
    let broken = code.broken_by(alloc, kind, line.at, &line.act)?;
    match broken {
        Some(rule) => Ok(Some(rule)),
        None => {
            code.take(alloc, line.at, &line.act)?;
            Ok(None)
        }
    }
}

/// The least rule that a line breaks. Where it breaks none, what it does is done.
fn judge(
    alloc: Global,
    keys: &[ScriptKey],
    codes: &mut Vec<KeyHistory>,
    line: &TraceLine,
) -> Result<Option<u8>, Memory>
    requires line { IsLine line.now }
    requires count { vec_len codes.old ≡ length keys.now }
    requires apart { AllPairs (λ a b. a.key ≢ b.key) keys.now }
    ensures count { vec_len codes.new ≡ length keys.now }
    ensures rule { (state : TraceState operations.Op) → StandFor keys.now codes.old.items state → IfOk result (λ rule. rule ≡ broken_rule six_kinds shown_text (map key_meant keys.now) state (line_meant line.now)) }
    ensures taken { (state : TraceState operations.Op) → StandFor keys.now codes.old.items state → IfOk result (λ rule. rule ≡ None → StandFor keys.now codes.new.items (after_line state (line_meant line.now))) }
{
    match place_of(keys, &line.key) {
        Some(place) => judge_at(alloc, keys, codes, place, line),
        None => Ok(Some(1)),
    }
}

/// Whether a trace is lawful, and else which line breaks which rule first. What is shown is computed from the definitions.
///
/// # Errors
///
/// Memory was refused.
pub fn check(alloc: Global, trace: &Trace) -> Result<Verdict, Memory>
    requires { IsWellFormed trace.now }
    ensures { IfOk result (λ verdict_given. verdict_meant verdict_given ≡ verdict six_kinds shown_text (trace_meant trace.now)) }
{
    let keys = trace.keys.as_slice();
    let mut codes = begin(alloc, keys)?;
    for (place, line) in trace.lines.as_slice().iter().enumerate() {
        if let Some(rule) = judge(alloc, keys, &mut codes, line)? {
            let line = place as u64 + 1;
            return Ok(Verdict::Broken { line, rule });
        }
    }
    Ok(Verdict::Lawful)
}
