ghost use Rattle.std.specs.Prelude.{◌≡◌, length, vec_len, position};
ghost use Rattle.std.specs.Str.{bytes_eq};

use crate::rows::{Row, count_at, empty_rows};
use base_bytes::{Items, Memory, Text};
use script_reading::ScriptKey;
use std::alloc::Global;
use trace_lines::{Keys, Trace, TraceLine, TraceLines};

/// A trace on its way: the declared keys, the lines so far, and what these say that members hold.
#[derive(Drop)]
pub struct Recorder {
    alloc: Global,
    pub(crate) keys: Keys,
    pub(crate) lines: TraceLines,
    /// In the order of the keys.
    pub(crate) rows: Vec<Row>,
    ghost as_many: { vec_len rows ≡ length keys },
}

/// Which of the keys has the name.
fn place_of(keys: &[ScriptKey], name: &Text) -> Option<usize>
    ensures { result ≡ position (λ key. bytes_eq key.key name.now) keys.now }
{
    keys.iter()
        .position(|key| key.key.as_str() == name.as_str())
}

impl Recorder {
    ghost use Rattle.std.specs.Prelude.{◌∷◌, [], ◌++◌, List, map, OnOk, IfOk};
    ghost use Rattle.model_kinds.specs.declared.kind.Kind.{Kind};
    ghost use Rattle.model_kinds.specs.declared.operation.Op.{Op};
    ghost use Rattle.model_members.specs.Node.{KeyDecl};
    ghost use Rattle.model_traces.specs.Traces as model;
    ghost use Rattle.trace_lines.specs.Meant.{key_meant, line_meant};
    ghost use Rattle.trace_lines.specs.WellFormed.{IsAct};
    ghost use Rattle.trace_recorder.specs.Saw.{Saw, IsFormed};

    /// A recorder for these keys, which has seen nothing.
    ///
    /// # Errors
    ///
    /// Memory was refused.
    pub fn new(alloc: Global, keys: Keys) -> Result<Recorder, Memory>
        ensures saw { IfOk result (λ recorder. Saw (map key_meant keys) recorder []) }
        ensures keys { IfOk result (λ recorder. recorder.keys ≡ keys) }
        ensures lines { IfOk result (λ recorder. recorder.lines ≡ []) }
    {
        let rows = empty_rows(alloc, keys.len())?;
        Ok(Recorder {
            alloc,
            keys,
            lines: Items::new(alloc),
            rows,
        })
    }

    /// Sees a line, and tells it where it is news. Of a key that is not declared nothing is told.
    ///
    /// # Errors
    ///
    /// Memory was refused.
    pub fn see(&mut self, line: TraceLine) -> Result<(), Memory>
        requires { IsAct line.act }
        ensures saw { OnOk result ((keys : List (KeyDecl Kind)) (seen : List (model.TraceLine Op)) → Saw keys self.old seen → Saw keys self.new (seen ++ line_meant line ∷ [])) }
        ensures formed { OnOk result (IsFormed self.old → IsFormed self.new) }
    {
        // A member has an identity below the limit.
        let _member = line.at.number();
        let Some(place) = place_of(self.keys.as_slice(), &line.key) else {
            return Ok(());
        };
        if count_at(self.alloc, &mut self.rows, place, line.at, &line.act)? {
            self.lines.push(line)
        } else {
            Ok(())
        }
    }

    /// The trace that was told.
    pub fn into_trace(self) -> Trace
        ensures { result ≡ record { keys = self.keys; lines = self.lines } }
    {
        Trace {
            keys: self.keys,
            lines: self.lines,
        }
    }
}
