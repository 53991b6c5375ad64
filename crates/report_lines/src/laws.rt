ghost use Rattle.std.specs.Prelude.{◌≢◌, List, map, AllPairs, IsPermutation};
ghost use Rattle.base_bytes.specs.TextOrder.{IsRising};
ghost use Rattle.script_reading.specs.declared.script.ScriptKey.{ScriptKey};
ghost use Rattle.report_lines.specs.Run.{in_order};

/// The keys of a report are those that its script declares, each once, and where these differ their names rise.
pub fn keys_rise()
    ensures rise { (keys : List ScriptKey) → AllPairs (λ a b. a.key ≢ b.key) keys → IsRising (map (λ key. key.key) (in_order keys)) }
    ensures same { (keys : List ScriptKey) → IsPermutation keys (in_order keys) }
{}
