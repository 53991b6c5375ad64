ghost use Rattle.std.specs.Prelude.{◌≡◌, ◌↔◌, ℕ, List, ◌≤◌, Err, All};
ghost use Rattle.serde_json.specs.Data.{Data};
ghost use Rattle.script_reading.specs.declared.clients.Clients.{Clients};
ghost use Rattle.script_reading.specs.declared.fault.Rule.{Rule};
ghost use Rattle.script_reading.specs.declared.script.Script.{Script};
ghost use Rattle.script_reading.specs.Reading.{script_of, Spells};
ghost use Rattle.script_reading.specs.Rules.{HoldBelow, IsBrokenByStep};
ghost use Rattle.script_reading.specs.WellFormed.{HasNoClients};

/// A script is refused with the first rule that it breaks: one of the script as a whole where those of lower numbers hold,
/// and one of a step where all of the whole hold and each step before that one is read.
pub fn rules_in_order()
    ensures whole { (clients : Clients) (d : Data) (broken : Rule) → script_of clients d ≡ Err broken → broken.step ≡ 0 → HoldBelow broken.number d }
    ensures holds { (clients : Clients) (d : Data) (broken : Rule) → script_of clients d ≡ Err broken → 1 ≤ broken.step → HoldBelow 5 d }
    ensures step { (clients : Clients) (d : Data) (broken : Rule) → script_of clients d ≡ Err broken → 1 ≤ broken.step → IsBrokenByStep clients d broken }
{}

/// Where no clients are allowed, the same bytes spell the same script, if it has none.
pub fn scripts_without_clients()
    ensures { (bytes : List ℕ) (script : Script) → Spells Clients.Refused bytes script ↔ Spells Clients.Allowed bytes script × HasNoClients script }
{}
