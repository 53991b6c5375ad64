ghost use Rattle.std.specs.Prelude.{ℕ, ◌≤◌};
ghost use Rattle.script_reading.specs.declared.clients.Clients.{Clients};
ghost use Rattle.script_reading.specs.Reading.{Spells};
ghost use Rattle.script_generated.specs.Generated.{generated_script};
ghost use Rattle.script_generated.specs.Texts.{generated_text};

/// The text of a generated script is read as that script, whether clients are allowed or not.
pub fn reads_back()
    ensures { (clients : Clients) (n : ℕ) → 1 ≤ n → n ≤ 4094 → Spells clients (generated_text n) (generated_script n) }
{}
