use base_bytes::Memory;

/// A rule of scripts that is broken, and at which step, from 1. Step 0 is the script as a whole.
#[derive(Clone, Copy, Debug, PartialEq, Eq)]
pub struct Rule {
    pub step: u32,
    pub number: u8,
}

/// Why a value is not read.
#[derive(Clone, Copy, Debug, PartialEq, Eq)]
pub enum Fault {
    Breaks(Rule),
    Memory,
}

impl From<Rule> for Fault {
    ghost use Rattle.std.specs.Prelude.{◌≡◌};
    ghost use Rattle.script_reading.specs.declared.fault.Fault.TheVariants.{Breaks};

    ghost from_gives = { λ rule e. e ≡ Breaks rule };

    fn from(rule: Rule) -> Fault {
        Fault::Breaks(rule)
    }
}

impl From<Memory> for Fault {
    ghost use Rattle.std.specs.Prelude.{◌≡◌};
    ghost use Rattle.script_reading.specs.declared.fault.Fault.TheVariants.{Memory};

    ghost from_gives = { λ _ e. e ≡ Memory };

    fn from(_refused: Memory) -> Fault {
        Fault::Memory
    }
}
