ghost use Rattle.std.specs.Prelude.{◌≡◌, ◌++◌, string_bytes, OnOk};
ghost use Rattle.top_lines.specs.Texts.{refusal_text};

use base_bytes::Memory;
use std::alloc::AllocError;

/// Why a line asks a member for nothing.
#[derive(Clone, Copy, Debug, PartialEq, Eq)]
pub enum Refusal {
    /// It is no JSON text, and begins neither as bytes that came nor as a view.
    NotJson,
    /// It is a JSON text that breaks this rule of the steps of scripts.
    NotAStep(u8),
    /// No member makes such a step by itself.
    NotOfAMember,
    /// Another member is to make the step.
    OfAnother,
    /// Bytes came, and no identity stands before them.
    NoSender,
    /// The bytes are not in hexadecimal digits.
    NotHex,
    /// The bytes spell no message: the place of the first field at fault.
    NotAMessage(usize),
    /// No honest member of the view sends this member the message.
    NotAccepted,
    /// The bytes spell no view: the place of the first field at fault.
    NotAView(usize),
}

/// Why a line was not made an input.
#[derive(Clone, Copy, Debug, PartialEq, Eq)]
pub enum Fault {
    /// It asks for nothing.
    Refused(Refusal),
    /// Memory was refused.
    Memory,
}

impl From<Refusal> for Fault {
    ghost use Rattle.std.specs.Prelude.{◌≡◌};
    ghost use Rattle.top_lines.specs.declared.refusal.Fault.TheVariants.{Refused};

    ghost from_gives = { λ refusal e. e ≡ Refused refusal };

    fn from(refusal: Refusal) -> Fault {
        Fault::Refused(refusal)
    }
}

/// Adds why a line asks for nothing.
pub(crate) fn push_refusal(text: &mut String, refusal: Refusal) -> Result<(), Memory>
    ensures { OnOk result (string_bytes text.new ≡ string_bytes text.old ++ refusal_text refusal) }
{
    match refusal {
        Refusal::NotJson => text.push_str("no json")?,
        Refusal::NotAStep(rule) => write!(text, "no step: rule {rule}")?,
        Refusal::NotOfAMember => text.push_str("no step of a member")?,
        Refusal::OfAnother => text.push_str("a step of another member")?,
        Refusal::NoSender => text.push_str("no sender")?,
        Refusal::NotHex => text.push_str("no hexadecimal digits")?,
        Refusal::NotAMessage(place) => write!(text, "no message: place {place}")?,
        Refusal::NotAccepted => text.push_str("not accepted")?,
        Refusal::NotAView(place) => write!(text, "no view: place {place}")?,
    }
    Ok(())
}
