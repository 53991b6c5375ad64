ghost use Rattle.std.specs.Prelude.{◌≡◌};
ghost use Rattle.top_lines.specs.Asking.{input_of_ask, input_at, input_of, IsTaken, IsInstalled, Asks};
ghost use Rattle.top_lines.specs.Tellings.{Tells};

use crate::line::Line;
use crate::reading::read_line;
use crate::refusal::{Fault, Refusal};
use base_vectors::Id;
use data_delta_codec::SpelledDelta;
use data_lattice::Replica;
use member_acceptance::accepts;
use member_codec::{CodecError, read_message, read_view};
use member_node::Input;
use member_views::View;
use model_kinds::{Kind, Op};
use script_reading::{Ask, Step};
use std::alloc::Global;

/// The input that a question is, if a member makes a step for it alone.
fn input_of_ask<T: Replica<Kind = Kind, Op = Op>>(ask: Ask) -> Result<Input<T>, Refusal>
    ensures { result ≡ input_of_ask ask }
{
    match ask {
        Ask::Update { key, op, level } => Ok(Input::Update { key, op, level }),
        Ask::Get { key, level } => Ok(Input::Get { key, level }),
        Ask::Flush => Ok(Input::Flush),
        Ask::Gossip { to } => Ok(Input::GossipTo(to)),
        Ask::Tick => Ok(Input::PruneTick),
        Ask::Install { .. } => Err(Refusal::NotOfAMember),
    }
}

/// The input that a step is for the member of this identity.
fn input_of<T: Replica<Kind = Kind, Op = Op>>(id: Id, step: Step) -> Result<Input<T>, Refusal>
    ensures { result ≡ input_of id step }
{
    match step {
        Step::Ask { at, ask } => {
            if at != id {
                drop(ask);
                return Err(Refusal::OfAnother);
            }
            input_of_ask(ask)
        }
        Step::Timeout { at, op } => {
            if at != id {
                return Err(Refusal::OfAnother);
            }
            Ok(Input::Timeout(op))
        }
        _ => Err(Refusal::NotOfAMember),
    }
}

/// The taking of a message that the bytes spell, if an honest member of the view could have sent it.
fn taken<T: SpelledDelta<Kind = Kind, Op = Op>>(
    alloc: Global,
    view: &View,
    id: Id,
    from: Id,
    bytes: &[u8],
) -> Result<Input<T>, Fault>
    ensures { Tells (IsTaken T.Replica T.SpelledData.own T.SpelledDelta.own view.now id from bytes.now) result }
{
    match read_message::<T>(alloc, bytes) {
        Ok(message) => {
            if accepts(view, id, from, &message) {
                Ok(Input::Take { from, message })
            } else {
                drop(message);
                Err(Fault::Refused(Refusal::NotAccepted))
            }
        }
        Err(CodecError::NotASpelling(place)) => Err(Fault::Refused(Refusal::NotAMessage(place))),
        Err(CodecError::Memory) => Err(Fault::Memory),
    }
}

/// The taking up of the view that the bytes spell.
fn installed<T: Replica<Kind = Kind, Op = Op>>(
    alloc: Global,
    bytes: &[u8],
) -> Result<Input<T>, Fault>
    ensures { Tells (IsInstalled bytes.now) result }
{
    match read_view(alloc, bytes) {
        Ok(view) => Ok(Input::Install(view)),
        Err(CodecError::NotASpelling(place)) => Err(Fault::Refused(Refusal::NotAView(place))),
        Err(CodecError::Memory) => Err(Fault::Memory),
    }
}

/// The input that a line asks a member of this view and identity for.
///
/// # Errors
///
/// It asks for nothing, for the reason that comes back, or memory was refused.
pub fn asked<T: SpelledDelta<Kind = Kind, Op = Op>>(
    alloc: Global,
    view: &View,
    id: Id,
    line: &[u8],
) -> Result<Input<T>, Fault>
    ensures { Tells (Asks T.Replica T.SpelledData.own T.SpelledDelta.own view.now id line.now) result }
{
    match read_line(alloc, line)? {
        Line::Asks(step) => Ok(input_of(id, step)?),
        Line::Brings(from, bytes) => taken(alloc, view, id, from, bytes.as_slice()),
        Line::Decides(bytes) => installed(alloc, bytes.as_slice()),
    }
}
