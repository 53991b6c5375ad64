ghost use Rattle.std.specs.Prelude.{◌≡◌};
ghost use Rattle.top_lines.specs.Serving.{Serves};
ghost use Rattle.top_lines.specs.Stops.{stopped_by};

use crate::answering::answer_line;
use crate::lines::next_line;
use crate::stopped::Stopped;
use base_outside::{ReadAllError, Sink, Source, write_all_of};
use data_delta_codec::SpelledDelta;
use member_keeper::Keeper;
use member_node::Node;
use model_kinds::{Kind, Op};
use std::alloc::Global;

/// Why no further line is answered where one is not read.
fn stopped_by(error: ReadAllError) -> Stopped
    ensures { result ≡ stopped_by error }
{
    match error {
        ReadAllError::ReadFailed => Stopped::ReadFailed,
        ReadAllError::TooLong => Stopped::TooLong,
        ReadAllError::Memory => Stopped::Memory,
    }
}

/// Answers the lines of a source, each before the next one is read, until no further one was ended.
///
/// # Errors
///
/// A read or a write failed, a line is too long, or memory was refused. All lines before that one were answered.
pub fn serve<T: SpelledDelta<Kind = Kind, Op = Op>, K: Keeper + Drop, S: Source, W: Sink>(
    alloc: Global,
    member: &mut Node<T, K>,
    source: &mut S,
    sink: &mut W,
) -> Result<(), Stopped>
    ensures { Serves T.SpelledData.own T.SpelledDelta.own member.old member.new (S.left source.old) (S.left source.new) (W.written sink.old) (W.written sink.new) result }
{
    for _line in 0..u64::MAX {
        let line = match next_line(alloc, source) {
            Ok(Some(line)) => line,
            Ok(None) => return Ok(()),
            Err(error) => return Err(stopped_by(error)),
        };
        let text = match answer_line(alloc, member, line.as_slice()) {
            Ok(text) => text,
            Err(_) => return Err(Stopped::Memory),
        };
        match write_all_of(sink, text.as_bytes()) {
            Ok(()) => {}
            Err(_) => return Err(Stopped::WriteFailed),
        }
    }
    Err(Stopped::TooLong)
}
