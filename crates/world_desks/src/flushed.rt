ghost use Rattle.std.specs.Prelude.{◌≡◌, List};
ghost use Rattle.std.specs.List.{AllZip};
ghost use Rattle.model_members.specs.Script.{Told};
ghost use Rattle.model_kinds.specs.declared.operation.Op.{Op};
ghost use Rattle.model_kinds.specs.declared.shown.Shown.{Shown};
ghost use Rattle.theorem_watching.specs.Watching.{flushed_by};
ghost use Rattle.world_members.specs.Lines.{IsLine};
ghost use Rattle.world_desks.specs.Flushed.{is_flush, is_done, is_reply_done, flush_of, flushed_in};

use base_vectors::Id;
use member_node::Reply;
use script_reading::Ask;
use world_members::{Answer, Event, Head};

/// Which member made a flush that is done, if that is what the events of a step tell.
pub fn flushed_in(events: &[Event]) -> Option<Id>
    ensures { (told : List (Told Op Shown)) → AllZip IsLine events.now told → result ≡ flushed_by told }
{
    flushed(events)
}

/// The same, by the events alone.
fn flushed(events: &[Event]) -> Option<Id>
    ensures { result ≡ flushed_in events.now }
{
    match events {
        [event] => flush_of(event),
        _ => None,
    }
}

/// Which member made a flush that is done, if the event tells so.
fn flush_of(event: &Event) -> Option<Id>
    ensures { result ≡ flush_of event.now.head event.now.answer }
{
    match &event.head {
        Head::Asked { at, ask } if is_flush(ask) && is_done(&event.answer) => Some(*at),
        _ => None,
    }
}

fn is_flush(ask: &Ask) -> bool
    ensures { result ≡ is_flush ask.now }
{
    matches!(ask, Ask::Flush)
}

fn is_done(answer: &Answer) -> bool
    ensures { result ≡ is_done answer.now }
{
    match answer {
        Answer::Reply(reply) => is_reply_done(reply),
        _ => false,
    }
}

fn is_reply_done(reply: &Reply) -> bool
    ensures { result ≡ is_reply_done reply.now }
{
    matches!(reply, Reply::Done)
}
