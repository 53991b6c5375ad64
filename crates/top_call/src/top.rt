ghost use Rattle.std.specs.Prelude.{◌≡◌, ◌≤◌, length};
ghost use Rattle.script_reading.specs.declared.clients.Clients.{Clients};
ghost use Rattle.top_call.specs.Asking.{AskToReadNothing};
ghost use Rattle.top_call.specs.Due.{IsWritten};
ghost use Rattle.top_call.specs.Passages.{writing, traffic};
ghost use Rattle.top_call.specs.Serving.{IsDone, Cause, Answers, Returns};

use crate::answer::{Answer, due};
use crate::running::due_with_clients;
use crate::status::Status;
use crate::words::asked_by;
use base_outside::{Sink, Source, write_all_of};
use member_keeper::Keeper;
use script_reading::Clients;
use std::alloc::Global;
use std::sync::Wait;
use std::thread::Threads;

/// How a call ended: its status, and the keepers of the places.
#[derive(Drop)]
pub struct Outcome<D> {
    pub status: Status,
    pub keepers: Vec<D>,
}

/// Writes what is due, and tells how the call ended.
fn written<K: Sink, D>(sink: &mut K, answer: Answer<D>) -> Outcome<D>
    ensures status { IsWritten answer.due (writing K.Sink.own sink.old sink.new) result.status }
    ensures keepers { result.keepers ≡ answer.keepers }
    ensures later { K.faults sink.old ≤ K.faults sink.new }
{
    let Answer { due, keepers } = answer;
    match write_all_of(sink, due.bytes()) {
        Ok(()) => Outcome {
            status: due.status(),
            keepers,
        },
        Err(_) => Outcome {
            status: Status::WriteFailed,
            keepers,
        },
    }
}

/// Does what the words ask for, over a keeper for each place, where no clients are run.
///
/// The words are those behind the program's name. `plain` reads a script without clients from the source, runs it and writes its
/// report to the sink; `watch` does so too, with clients that follow keys and are told of changes when their member flushes; and
/// `behind N` with each keeper inside one that hands it `N` stores together. `gen N` writes a
/// generated script of `N` steps and two, and `sum N` runs it and writes the end of its report. For these two nothing is read.
/// `upgrade` reads a stored entry in format 1 or 2 from the source and writes it in format 2, without a newline. `trace` reads a
/// script without clients and settles, runs it and writes its trace. `check` reads a
/// trace and writes that it is lawful, or the first line that breaks a rule or has not its form. Where what was asked
/// for can't be had it writes one line that says the cause, and nothing where the source failed or memory was refused.
pub fn replicate_plain<S: Source, K: Sink, D: Keeper + Drop>(
    alloc: Global,
    words: &[String],
    source: &mut S,
    sink: &mut K,
    keepers: Vec<D>,
) -> Outcome<D>
    requires { length keepers.items ≡ 8 }
    ensures done { IsDone D.Keeper.own (traffic S.Source.own K.Sink.own source.old source.new sink.old sink.new keepers.items result.keepers.items) Clients.Refused words.now result.status }
    ensures cause { Cause D.Keeper.own (traffic S.Source.own K.Sink.own source.old source.new sink.old sink.new keepers.items result.keepers.items) Clients.Refused words.now result.status }
    ensures answers { Answers D.Keeper.own (traffic S.Source.own K.Sink.own source.old source.new sink.old sink.new keepers.items result.keepers.items) Clients.Refused words.now result.status }
    ensures returns { Returns D.Keeper.own (traffic S.Source.own K.Sink.own source.old source.new sink.old sink.new keepers.items result.keepers.items) Clients.Refused words.now }
    ensures unread { AskToReadNothing Clients.Refused words.now → source.new ≡ source.old }
{
    let asked = asked_by(Clients::Refused, words);
    written(sink, due(alloc, asked, source, keepers))
}

/// Does what the words ask for, over a keeper for each place, as `replicate_plain` does, and serves the word `run` too: it reads a
/// script that may have clients from the source, runs it with the clients of a thread step in threads of the runtime, and writes
/// its report to the sink.
pub fn replicate<R: Threads + Wait + Sync, S: Source, K: Sink, D: Keeper + Drop + Send>(
    rt: &R,
    alloc: Global,
    words: &[String],
    source: &mut S,
    sink: &mut K,
    keepers: Vec<D>,
) -> Outcome<D>
    requires { length keepers.items ≡ 8 }
    ensures done { IsDone D.Keeper.own (traffic S.Source.own K.Sink.own source.old source.new sink.old sink.new keepers.items result.keepers.items) Clients.Allowed words.now result.status }
    ensures cause { Cause D.Keeper.own (traffic S.Source.own K.Sink.own source.old source.new sink.old sink.new keepers.items result.keepers.items) Clients.Allowed words.now result.status }
    ensures answers { Answers D.Keeper.own (traffic S.Source.own K.Sink.own source.old source.new sink.old sink.new keepers.items result.keepers.items) Clients.Allowed words.now result.status }
    ensures returns { Returns D.Keeper.own (traffic S.Source.own K.Sink.own source.old source.new sink.old sink.new keepers.items result.keepers.items) Clients.Allowed words.now }
    ensures unread { AskToReadNothing Clients.Allowed words.now → source.new ≡ source.old }
{
    let asked = asked_by(Clients::Allowed, words);
    written(sink, due_with_clients(rt, alloc, asked, source, keepers))
}
