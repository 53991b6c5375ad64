ghost use Rattle.std.specs.Prelude.{◌≡◌, ◌≤◌, length, IsErr, IfOk};
ghost use Rattle.std.specs.Process.{exit_status};
ghost use Rattle.script_reading.specs.declared.clients.Clients.{Clients};
ghost use Rattle.top_call.specs.Status.{code_of};
ghost use Rattle.top_call.specs.Asking.{AskToReadNothing};
ghost use Rattle.top_call.specs.Passages.{traffic};
ghost use Rattle.top_call.specs.Serving.{Exits};

use base_outside::{Sink, Source};
use member_keeper::Keeper;
use std::alloc::{AllocError, Global};
use std::process::ExitCode;
use std::sync::Wait;
use std::thread::Threads;
use top_call::{Status, replicate};

/// How the program ends: with the status of the top call on these words, or for want of memory where the words had none.
///
/// What is read and written, and when, is as the top call says.
pub(crate) fn outcome<R: Threads + Wait + Sync, S: Source, K: Sink, D: Keeper + Drop + Send>(
    rt: &R,
    alloc: Global,
    words: Result<Vec<String>, AllocError>,
    source: &mut S,
    sink: &mut K,
    keepers: Vec<D>,
) -> ExitCode
    requires { length keepers.items ≡ 8 }
    ensures serves { IfOk words (λ words. Exits D.Keeper.own (traffic S.Source.own K.Sink.own source.old source.new sink.old sink.new keepers.items) words.items (exit_status result)) }
    // The source is read for `run`, `plain`, `watch`, `behind`, `trace`, `upgrade` and `check` alone.
    ensures unread { IfOk words (λ words. AskToReadNothing Clients.Allowed words.items → source.new ≡ source.old) }

    // There are no words.
    ensures refused { IsErr words → (exit_status result ≡ code_of Status.Memory) × (source.new ≡ source.old) × (sink.new ≡ sink.old) }

    ensures known { exit_status result ≤ code_of Status.Broken }
{
    match words {
        Ok(words) => {
            let outcome = replicate(rt, alloc, &words, source, sink, keepers);
            ExitCode::from(u8::from(outcome.status))
        }
        Err(_) => ExitCode::from(u8::from(Status::Memory)),
    }
}
