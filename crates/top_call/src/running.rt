ghost use Rattle.std.specs.Prelude.{◌≡◌, ◌≤◌, length, All, IfSome};
ghost use Rattle.script_reading.specs.declared.clients.Clients.{Clients};
ghost use Rattle.script_reading.specs.WellFormed.{IsAllowed, IsWellFormed};
ghost use Rattle.report_lines.specs.Kept.{AreKept, IsPlayed};
ghost use Rattle.top_call.specs.Answers.{IsReportOver};
ghost use Rattle.top_call.specs.Asking.{IsCounted, ReadsNothing};
ghost use Rattle.top_call.specs.Due.{IsDueFor, IsDue, ComeBack};
ghost use Rattle.top_call.specs.Passages.{reading};
ghost use Rattle.top_call.specs.declared.words.Asked.TheVariants as is_asked;

use crate::answer::{Answer, due, script, told};
use crate::words::Asked;
use base_outside::Source;
use data_value::Data;
use member_keeper::Keeper;
use report_lines::{Played, report_with_clients};
use script_reading::{Clients, Script};
use std::alloc::Global;
use std::sync::Wait;
use std::thread::Threads;
use thread_clients::OpenGate;

/// Plays a script that may have clients over values of the six kinds, and tells its report.
fn play_run<R: Threads + Wait + Sync, K: Keeper + Drop + Send>(
    rt: &R,
    alloc: Global,
    script: &Script,
    keepers: Vec<K>,
) -> Played<K>
    requires script { IsWellFormed script.now }
    requires allowed { All (IsAllowed Clients.Allowed) script.now.steps }
    requires keepers { length keepers.items ≡ 8 }
    ensures { IsPlayed K.Keeper.own (IsReportOver K.Keeper.own) script.now keepers.items result.keepers.items result.ending }
{
    report_with_clients::<Data, K, R, OpenGate>(rt, alloc, &OpenGate, script, keepers)
}

/// What is due where the report of the script on the source is asked for, which may have clients.
fn run_due<R: Threads + Wait + Sync, S: Source, K: Keeper + Drop + Send>(
    rt: &R,
    alloc: Global,
    source: &mut S,
    keepers: Vec<K>,
) -> Answer<K>
    requires { length keepers.items ≡ 8 }
    ensures due { IsDueFor K.Keeper.own (is_asked.Report Clients.Allowed) (reading S.Source.own source.old source.new) keepers.items result.keepers.items result.due }
    ensures kept { AreKept K.Keeper.own keepers.items result.keepers.items }
    ensures later { S.faults source.old ≤ S.faults source.new }
{
    match script(alloc, Clients::Allowed, source) {
        Ok(script) => told(alloc, play_run(rt, alloc, &script, keepers)),
        Err(due) => Answer { due, keepers },
    }
}

/// What is due for what was asked, the bytes of the source and the keepers.
pub(crate) fn due_with_clients<R: Threads + Wait + Sync, S: Source, K: Keeper + Drop + Send>(
    rt: &R,
    alloc: Global,
    asked: Option<Asked>,
    source: &mut S,
    keepers: Vec<K>,
) -> Answer<K>
    requires counted { IfSome asked IsCounted }
    requires keepers { length keepers.items ≡ 8 }
    ensures due { IsDue K.Keeper.own asked (reading S.Source.own source.old source.new) keepers.items result.keepers.items result.due }
    ensures kept { ComeBack K.Keeper.own asked keepers.items result.keepers.items }
    ensures unread { ReadsNothing asked → source.new ≡ source.old }
    ensures later { S.faults source.old ≤ S.faults source.new }
{
    match asked {
        Some(Asked::Report(Clients::Allowed)) => run_due(rt, alloc, source, keepers),
        asked => due(alloc, asked, source, keepers),
    }
}
