ghost use Rattle.std.specs.Prelude.{◌≡◌, ◌≢◌, ◌≤◌, Some, None, length, All, IfOk, IfErr, IfSome};
ghost use Rattle.script_reading.specs.declared.clients.Clients.{Clients};
ghost use Rattle.script_reading.specs.WellFormed.{HasNoClients, IsAllowed, IsWellFormed};
ghost use Rattle.report_lines.specs.Kept.{AreKept, IsPlayed};
ghost use Rattle.top_call.specs.Answers.{HasScript, IsReportOver, IsSummaryOver};
ghost use Rattle.top_call.specs.Asking.{Reads, IsCounted, ReadsNothing, reads_in, most_steps};
ghost use Rattle.top_call.specs.Due.{IsUnread, IsFaultDue, IsRefusal, IsToldBy, IsScriptDue, IsDueFor, IsDue, ComeBack};
ghost use Rattle.top_call.specs.Passages.{Passage, ReadsWhole, reading};
ghost use Rattle.top_call.specs.declared.words.Asked.TheVariants as is_asked;

use crate::behind::behind_due;
use crate::checking::check_due;
use crate::due::Due;
use crate::tracing::trace_due;
use crate::upgrading::upgrade_due;
use crate::watching::watch_due;
use crate::words::Asked;
use base_outside::{ReadAllError, Source, read_all};
use data_value::Data;
use member_keeper::Keeper;
use report_lines::{Ending, Played, report, summary};
use script_generated::{generated, generated_text};
use script_reading::{Clients, Script, ScriptError, read_script};
use std::alloc::Global;

/// The most bytes that are read.
const LIMIT: usize = 8_388_608;

/// What is due, and the keepers of the places.
#[derive(Drop)]
pub struct Answer<K> {
    pub due: Due,
    pub keepers: Vec<K>,
}

/// The bytes of the source, or what is due in their place.
pub(crate) fn bytes_of<S: Source>(alloc: Global, source: &mut S) -> Result<Vec<u8>, Due>
    ensures read { IfOk result (λ bytes. ReadsWhole (reading S.Source.own source.old source.new) bytes.items) }
    ensures refused { IfErr result (IsUnread (reading S.Source.own source.old source.new)) }
    ensures later { S.faults source.old ≤ S.faults source.new }
{
    match read_all(alloc, source, LIMIT) {
        Ok(bytes) => Ok(bytes),
        Err(ReadAllError::ReadFailed) => Err(Due::ReadFailed),
        Err(ReadAllError::TooLong) => Err(Due::TooLong),
        Err(ReadAllError::Memory) => Err(Due::Memory),
    }
}

/// What is due where the bytes are no script.
fn due_of(alloc: Global, error: ScriptError) -> Due
    ensures { IsFaultDue error result }
{
    match error {
        ScriptError::NotJson => Due::NotJson,
        ScriptError::NotAScript { step, rule } => {
            match format!(in alloc; "not a script: step {step} rule {rule}\n") {
                Ok(text) => Due::NotAScript(text),
                Err(_) => Due::Memory,
            }
        }
        ScriptError::Memory => Due::Memory,
    }
}

/// The script on the source, with clients where these are allowed, or what is due in its place.
#[tactic(auto, using(crate::proofs::Refusals::unread_refuses, crate::proofs::Refusals::fault_refuses))]
pub(crate) fn script<S: Source>(
    alloc: Global,
    clients: Clients,
    source: &mut S,
) -> Result<Script, Due>
    ensures script { IfOk result (HasScript clients (reading S.Source.own source.old source.new)) }
    ensures bounds { IfOk result IsWellFormed }
    ensures allowed { IfOk result (λ script. All (IsAllowed clients) script.steps) }
    ensures refused { IfErr result (IsRefusal (Reads.AScript clients) (reading S.Source.own source.old source.new)) }
    ensures later { S.faults source.old ≤ S.faults source.new }
{
    let bytes = match bytes_of(alloc, source) {
        Ok(bytes) => bytes,
        Err(due) => return Err(due),
    };
    match read_script(alloc, clients, &bytes) {
        Ok(script) => Ok(script),
        Err(error) => Err(due_of(alloc, error)),
    }
}

/// What is due for a run that ended so.
fn ending_due(alloc: Global, ending: Ending) -> Due
    ensures { IsToldBy ending result }
{
    match ending {
        Ending::Told(text) => Due::Fulfilled(text),
        Ending::NotCleared(place) => match format!(in alloc; "store failed at {place}\n") {
            Ok(text) => Due::NotCleared(text),
            Err(_) => Due::Memory,
        },
        Ending::Memory => Due::Memory,
    }
}

/// What is due for a script's run, and its keepers.
pub(crate) fn told<K>(alloc: Global, played: Played<K>) -> Answer<K>
    ensures due { IsToldBy played.ending result.due }
    ensures keepers { result.keepers ≡ played.keepers }
{
    let Played { ending, keepers } = played;
    Answer {
        due: ending_due(alloc, ending),
        keepers,
    }
}

/// Plays a script without clients over values of the six kinds, and tells its report.
pub(crate) fn play<K: Keeper + Drop>(alloc: Global, script: &Script, keepers: Vec<K>) -> Played<K>
    requires script { IsWellFormed script.now }
    requires plain { HasNoClients script.now }
    requires keepers { length keepers.items ≡ 8 }
    ensures { IsPlayed K.Keeper.own (IsReportOver K.Keeper.own) script.now keepers.items result.keepers.items result.ending }
{
    report::<Data, K>(alloc, script, keepers)
}

/// Plays a script without clients over values of the six kinds, and tells the end of its report.
fn play_to_the_end<K: Keeper + Drop>(alloc: Global, script: &Script, keepers: Vec<K>) -> Played<K>
    requires script { IsWellFormed script.now }
    requires plain { HasNoClients script.now }
    requires keepers { length keepers.items ≡ 8 }
    ensures { IsPlayed K.Keeper.own (IsSummaryOver K.Keeper.own) script.now keepers.items result.keepers.items result.ending }
{
    summary::<Data, K>(alloc, script, keepers)
}

/// What is due where the report of the script on the source is asked for, which may have no clients.
fn report_due<S: Source, K: Keeper + Drop>(
    alloc: Global,
    source: &mut S,
    keepers: Vec<K>,
) -> Answer<K>
    requires { length keepers.items ≡ 8 }
    ensures due { IsDueFor K.Keeper.own (is_asked.Report Clients.Refused) (reading S.Source.own source.old source.new) keepers.items result.keepers.items result.due }
    ensures kept { AreKept K.Keeper.own keepers.items result.keepers.items }
    ensures later { S.faults source.old ≤ S.faults source.new }
{
    match script(alloc, Clients::Refused, source) {
        Ok(script) => told(alloc, play(alloc, &script, keepers)),
        Err(due) => Answer { due, keepers },
    }
}

/// What is due where a generated script is asked for.
fn script_due(alloc: Global, n: u32) -> Due
    requires low { 1 ≤ n }
    requires high { n ≤ most_steps }
    ensures { IsScriptDue n result }
{
    match generated_text(alloc, n) {
        Ok(text) => Due::Fulfilled(text),
        Err(_) => Due::Memory,
    }
}

/// What is due where the end of a generated script's run is asked for.
fn summary_due<K: Keeper + Drop>(alloc: Global, n: u32, keepers: Vec<K>) -> Answer<K>
    requires low { 1 ≤ n }
    requires high { n ≤ most_steps }
    requires keepers { length keepers.items ≡ 8 }
    ensures due { (read : Passage) → IsDueFor K.Keeper.own (is_asked.Summarize n) read keepers.items result.keepers.items result.due }
    ensures kept { AreKept K.Keeper.own keepers.items result.keepers.items }
{
    match generated(alloc, n) {
        Ok(script) => told(alloc, play_to_the_end(alloc, &script, keepers)),
        Err(_) => Answer {
            due: Due::Memory,
            keepers,
        },
    }
}

/// What is due for this, the bytes of the source and the keepers, if no script with clients is asked for.
fn due_for<S: Source, K: Keeper + Drop>(
    alloc: Global,
    asked: Asked,
    source: &mut S,
    keepers: Vec<K>,
) -> Answer<K>
    requires plain { asked ≢ is_asked.Report Clients.Allowed }
    requires counted { IsCounted asked }
    requires keepers { length keepers.items ≡ 8 }
    ensures due { IsDueFor K.Keeper.own asked (reading S.Source.own source.old source.new) keepers.items result.keepers.items result.due }
    ensures kept { ComeBack K.Keeper.own (Some asked) keepers.items result.keepers.items }
    ensures unread { reads_in asked ≡ None → source.new ≡ source.old }
    ensures later { S.faults source.old ≤ S.faults source.new }
{
    match asked {
        Asked::Report(Clients::Refused) => report_due(alloc, source, keepers),
        Asked::Report(Clients::Allowed) => unreachable!(),
        Asked::Report(Clients::Following) => watch_due(alloc, source, keepers),
        Asked::Generate(n) => Answer {
            due: script_due(alloc, n),
            keepers,
        },
        Asked::Summarize(n) => summary_due(alloc, n, keepers),
        Asked::Behind(n) => behind_due(alloc, n, source, keepers),
        Asked::Upgrade => upgrade_due(alloc, source, keepers),
        Asked::Trace => trace_due(alloc, source, keepers),
        Asked::Check => check_due(alloc, source, keepers),
    }
}

/// What is due for what was asked, the bytes of the source and the keepers, if no script with clients was asked for.
pub(crate) fn due<S: Source, K: Keeper + Drop>(
    alloc: Global,
    asked: Option<Asked>,
    source: &mut S,
    keepers: Vec<K>,
) -> Answer<K>
    requires plain { asked ≢ Some (is_asked.Report Clients.Allowed) }
    requires counted { IfSome asked IsCounted }
    requires keepers { length keepers.items ≡ 8 }
    ensures due { IsDue K.Keeper.own asked (reading S.Source.own source.old source.new) keepers.items result.keepers.items result.due }
    ensures kept { ComeBack K.Keeper.own asked keepers.items result.keepers.items }
    ensures unread { ReadsNothing asked → source.new ≡ source.old }
    ensures later { S.faults source.old ≤ S.faults source.new }
{
    match asked {
        Some(asked) => due_for(alloc, asked, source, keepers),
        None => Answer {
            due: Due::BadWords,
            keepers,
        },
    }
}
