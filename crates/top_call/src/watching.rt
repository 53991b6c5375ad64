ghost use Rattle.std.specs.Prelude.{◌≡◌, ◌≤◌, length, All};
ghost use Rattle.script_reading.specs.declared.clients.Clients.{Clients};
ghost use Rattle.script_reading.specs.WellFormed.{IsAllowed, IsWellFormed};
ghost use Rattle.report_lines.specs.Kept.{AreKept, IsPlayed};
ghost use Rattle.top_call.specs.Answers.{IsWatchOver};
ghost use Rattle.top_call.specs.Due.{IsDueFor};
ghost use Rattle.top_call.specs.Passages.{reading};
ghost use Rattle.top_call.specs.declared.words.Asked.TheVariants as is_asked;

use crate::answer::{Answer, script, told};
use base_outside::Source;
use data_value::Data;
use member_keeper::Keeper;
use report_followers::report_with_followers;
use report_lines::Played;
use script_reading::{Clients, Script};
use std::alloc::Global;

/// Plays a script whose clients may follow keys over values of the six kinds, and tells its report.
fn play_watched<K: Keeper + Drop>(alloc: Global, script: &Script, keepers: Vec<K>) -> Played<K>
    requires script { IsWellFormed script.now }
    requires following { All (IsAllowed Clients.Following) script.now.steps }
    requires keepers { length keepers.items ≡ 8 }
    ensures { IsPlayed K.Keeper.own (IsWatchOver K.Keeper.own) script.now keepers.items result.keepers.items result.ending }
{
    report_with_followers::<Data, K>(alloc, script, keepers)
}

/// What is due where the report of the script on the source is asked for, whose clients may follow keys.
pub(crate) fn watch_due<S: Source, K: Keeper + Drop>(
    alloc: Global,
    source: &mut S,
    keepers: Vec<K>,
) -> Answer<K>
    requires { length keepers.items ≡ 8 }
    ensures due { IsDueFor K.Keeper.own (is_asked.Report Clients.Following) (reading S.Source.own source.old source.new) keepers.items result.keepers.items result.due }
    ensures kept { AreKept K.Keeper.own keepers.items result.keepers.items }
    ensures later { S.faults source.old ≤ S.faults source.new }
{
    match script(alloc, Clients::Following, source) {
        Ok(script) => told(alloc, play_watched(alloc, &script, keepers)),
        Err(due) => Answer { due, keepers },
    }
}
