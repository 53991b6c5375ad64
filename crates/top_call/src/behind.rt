ghost use Rattle.std.specs.Prelude.{◌≡◌, ◌≤◌, [], length, map, IfOk, IfErr, vec_capacity};
ghost use Rattle.script_reading.specs.WellFormed.{HasNoClients, IsWellFormed};
ghost use Rattle.top_call.specs.Answers.{IsReportBehind};
ghost use Rattle.top_call.specs.Asking.{most_period};
ghost use Rattle.top_call.specs.Behind.{IsPlayedBehind, untold};
ghost use Rattle.top_call.specs.Due.{IsDueFor};
ghost use Rattle.top_call.specs.Passages.{reading};
ghost use Rattle.top_call.specs.Stopping.{gathering, IsHandedOn, AreHandedOn, IsTakenOut};
ghost use Rattle.top_call.specs.declared.words.Asked.TheVariants as is_asked;
ghost use Rattle.report_lines.specs.Kept.{AreKept};

use crate::answer::{Answer, play, script, told};
use base_outside::Source;
use member_keeper::{Keeper, KeeperError};
use member_write_behind::WriteBehind;
use report_lines::{Ending, Played};
use script_reading::{Clients, Script};
use std::alloc::Global;

/// Keepers that write behind, and room for those inside them.
#[derive(Drop)]
struct Wrapped<K: Keeper> {
    keepers: Vec<WriteBehind<K>>,
    room: Vec<K>,
}

/// The keepers inside those that wrote behind.
#[derive(Drop)]
struct Stopped<K> {
    keepers: Vec<K>,
    /// Memory was refused where what was pending was to be handed on.
    refused: bool,
}

/// The keeper inside one that wrote behind.
#[derive(Drop)]
struct Flushed<K> {
    inner: K,
    /// Memory was refused where what was pending was to be handed on.
    refused: bool,
}

/// Puts each keeper inside one that hands it so many stores together. Gives them back where memory is refused.
fn wrap<K: Keeper + Drop>(alloc: Global, period: u8, keepers: Vec<K>) -> Result<Wrapped<K>, Vec<K>>
    requires some { 1 ≤ period }
    requires few { period ≤ most_period }
    ensures gathering { IfOk result (λ wrapped. wrapped.keepers.items ≡ map (gathering period) keepers.items) }
    ensures room { IfOk result (λ wrapped. length keepers.items ≤ vec_capacity wrapped.room) }
    ensures empty { IfOk result (λ wrapped. wrapped.room.items ≡ []) }
    ensures back { IfErr result (λ back. back.items ≡ keepers.items) }
{
    let Ok(room) = Vec::with_capacity(alloc, keepers.len()) else {
        return Err(keepers);
    };
    let Ok(mut wrapped) = Vec::with_capacity(alloc, keepers.len()) else {
        return Err(keepers);
    };
    for keeper in keepers {
        let _ = wrapped.push(WriteBehind::new(alloc, keeper, period));
    }
    Ok(Wrapped {
        keepers: wrapped,
        room,
    })
}

/// Takes the keepers out. What is pending is lost.
fn stop_all<K: Keeper + Drop>(keepers: Vec<WriteBehind<K>>, room: Vec<K>) -> Vec<K>
    requires room { length keepers.items ≤ vec_capacity room }
    requires empty { room.items ≡ [] }
    ensures { result.items ≡ map (λ keeper. keeper.inner) keepers.items }
{
    let mut inner = room;
    for keeper in keepers {
        let _ = inner.push(keeper.stop());
    }
    inner
}

/// Takes a keeper out, after what is pending was handed on to it. That it fails at that ends nothing.
fn flush_one<K: Keeper + Drop>(keeper: WriteBehind<K>) -> Flushed<K>
    ensures { IsHandedOn K.Keeper.own result.refused keeper result.inner }
{
    let mut keeper = keeper;
    match keeper.flush() {
        Ok(()) => Flushed {
            inner: keeper.stop(),
            refused: false,
        },
        Err(KeeperError::Failed) => Flushed {
            inner: keeper.stop(),
            refused: false,
        },
        Err(KeeperError::Memory) => Flushed {
            inner: keeper.stop(),
            refused: true,
        },
    }
}

/// Takes the keepers out in their order, each after what is pending was handed on to it.
fn flush_all<K: Keeper + Drop>(keepers: Vec<WriteBehind<K>>, room: Vec<K>) -> Stopped<K>
    requires room { length keepers.items ≤ vec_capacity room }
    requires empty { room.items ≡ [] }
    ensures { AreHandedOn K.Keeper.own result.refused keepers.items result.keepers.items }
{
    let mut all = room;
    let mut any_refused = false;
    for keeper in keepers {
        let Flushed { inner, refused } = flush_one(keeper);
        any_refused |= refused;
        let _ = all.push(inner);
    }
    Stopped {
        keepers: all,
        refused: any_refused,
    }
}

/// How a run over keepers that write behind ended, and the keepers inside.
fn taken_out<K: Keeper + Drop>(played: Played<WriteBehind<K>>, room: Vec<K>) -> Played<K>
    requires room { length played.keepers.items ≤ vec_capacity room }
    requires empty { room.items ≡ [] }
    ensures { IsTakenOut K.Keeper.own played.ending played.keepers.items result.ending result.keepers.items }
{
    let Played { ending, keepers } = played;
    match ending {
        Ending::Told(text) => {
            let Stopped { keepers, refused } = flush_all(keepers, room);
            let ending = if refused {
                Ending::Memory
            } else {
                Ending::Told(text)
            };
            Played { ending, keepers }
        }
        ending => Played {
            ending,
            keepers: stop_all(keepers, room),
        },
    }
}

/// Plays a script without clients over keepers that write behind, and tells its report. What is pending at its end is handed on.
fn play_behind<K: Keeper + Drop>(
    alloc: Global,
    period: u8,
    script: &Script,
    keepers: Vec<K>,
) -> Played<K>
    requires some { 1 ≤ period }
    requires few { period ≤ most_period }
    requires script { IsWellFormed script.now }
    requires plain { HasNoClients script.now }
    requires keepers { length keepers.items ≡ 8 }
    ensures { IsPlayedBehind K.Keeper.own (IsReportBehind K.Keeper.own) script.now keepers.items result.keepers.items result.ending }
{
    match wrap(alloc, period, keepers) {
        Ok(Wrapped { keepers, room }) => taken_out(play(alloc, script, keepers), room),
        Err(keepers) => Played {
            ending: Ending::Memory,
            keepers,
        },
    }
}

/// What is due where the report of the script on the source is asked for, whose stores are handed on so many together.
pub(crate) fn behind_due<S: Source, K: Keeper + Drop>(
    alloc: Global,
    period: u8,
    source: &mut S,
    keepers: Vec<K>,
) -> Answer<K>
    requires some { 1 ≤ period }
    requires few { period ≤ most_period }
    requires keepers { length keepers.items ≡ 8 }
    ensures due { IsDueFor K.Keeper.own (is_asked.Behind period) (reading S.Source.own source.old source.new) keepers.items result.keepers.items result.due }
    ensures kept { AreKept (untold K.Keeper.own) keepers.items result.keepers.items }
    ensures later { S.faults source.old ≤ S.faults source.new }
{
    match script(alloc, Clients::Refused, source) {
        Ok(script) => told(alloc, play_behind(alloc, period, &script, keepers)),
        Err(due) => Answer { due, keepers },
    }
}
