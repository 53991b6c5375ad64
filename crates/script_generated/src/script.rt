ghost use Rattle.std.specs.Prelude.{◌≡◌, ◌++◌, ◌%◌, ◌<◌, ◌≤◌, length, codes, decimal, IfOk};
ghost use Rattle.script_reading.specs.WellFormed.{HasNoClients, IsWellFormed};
ghost use Rattle.script_reading.specs.declared.ask.Ask.TheVariants as asks;
ghost use Rattle.script_reading.specs.declared.script.Step.TheVariants as form;
ghost use Rattle.script_generated.specs.Generated.{item_named, generated_keys, generated_step, generated_script};

use base_bytes::{Items, Memory, Text};
use base_vectors::Id;
use member_quorum::Level;
use model_kinds::{Kind, Moment, Op};
use script_reading::{Ask, RunStep, Script, ScriptKey, Step};
use std::alloc::Global;

/// How many members a generated script has.
pub(crate) const MEMBERS: u32 = 5;

/// How many elements are added and removed in turn.
pub(crate) const ITEMS: u32 = 40;

/// The member whose turn it is.
fn member(turn: u32) -> Id
    ensures { result ≡ turn % MEMBERS }
{
    Id::new((turn % MEMBERS) as u8).unwrap()
}

/// A text, of at most 64 bytes.
fn short(text: &str) -> Text
    requires { length text.now ≤ 64 }
    ensures { result ≡ text.now }
{
    Text::new(text).unwrap()
}

/// The element of this number.
fn item_named(alloc: Global, k: u32) -> Result<Text, Memory>
    requires { k < ITEMS }
    ensures { IfOk result (λ name. name ≡ item_named k) }
{
    let name = format!(in alloc; "item-{k}")?;
    Ok(short(name.as_str()))
}

/// A member is asked for an update of its own.
fn update(at: Id, key: &str, op: Op) -> Step
    requires { length key.now ≤ 64 }
    ensures { result ≡ form.Ask at (asks.Update key.now op Level.Local) }
{
    Step::Ask {
        at,
        ask: Ask::Update {
            key: short(key),
            op,
            level: Level::Local,
        },
    }
}

/// What the last of eight steps writes.
fn note(alloc: Global, i: u32) -> Result<Op, Memory>
    requires { i ≤ 4094 }
    ensures { IfOk result (λ op. op ≡ Op.Assign (codes "n" ++ decimal i) i) }
{
    let text = format!(in alloc; "n{i}")?;
    Ok(Op::Assign {
        text: short(text.as_str()),
        now: Moment::new(u64::from(i)).unwrap(),
    })
}

/// The step of this number.
#[tactic(auto, unfolding(crate::specs::Generated::generated_step))]
fn step(alloc: Global, i: u32) -> Result<RunStep, Memory>
    requires { i ≤ 4094 }
    ensures { IfOk result (λ step. step ≡ generated_step i) }
{
    let at = member(i);
    let step = match i % 8 {
        1 => update(at, "hits", Op::Increment(u64::from(i))),
        2 => update(at, "cart", Op::Add(item_named(alloc, i % ITEMS)?)),
        3 => update(at, "bal", Op::Decrement(u64::from(i))),
        4 => Step::Ask {
            at,
            ask: Ask::Flush,
        },
        5 => update(
            at,
            "cart",
            Op::Remove(item_named(alloc, (7 * i + 7) % ITEMS)?),
        ),
        6 => Step::Ask {
            at,
            ask: Ask::Gossip {
                to: member(i % MEMBERS + 1),
            },
        },
        7 => Step::Round,
        _ => update(at, "note", note(alloc, i)?),
    };
    Ok(RunStep::Plain(step))
}

fn key(name: &str, kind: Kind, durable: bool) -> ScriptKey
    requires { length name.now ≤ 64 }
    ensures { result ≡ record { key = name.now; kind = kind; durable = durable } }
{
    ScriptKey {
        key: short(name),
        kind,
        durable,
    }
}

fn keys(alloc: Global) -> Result<Items<ScriptKey>, Memory>
    ensures { IfOk result (λ keys. keys ≡ generated_keys) }
{
    let mut keys = Items::new(alloc);
    keys.push(key("bal", Kind::PnCounter, false))?;
    keys.push(key("cart", Kind::OrSet, true))?;
    keys.push(key("hits", Kind::GCounter, false))?;
    keys.push(key("note", Kind::LwwRegister, false))?;
    Ok(keys)
}

/// So many generated steps, at most 4,094, and then the two in which a member leaves and all others settle.
///
/// # Errors
///
/// Memory was refused.
pub fn generated(alloc: Global, n: u32) -> Result<Script, Memory>
    requires low { 1 ≤ n }
    requires high { n ≤ 4094 }
    ensures script { IfOk result (λ script. script ≡ generated_script n) }
    ensures bounds { IfOk result IsWellFormed }
    ensures plain { IfOk result HasNoClients }
{
    let mut steps = Items::new(alloc);
    for done in 0..n {
        steps.push(step(alloc, done + 1)?)?;
    }
    steps.push(RunStep::Plain(Step::Remove { id: member(4) }))?;
    steps.push(RunStep::Plain(Step::Settle))?;
    Ok(Script {
        members: MEMBERS as u8,
        keys: keys(alloc)?,
        steps,
    })
}
