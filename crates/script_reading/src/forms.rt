ghost use Rattle.std.specs.Prelude.{◌≡◌, codes, map, true, Ok, IfOk};
ghost use Rattle.serde_json.specs.Find.{get};
ghost use Rattle.serde_json.specs.View.{view};
ghost use Rattle.script_reading.specs.Fields.{rule, text_of, is_given};
ghost use Rattle.script_reading.specs.Found.{AreFound};
ghost use Rattle.script_reading.specs.Forms.{update_of, get_of, flush_of, gossip_of, deliver_of, lose_of, round_of, tick_of, timeout_of, remove_of, join_of, restart_of, install_of, settle_of, step_by, plain_of};
ghost use Rattle.script_reading.specs.WellFormed.{IsStep};

use crate::ask::Ask;
use crate::fault::Rule;
use crate::fields::{
    given_names, identity, identity_in, index, key_in, number, place, step_names, text_in,
};
use crate::levels::level;
use crate::named::{Named, named_in};
use crate::operations::{op_named, operation, update_names};
use crate::script::Step;
use serde_json::Value;

#[tactic(auto, unfolding(crate::specs::Forms::update_of))]
fn update(step: u32, named: &Named, more: &[&str]) -> Result<Step, Rule>
    requires { AreFound named.now }
    ensures value { result ≡ update_of (map (λ name. name.now) more.now) step (view named.entry.now.value.now) }
    ensures bounds { IfOk result IsStep }
{
    let rule = Rule { step, number: 5 };
    let Some(form) = op_named(text_in(named.op, rule)?) else {
        return Err(rule);
    };
    update_names(named, form, more, step)?;
    let at = identity_in(named.at, step)?;
    let key = key_in(named.key, Rule { step, number: 8 })?;
    let op = operation(step, form, named)?;
    let level = level(named.level, step)?;
    let ask = Ask::Update { key, op, level };
    Ok(Step::Ask { at, ask })
}

#[tactic(auto, using(crate::proofs::Names::get_names), unfolding(crate::specs::Forms::get_of))]
fn get(step: u32, named: &Named, more: &[&str]) -> Result<Step, Rule>
    requires given { is_given (view named.now.value.now) (codes "do") ≡ true }
    requires found { AreFound named.now }
    ensures value { result ≡ get_of (map (λ name. name.now) more.now) step (view named.entry.now.value.now) }
    ensures bounds { IfOk result IsStep }
{
    let are_given = named.at.is_some() && named.key.is_some();
    let count = if named.level.is_some() { 4 } else { 3 };
    given_names(named.value, are_given, count, more, step)?;
    let at = identity_in(named.at, step)?;
    let key = key_in(named.key, Rule { step, number: 8 })?;
    let level = level(named.level, step)?;
    let ask = Ask::Get { key, level };
    Ok(Step::Ask { at, ask })
}

#[tactic(auto, using(crate::proofs::Names::flush_names), unfolding(crate::specs::Forms::flush_of))]
fn flush(step: u32, named: &Named, more: &[&str]) -> Result<Step, Rule>
    requires given { is_given (view named.now.value.now) (codes "do") ≡ true }
    requires found { AreFound named.now }
    ensures value { result ≡ flush_of (map (λ name. name.now) more.now) step (view named.entry.now.value.now) }
    ensures bounds { IfOk result IsStep }
{
    given_names(named.value, named.at.is_some(), 2, more, step)?;
    let at = identity_in(named.at, step)?;
    Ok(Step::Ask {
        at,
        ask: Ask::Flush,
    })
}

#[tactic(auto, unfolding(crate::specs::Forms::gossip_of))]
fn gossip(step: u32, value: &Value, more: &[&str]) -> Result<Step, Rule>
    ensures value { result ≡ gossip_of (map (λ name. name.now) more.now) step (view value.now) }
    ensures bounds { IfOk result IsStep }
{
    step_names(value, &["at", "do", "to"], &[], more, step)?;
    let at = identity(value, "at", step)?;
    let to = identity(value, "to", step)?;
    let ask = Ask::Gossip { to };
    Ok(Step::Ask { at, ask })
}

#[tactic(auto, unfolding(crate::specs::Forms::deliver_of))]
fn deliver(step: u32, value: &Value) -> Result<Step, Rule>
    ensures value { result ≡ deliver_of step (view value.now) }
    ensures bounds { IfOk result IsStep }
{
    step_names(value, &["do", "from", "to"], &["index"], &[], step)?;
    let from = identity(value, "from", step)?;
    let to = identity(value, "to", step)?;
    let index = index(value, step)?;
    Ok(Step::Deliver { from, to, index })
}

#[tactic(auto, unfolding(crate::specs::Forms::lose_of))]
fn lose(step: u32, value: &Value) -> Result<Step, Rule>
    ensures value { result ≡ lose_of step (view value.now) }
    ensures bounds { IfOk result IsStep }
{
    step_names(value, &["do", "from", "to"], &[], &[], step)?;
    let from = identity(value, "from", step)?;
    let to = identity(value, "to", step)?;
    Ok(Step::Lose { from, to })
}

#[tactic(auto, unfolding(crate::specs::Forms::round_of))]
fn round(step: u32, value: &Value) -> Result<Step, Rule>
    ensures value { result ≡ round_of step (view value.now) }
    ensures bounds { IfOk result IsStep }
{
    step_names(value, &["do"], &[], &[], step)?;
    Ok(Step::Round)
}

#[tactic(auto, unfolding(crate::specs::Forms::tick_of))]
fn tick(step: u32, value: &Value, more: &[&str]) -> Result<Step, Rule>
    ensures value { result ≡ tick_of (map (λ name. name.now) more.now) step (view value.now) }
    ensures bounds { IfOk result IsStep }
{
    step_names(value, &["at", "do"], &[], more, step)?;
    let at = identity(value, "at", step)?;
    Ok(Step::Ask { at, ask: Ask::Tick })
}

#[tactic(auto, unfolding(crate::specs::Forms::timeout_of))]
fn timeout(step: u32, value: &Value) -> Result<Step, Rule>
    ensures value { result ≡ timeout_of step (view value.now) }
    ensures bounds { IfOk result IsStep }
{
    step_names(value, &["at", "do", "op"], &[], &[], step)?;
    let at = identity(value, "at", step)?;
    let op = u64::from(number(value, "op", step)?);
    Ok(Step::Timeout { at, op })
}

#[tactic(auto, unfolding(crate::specs::Forms::remove_of))]
fn remove(step: u32, value: &Value) -> Result<Step, Rule>
    ensures value { result ≡ remove_of step (view value.now) }
    ensures bounds { IfOk result IsStep }
{
    step_names(value, &["do", "id"], &[], &[], step)?;
    let id = identity(value, "id", step)?;
    Ok(Step::Remove { id })
}

#[tactic(auto, unfolding(crate::specs::Forms::join_of))]
fn join(step: u32, value: &Value) -> Result<Step, Rule>
    ensures value { result ≡ join_of step (view value.now) }
    ensures bounds { IfOk result IsStep }
{
    step_names(value, &["do", "place"], &[], &[], step)?;
    let place = place(value, step)?;
    Ok(Step::Join { place })
}

#[tactic(auto, unfolding(crate::specs::Forms::restart_of))]
fn restart(step: u32, value: &Value) -> Result<Step, Rule>
    ensures value { result ≡ restart_of step (view value.now) }
    ensures bounds { IfOk result IsStep }
{
    step_names(value, &["do", "id"], &[], &[], step)?;
    let id = identity(value, "id", step)?;
    Ok(Step::Restart { id })
}

#[tactic(auto, unfolding(crate::specs::Forms::install_of))]
fn install(step: u32, value: &Value, more: &[&str]) -> Result<Step, Rule>
    ensures value { result ≡ install_of (map (λ name. name.now) more.now) step (view value.now) }
    ensures bounds { IfOk result IsStep }
{
    step_names(value, &["at", "do", "view"], &[], more, step)?;
    let at = identity(value, "at", step)?;
    let view = number(value, "view", step)?;
    let ask = Ask::Install { view };
    Ok(Step::Ask { at, ask })
}

#[tactic(auto, unfolding(crate::specs::Forms::settle_of))]
fn settle(step: u32, value: &Value) -> Result<Step, Rule>
    ensures value { result ≡ settle_of step (view value.now) }
    ensures bounds { IfOk result IsStep }
{
    step_names(value, &["do"], &[], &[], step)?;
    Ok(Step::Settle)
}

/// The step of a form, by what stands under `do`.
#[tactic(auto, using(crate::proofs::Names::given_if_read))]
pub fn named(step: u32, name: &str, fields: &Named, more: &[&str]) -> Result<Step, Rule>
    requires name { text_of (rule step 5) (get (codes "do") (view fields.now.value.now)) ≡ Ok name.now }
    requires found { AreFound fields.now }
    ensures value { result ≡ step_by (map (λ name. name.now) more.now) step (view fields.entry.now.value.now) name.now }
    ensures bounds { IfOk result IsStep }
{
    let value = fields.value;
    match name {
        "update" => update(step, fields, more),
        "get" => get(step, fields, more),
        "flush" => flush(step, fields, more),
        "gossip" => gossip(step, value, more),
        "deliver" => deliver(step, value),
        "lose" => lose(step, value),
        "round" => round(step, value),
        "tick" => tick(step, value, more),
        "timeout" => timeout(step, value),
        "remove" => remove(step, value),
        "join" => join(step, value),
        "restart" => restart(step, value),
        "install" => install(step, value, more),
        "settle" => settle(step, value),
        _ => Err(Rule { step, number: 5 }),
    }
}

/// A step that a script makes by itself. One that clients may be given too may have more names.
#[tactic(auto, unfolding(crate::specs::Forms::plain_of))]
pub fn plain(step: u32, value: &Value, more: &[&str]) -> Result<Step, Rule>
    ensures value { result ≡ plain_of (map (λ name. name.now) more.now) step (view value.now) }
    ensures bounds { IfOk result IsStep }
{
    let fields = named_in(value);
    let name = text_in(fields.form, Rule { step, number: 5 })?;
    named(step, name, &fields, more)
}
