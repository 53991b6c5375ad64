ghost use Rattle.std.specs.Prelude.{◌≡◌, ◌+◌, ◌≤◌, [], codes, length, All, Ok, IfOk};
ghost use Rattle.serde_json.specs.View.{view, items_view};
ghost use Rattle.serde_json.specs.Find.{get};
ghost use Rattle.script_reading.specs.Fields.{rule, text_of, Gives};
ghost use Rattle.script_reading.specs.Found.{AreFound};
ghost use Rattle.script_reading.specs.Reading.{threads_step_of, plain_step_of, form_of, if_allowed, step_of, steps_after};
ghost use Rattle.script_reading.specs.Allowances.{have_threads, follow_keys, may_have};
ghost use Rattle.script_reading.specs.WellFormed.{IsRunStep, IsAllowed};

use crate::clients::{Clients, RunStep};
use crate::commands::threads;
use crate::fault::{Fault, Rule};
use crate::fields::text_in;
use crate::followers::{subscribe, unsubscribe};
use crate::forms::named;
use crate::named::{Named, named_in};
use base_bytes::Items;
use serde_json::Value;
use std::alloc::Global;

/// A script has at most so many steps.
pub const MOST_STEPS: usize = 4096;

/// A step with clients that are at work at once.
fn threads_step(alloc: Global, step: u32, value: &Value) -> Result<RunStep, Fault>
    ensures value { Gives (λ s. s) result (threads_step_of step (view value.now)) }
    ensures bounds { IfOk result IsRunStep }
{
    let clients = threads(alloc, step, value)?;
    Ok(RunStep::Threads { clients })
}

/// A step that the script makes by itself, of this form.
#[inline(always)]
#[tactic(auto, unfolding(crate::specs::Forms::plain_of))]
fn plain_step(step: u32, name: &str, fields: &Named) -> Result<RunStep, Rule>
    requires name { text_of (rule step 5) (get (codes "do") (view fields.now.value.now)) ≡ Ok name.now }
    requires found { AreFound fields.now }
    ensures value { result ≡ plain_step_of step (view fields.entry.now.value.now) }
    ensures bounds { IfOk result IsRunStep }
{
    Ok(RunStep::Plain(named(step, name, fields, &[])?))
}

/// A step of a script, with clients or without.
#[inline(always)]
#[tactic(auto, unfolding(crate::specs::Reading::form_of))]
fn form(alloc: Global, clients: Clients, step: u32, value: &Value) -> Result<RunStep, Fault>
    ensures value { Gives (λ s. s) result (form_of clients step (view value.now)) }
    ensures bounds { IfOk result IsRunStep }
{
    let fields = named_in(value);
    match text_in(fields.form, Rule { step, number: 5 })? {
        "threads" => threads_step(alloc, step, value),
        "subscribe" => Ok(subscribe(clients, step, value)?),
        "unsubscribe" => Ok(unsubscribe(clients, step, value)?),
        name => Ok(plain_step(step, name, &fields)?),
    }
}

/// Whether clients may be at work at once.
fn have_threads(clients: Clients) -> bool
    ensures { result ≡ have_threads clients }
{
    match clients {
        Clients::Allowed => true,
        Clients::Refused | Clients::Following => false,
    }
}

/// Whether clients may follow keys.
fn follow_keys(clients: Clients) -> bool
    ensures { result ≡ follow_keys clients }
{
    match clients {
        Clients::Following => true,
        Clients::Allowed | Clients::Refused => false,
    }
}

/// Whether the script may have the step.
fn may_have(clients: Clients, form: &RunStep) -> bool
    ensures { result ≡ may_have clients form.now }
{
    match form {
        RunStep::Plain(_) => true,
        RunStep::Threads { .. } => have_threads(clients),
        RunStep::Subscribe { .. } | RunStep::Unsubscribe { .. } => follow_keys(clients),
    }
}

/// The step, if the script may have it.
#[inline(always)]
#[tactic(auto, using(crate::proofs::Allowances::is_allowed))]
fn allowed(clients: Clients, form: RunStep, rule: Rule) -> Result<RunStep, Rule>
    ensures value { result ≡ if_allowed clients rule form }
    ensures bounds { IfOk result (λ step. step ≡ form) }
    ensures allowed { IfOk result (IsAllowed clients) }
{
    if may_have(clients, &form) {
        Ok(form)
    } else {
        drop(form);
        Err(rule)
    }
}

/// A step of a script that may have these clients.
#[inline(always)]
#[tactic(auto, unfolding(crate::specs::Reading::step_of))]
fn one_step(alloc: Global, clients: Clients, step: u32, value: &Value) -> Result<RunStep, Fault>
    ensures value { Gives (λ s. s) result (step_of clients step (view value.now)) }
    ensures bounds { IfOk result IsRunStep }
    ensures allowed { IfOk result (IsAllowed clients) }
{
    let form = form(alloc, clients, step, value)?;
    Ok(allowed(clients, form, Rule { step, number: 14 })?)
}

/// The steps of a script.
#[tactic(auto, unfolding(crate::specs::Reading::steps_after))]
pub fn all_steps(alloc: Global, clients: Clients, list: &[Value]) -> Result<Items<RunStep>, Fault>
    requires { length list.now ≤ MOST_STEPS }
    ensures value { Gives (λ s. s) result (steps_after clients [] (items_view list.now)) }
    ensures count { IfOk result (λ s. length s ≡ length list.now) }
    ensures bounds { IfOk result (All IsRunStep) }
    ensures allowed { IfOk result (All (IsAllowed clients)) }
{
    let mut steps = Items::new(alloc);
    let mut number = 1u32;
    for value in list {
        let step = one_step(alloc, clients, number, value)?;
        steps.push(step)?;
        number += 1;
    }
    Ok(steps)
}
