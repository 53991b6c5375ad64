ghost use Rattle.std.specs.Prelude.{◌≡◌, ◌≤◌, [], ◌∷◌, codes, length, Some, All, IfOk};
ghost use Rattle.serde_json.specs.Find.{get};
ghost use Rattle.serde_json.specs.View.{view, items_view};
ghost use Rattle.script_reading.specs.Fields.{rule, Gives};
ghost use Rattle.script_reading.specs.Clients.{command_in, told_as, times_of, command_of, commands_after, count_of, client_of, clients_after, threads_of};
ghost use Rattle.script_reading.specs.Forms.{plain_of};
ghost use Rattle.script_reading.specs.WellFormed.{IsStep, IsCommand, IsRepeated, IsClient, AreClients};

use crate::clients::{Client, Command, Repeated};
use crate::fault::{Fault, Rule};
use crate::fields::{list, listed, step_names, whole};
use crate::forms::plain;
use crate::script::Step;
use base_bytes::Items;
use serde_json::Value;
use std::alloc::Global;

/// The most clients of a thread step.
pub const MOST_CLIENTS: usize = 8;

/// The most commands of a client.
pub const MOST_COMMANDS: usize = 1024;

/// The most times that a command stands.
pub const MOST_TIMES: u64 = 1024;

/// The most commands of a client, counted with their times.
const MOST_COUNTED: u32 = 1024;

/// The command by which a client asks for a step, if one does.
fn command_in(step: Step) -> Option<Command>
    ensures value { result ≡ command_in step }
    ensures bounds { IsStep step → (command : Command) → result ≡ Some command → IsCommand command }
{
    match step {
        Step::Ask { at, ask } => Some(Command { at, ask }),
        _ => None,
    }
}

/// The step that a command is like. Whatever rule it breaks, this one is told.
fn asked(step: u32, value: &Value, rule: Rule) -> Result<Step, Rule>
    ensures value { result ≡ told_as rule (plain_of (codes "times" ∷ []) step (view value.now)) }
    ensures bounds { IfOk result IsStep }
{
    match plain(step, value, &["times"]) {
        Ok(form) => Ok(form),
        Err(_) => Err(rule),
    }
}

/// How many times a command stands.
fn times(value: &Value, rule: Rule) -> Result<u32, Rule>
    ensures value { result ≡ times_of rule (get (codes "times") (view value.now)) }
    ensures bounds { IfOk result (λ n. (1 ≤ n) × (n ≤ 1024)) }
{
    if value.get("times").is_none() {
        return Ok(1);
    }
    Ok(whole(value, "times", 1, MOST_TIMES, rule)? as u32)
}

/// One command of a client.
#[tactic(auto, unfolding(crate::specs::Clients::command_of))]
fn one_command(step: u32, value: &Value) -> Result<Repeated, Rule>
    ensures value { result ≡ command_of step (view value.now) }
    ensures bounds { IfOk result IsRepeated }
{
    let rule = Rule { step, number: 13 };
    let form = asked(step, value, rule)?;
    let Some(command) = command_in(form) else {
        return Err(rule);
    };
    let times = times(value, rule)?;
    Ok(Repeated { command, times })
}

/// The commands of a client.
#[tactic(auto, unfolding(crate::specs::Clients::commands_after))]
fn all_commands(alloc: Global, step: u32, list: &[Value]) -> Result<Client, Fault>
    ensures value { Gives (λ c. c) result (commands_after step [] (items_view list.now)) }
    ensures count { IfOk result (λ c. length c ≡ length list.now) }
    ensures bounds { IfOk result (All IsRepeated) }
{
    let mut commands = Items::new(alloc);
    for value in list {
        let command = one_command(step, value)?;
        commands.push(command)?;
    }
    Ok(commands)
}

/// How many commands there are, counted with their times.
fn count(commands: &[Repeated]) -> u32
    requires few { length commands.now ≤ MOST_COMMANDS }
    requires bounds { All IsRepeated commands.now }
    ensures { result ≡ count_of commands.now }
{
    let mut count = 0u32;
    for command in commands {
        count += command.times;
    }
    count
}

/// One client of a thread step.
#[tactic(auto, unfolding(crate::specs::Clients::client_of))]
fn one_client(alloc: Global, step: u32, value: &Value) -> Result<Client, Fault>
    ensures value { Gives (λ c. c) result (client_of step (view value.now)) }
    ensures bounds { IfOk result IsClient }
{
    let rule = Rule { step, number: 13 };
    let list = listed(value, 1, MOST_COMMANDS, rule)?;
    let commands = all_commands(alloc, step, list)?;
    if count(commands.as_slice()) <= MOST_COUNTED {
        Ok(commands)
    } else {
        Err(Fault::Breaks(rule))
    }
}

/// The clients of a list.
#[tactic(auto, unfolding(crate::specs::Clients::clients_after))]
fn all_clients(alloc: Global, step: u32, list: &[Value]) -> Result<Items<Client>, Fault>
    ensures value { Gives (λ c. c) result (clients_after step [] (items_view list.now)) }
    ensures count { IfOk result (λ c. length c ≡ length list.now) }
    ensures bounds { IfOk result (All IsClient) }
{
    let mut clients = Items::new(alloc);
    for value in list {
        let client = one_client(alloc, step, value)?;
        clients.push(client)?;
    }
    Ok(clients)
}

/// The clients of a thread step.
#[tactic(auto, unfolding(crate::specs::Clients::threads_of))]
pub fn threads(alloc: Global, step: u32, value: &Value) -> Result<Items<Client>, Fault>
    ensures value { Gives (λ c. c) result (threads_of step (view value.now)) }
    ensures bounds { IfOk result AreClients }
{
    step_names(value, &["clients", "do"], &[], &[], step)?;
    let rule = Rule { step, number: 13 };
    let list = list(value, "clients", 1, MOST_CLIENTS, rule)?;
    all_clients(alloc, step, list)
}
