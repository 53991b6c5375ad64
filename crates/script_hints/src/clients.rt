//! What is wrong with the clients of a step.

use crate::broken::{Broken, Rules};
use crate::fault::{Bounds, Fault};
use crate::place::Place;
use crate::steps::{is_given_out_of, step_wrong};
use crate::wanted::Wanted;
use crate::wrong::{Part, Wrong};
use script_reading::{Clients, MOST_CLIENTS, MOST_COMMANDS, MOST_TIMES, plain};
use serde_json::Value;

const COMMAND: Wanted = Wanted::Named("update, get, flush, gossip, tick or install");

const TIMES: Wanted = Wanted::Whole {
    low: 1,
    high: MOST_TIMES,
};

/// The name that a command may have beside those of a step.
const MORE: &[&str] = &["times"];

/// What is wrong with the clients of a step, and where.
pub(crate) fn clients_wrong(step: u32, value: &Value) -> Option<Broken<'_>> {
    let place = Place::Step(step);
    let Some(clients) = value.get("clients").and_then(Value::as_array) else {
        return Some(whole(place, Wrong::under(value, "clients", Wanted::List)));
    };
    let count = clients.len();
    if count == 0 || count > MOST_CLIENTS {
        let fault = Fault::Has {
            count,
            of: "items",
            bounds: Bounds::From1To(MOST_CLIENTS),
        };
        return Some(whole(place, Wrong::Part(Part::Under("clients"), fault)));
    }
    clients
        .iter()
        .enumerate()
        .find_map(|(client, value)| client_wrong(step, client, value))
}

/// That the clients break their own rule.
fn whole(place: Place, wrong: Wrong<'_>) -> Broken<'_> {
    Broken {
        place,
        wrong,
        rules: Rules::One(13),
    }
}

/// What is wrong with a client, and where, if anything is.
fn client_wrong(step: u32, client: usize, value: &Value) -> Option<Broken<'_>> {
    let place = Place::Client { step, client };
    let Some(commands) = value.as_array() else {
        return Some(whole(place, Wrong::itself(value, Wanted::List)));
    };
    let count = commands.len();
    if count == 0 || count > MOST_COMMANDS {
        return Some(whole(place, has_commands(count, "commands")));
    }
    if let Some(broken) = first_wrong(step, client, commands) {
        return Some(broken);
    }
    let count = counted(commands);
    if count <= MOST_COMMANDS {
        return None;
    }
    Some(whole(
        place,
        has_commands(count, "commands counted with their times"),
    ))
}

fn has_commands<'v>(count: usize, of: &'static str) -> Wrong<'v> {
    Wrong::Itself(Fault::Has {
        count,
        of,
        bounds: Bounds::From1To(MOST_COMMANDS),
    })
}

/// The first command of a client that is wrong, and how.
fn first_wrong(step: u32, client: usize, commands: &[Value]) -> Option<Broken<'_>> {
    for (index, value) in commands.iter().enumerate() {
        if let Some((wrong, rules)) = command_wrong(step, value) {
            let place = Place::Command {
                step,
                client,
                command: index.saturating_add(1),
            };
            return Some(Broken {
                place,
                wrong,
                rules,
            });
        }
    }
    None
}

/// How many commands there are, counted with their times.
fn counted(commands: &[Value]) -> usize {
    let mut count = 0usize;
    for command in commands {
        let times = command.get("times").and_then(Value::as_u64).unwrap_or(1);
        count = count.saturating_add(times as usize);
    }
    count
}

/// What is wrong with a command, and which rules that breaks, if anything is.
fn command_wrong(step: u32, value: &Value) -> Option<(Wrong<'_>, Rules)> {
    if !value.is_object() {
        return Some((Wrong::itself(value, Wanted::Object), Rules::One(13)));
    }
    if is_no_command(value) {
        return Some((Wrong::under(value, "do", COMMAND), Rules::One(13)));
    }
    match plain(step, value, MORE) {
        Err(rule) => {
            let wrong = step_wrong(Clients::Allowed, rule.number, value, MORE)?;
            Some((wrong, Rules::OfCommand(rule.number)))
        }
        Ok(_) if is_given_out_of(value, "times", 1, MOST_TIMES) => {
            Some((Wrong::under(value, "times", TIMES), Rules::One(13)))
        }
        Ok(_) => None,
    }
}

/// Whether the `do` of an object is given, and none that clients may ask for.
fn is_no_command(value: &Value) -> bool {
    match value.get("do") {
        Some(name) => !matches!(
            name.as_str(),
            Some("update" | "get" | "flush" | "gossip" | "tick" | "install")
        ),
        None => false,
    }
}
