//! Slips of a script that breaks no rule: what names no key, no member, or an operation of another kind.

use crate::place::Place;
use serde_json::Value;
use std::fmt;

/// A slip, and where it is.
#[derive(Clone, Copy)]
pub(crate) struct Slip<'v> {
    place: Place,
    what: What<'v>,
}

/// What is a slip.
#[derive(Clone, Copy)]
enum What<'v> {
    /// No such key is declared.
    Key(&'v str),
    /// The operation is none of the key's kind.
    Operation {
        op: &'v str,
        key: &'v str,
        kind: &'v str,
    },
    /// No member so far has this number; the greatest that one may have is the last.
    Member {
        name: &'static str,
        number: u64,
        last: u64,
    },
    /// A member gossips with itself, or a message goes from a member to itself.
    Itself(u64),
}

/// The names under which a step has members, in the order in which they are looked at.
const MEMBERS: [&str; 4] = ["at", "from", "to", "id"];

/// The first slip of a script.
pub(crate) fn first_slip(script: &Value) -> Option<Slip<'_>> {
    let mut members = script.get("members")?.as_u64()?;
    let mut number = 1u32;
    for step in script.get("steps")?.as_array()? {
        if let Some(slip) = slip_of_step(script, members, number, step) {
            return Some(slip);
        }
        if matches!(do_of(step), Some("join" | "restart")) {
            members = members.saturating_add(1);
        }
        number = number.saturating_add(1);
    }
    None
}

/// The slip of a step, or the first of its clients' commands. So many members have been there before it.
fn slip_of_step<'v>(
    script: &'v Value,
    members: u64,
    step: u32,
    value: &'v Value,
) -> Option<Slip<'v>> {
    let Some(clients) = value.get("clients") else {
        let what = what_of(script, members, value)?;
        let place = Place::Step(step);
        return Some(Slip { place, what });
    };
    for (client, commands) in clients.as_array()?.iter().enumerate() {
        if let Some((command, what)) = slip_of_client(script, members, commands) {
            let place = Place::Command {
                step,
                client,
                command,
            };
            return Some(Slip { place, what });
        }
    }
    None
}

/// The first slip of a client's commands, with the number of the command.
fn slip_of_client<'v>(
    script: &'v Value,
    members: u64,
    commands: &'v Value,
) -> Option<(usize, What<'v>)> {
    for (index, command) in commands.as_array()?.iter().enumerate() {
        if let Some(what) = what_of(script, members, command) {
            return Some((index.saturating_add(1), what));
        }
    }
    None
}

/// What is a slip of a step or a command.
fn what_of<'v>(script: &'v Value, members: u64, step: &'v Value) -> Option<What<'v>> {
    if let Some(what) = member_slip(members, step) {
        return Some(what);
    }
    if let Some(what) = itself_slip(step) {
        return Some(what);
    }
    key_slip(script, step)
}

/// Which member of a step has not been there.
fn member_slip<'v>(members: u64, step: &Value) -> Option<What<'v>> {
    let last = members.saturating_sub(1);
    for name in MEMBERS {
        if let Some(number) = step.get(name).and_then(Value::as_u64) {
            if number > last {
                return Some(What::Member { name, number, last });
            }
        }
    }
    None
}

/// Whether what a step is about goes from a member to itself.
fn itself_slip<'v>(step: &Value) -> Option<What<'v>> {
    let sender = match do_of(step)? {
        "gossip" => "at",
        "deliver" | "lose" => "from",
        _ => return None,
    };
    let to = step.get("to")?.as_u64()?;
    if step.get(sender)?.as_u64()? == to {
        Some(What::Itself(to))
    } else {
        None
    }
}

/// Whether the key of a step is not declared, or its operation none of the key's kind.
fn key_slip<'v>(script: &'v Value, step: &'v Value) -> Option<What<'v>> {
    let key = step.get("key")?.as_str()?;
    let Some(kind) = kind_of(script, key) else {
        return Some(What::Key(key));
    };
    let op = step.get("op")?.as_str()?;
    if fits(op, kind) {
        None
    } else {
        Some(What::Operation { op, key, kind })
    }
}

/// The kind with which a key is declared.
fn kind_of<'v>(script: &'v Value, key: &str) -> Option<&'v str> {
    for declared in script.get("keys")?.as_array()? {
        if declared.get("key").and_then(Value::as_str) == Some(key) {
            return declared.get("kind")?.as_str();
        }
    }
    None
}

fn do_of(step: &Value) -> Option<&str> {
    step.get("do")?.as_str()
}

/// Whether an operation is one of a kind. A key of every kind may be deleted.
fn fits(op: &str, kind: &str) -> bool {
    match op {
        "increment" => matches!(kind, "gcounter" | "pncounter"),
        "decrement" => kind == "pncounter",
        "add" => matches!(kind, "gset" | "orset"),
        "remove" => kind == "orset",
        "enable" => kind == "flag",
        "delete" => true,
        _ => kind == "lwwregister",
    }
}

impl fmt::Display for Slip<'_> {
    fn fmt<W: fmt::Write>(&self, f: &mut fmt::Formatter<W>) -> fmt::Result {
        let Slip { place, what } = self;
        write!(f, "{place}: {what}")
    }
}

impl fmt::Display for What<'_> {
    fn fmt<W: fmt::Write>(&self, f: &mut fmt::Formatter<W>) -> fmt::Result {
        match self {
            What::Key(key) => write!(f, r#""key" is {key:?}, which is not declared"#),
            What::Operation { op, key, kind } => {
                write!(f, r#""op" is {op:?}, and the kind of {key:?} is {kind}"#)
            }
            What::Member { name, number, last } => {
                write!(
                    f,
                    "{name:?} is {number}, and the last member so far is {last}"
                )
            }
            What::Itself(member) => write!(f, r#""to" is {member}, which is the sender"#),
        }
    }
}
