use crate::fault::Fault;
use crate::wrong::{Part, Wrong};
use serde_json::Value;

/// The names of a form: those that it needs, its own among them, and those that it may have.
#[derive(Clone, Copy)]
pub(crate) struct Names {
    form: &'static str,
    needed: &'static [&'static str],
    own: &'static [&'static str],
    optional: &'static [&'static str],
}

impl Names {
    fn new(
        form: &'static str,
        needed: &'static [&'static str],
        optional: &'static [&'static str],
    ) -> Names {
        Names {
            form,
            needed,
            own: &[],
            optional,
        }
    }

    /// The names of a script.
    pub(crate) fn of_script() -> Names {
        Names::new("a script", &["members", "keys", "steps"], &[])
    }

    /// The names of a declared key.
    pub(crate) fn of_key() -> Names {
        Names::new("a key", &["key", "kind"], &["durable"])
    }

    /// The names of a step, by its `do`, and in an update by its `op`.
    pub(crate) fn of_step(step: &Value) -> Option<Names> {
        match step.get("do")?.as_str()? {
            "update" => Names::of_update(step.get("op")?.as_str()?),
            "get" => Some(Names::new("a get", &["do", "at", "key"], &["level"])),
            "flush" => Some(Names::new("a flush", &["do", "at"], &[])),
            "gossip" => Some(Names::new("a gossip", &["do", "at", "to"], &[])),
            "deliver" => Some(Names::new("a deliver", &["do", "from", "to"], &["index"])),
            "lose" => Some(Names::new("a lose", &["do", "from", "to"], &[])),
            "round" => Some(Names::new("a round", &["do"], &[])),
            "tick" => Some(Names::new("a tick", &["do", "at"], &[])),
            "timeout" => Some(Names::new("a timeout", &["do", "at", "op"], &[])),
            "remove" => Some(Names::new("a remove", &["do", "id"], &[])),
            "join" => Some(Names::new("a join", &["do", "place"], &[])),
            "restart" => Some(Names::new("a restart", &["do", "id"], &[])),
            "install" => Some(Names::new("an install", &["do", "at", "view"], &[])),
            "settle" => Some(Names::new("a settle", &["do"], &[])),
            "threads" => Some(Names::new("a threads step", &["do", "clients"], &[])),
            "subscribe" => Some(Names::new("a subscribe", &["do", "at", "client", "key"], &[])),
            "unsubscribe" => {
                Some(Names::new("an unsubscribe", &["do", "at", "client", "key"], &[]))
            }
            _ => None,
        }
    }

    /// The names of an update, by its `op`.
    fn of_update(op: &str) -> Option<Names> {
        match op {
            "increment" => Some(Names::update(r#"an update with "increment""#, &["by"])),
            "decrement" => Some(Names::update(r#"an update with "decrement""#, &["by"])),
            "add" => Some(Names::update(r#"an update with "add""#, &["element"])),
            "remove" => Some(Names::update(r#"an update with "remove""#, &["element"])),
            "enable" => Some(Names::update(r#"an update with "enable""#, &[])),
            "assign" => Some(Names::update(r#"an update with "assign""#, &["text", "now"])),
            "delete" => Some(Names::update(r#"an update with "delete""#, &[])),
            _ => None,
        }
    }

    /// The names of an update with these of its operation.
    fn update(form: &'static str, own: &'static [&'static str]) -> Names {
        Names {
            form,
            needed: &["do", "at", "key", "op"],
            own,
            optional: &["level"],
        }
    }

    /// What is wrong with the names of an object of this form, if anything is. It may have some more.
    pub(crate) fn wrong_in<'v>(&self, object: &'v Value, more: &[&str]) -> Option<Wrong<'v>> {
        let missing = self.missing_in(object);
        match self.unknown_in(object, more) {
            Some(name) => Some(Wrong::Unknown {
                name,
                form: self.form,
                missing,
            }),
            None => Some(Wrong::Part(Part::Under(missing?), Fault::IsMissing)),
        }
    }

    /// The first name that the object needs and lacks.
    fn missing_in(&self, object: &Value) -> Option<&'static str> {
        self.needed
            .iter()
            .chain(self.own)
            .find(|name| object.get(**name).is_none())
            .copied()
    }

    /// The first name of the object that is none of this form, and none of some more.
    fn unknown_in<'v>(&self, object: &'v Value, more: &[&str]) -> Option<&'v str> {
        object
            .as_object()?
            .keys()
            .map(|name| name.as_str())
            .find(|name| !self.contain(*name) && !more.contains(name))
    }

    fn contain(&self, name: &str) -> bool {
        self.needed.contains(&name) || self.own.contains(&name) || self.optional.contains(&name)
    }
}
