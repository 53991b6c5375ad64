use std::fmt;

/// Where in a script something is wrong. Keys, steps and commands are counted from 1, and clients from 0.
#[derive(Clone, Copy)]
pub(crate) enum Place {
    Script,
    Key(usize),
    Step(u32),
    Client {
        step: u32,
        client: usize,
    },
    Command {
        step: u32,
        client: usize,
        command: usize,
    },
}

impl fmt::Display for Place {
    fn fmt<W: fmt::Write>(&self, f: &mut fmt::Formatter<W>) -> fmt::Result {
        match self {
            Place::Script => f.write_str("the script"),
            Place::Key(key) => write!(f, "key {key}"),
            Place::Step(step) => write!(f, "step {step}"),
            Place::Client { step, client } => write!(f, "step {step}, client {client}"),
            Place::Command {
                step,
                client,
                command,
            } => write!(f, "step {step}, client {client}, command {command}"),
        }
    }
}
