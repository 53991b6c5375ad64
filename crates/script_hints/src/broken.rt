use crate::place::Place;
use crate::wrong::Wrong;
use std::fmt;

/// The rules that are broken.
#[derive(Clone, Copy)]
pub(crate) enum Rules {
    One(u8),
    /// A command breaks this rule of steps, and by that the clients break theirs.
    OfCommand(u8),
}

impl fmt::Display for Rules {
    fn fmt<W: fmt::Write>(&self, f: &mut fmt::Formatter<W>) -> fmt::Result {
        match self {
            Rules::One(rule) => write!(f, "rule {rule}"),
            Rules::OfCommand(rule) => write!(f, "rule 13: rule {rule}"),
        }
    }
}

/// Where a script is wrong, how, and which rules that breaks.
#[derive(Clone, Copy)]
pub(crate) struct Broken<'v> {
    pub place: Place,
    pub wrong: Wrong<'v>,
    pub rules: Rules,
}

impl fmt::Display for Broken<'_> {
    fn fmt<W: fmt::Write>(&self, f: &mut fmt::Formatter<W>) -> fmt::Result {
        let Broken {
            place,
            wrong,
            rules,
        } = self;
        match (place, wrong) {
            (_, Wrong::Itself(_)) => write!(f, "{place} {wrong} ({rules})"),
            (Place::Script, _) => write!(f, "{wrong} ({rules})"),
            _ => write!(f, "{place}: {wrong} ({rules})"),
        }
    }
}
