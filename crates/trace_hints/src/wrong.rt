use serde_json::Value;
use std::fmt;
use std::fmt::InlineText;

/// How many bytes are told of a value, with the dots that stand for the rest of a long one.
const MOST_TOLD: usize = 27;

/// What is wrong with an object of a trace.
#[derive(Clone, Copy)]
pub(crate) enum Wrong<'v> {
    /// This is no object.
    NoObject(&'v Value),
    /// It lacks a name that it needs.
    Lacks(&'static str),
    /// It has a name that is none of its form.
    Has {
        name: &'v str,
        form: &'static str,
    },
    /// What stands under a name is not what it has to be.
    Is {
        name: &'static str,
        found: &'v Value,
        wanted: &'static str,
    },
    /// Its key has the name of an earlier one.
    Again(&'v str),
}

impl fmt::Display for Wrong<'_> {
    fn fmt<W: fmt::Write>(&self, f: &mut fmt::Formatter<W>) -> fmt::Result {
        match self {
            Wrong::NoObject(found) => {
                let told = InlineText::<MOST_TOLD>::of(*found);
                let told = told.as_str();
                write!(f, "{told} is no object")
            }
            Wrong::Lacks(name) => write!(f, "{name:?} is missing"),
            Wrong::Has { name, form } => {
                let told = InlineText::<MOST_TOLD>::of(format_args!("{name:?}"));
                let told = told.as_str();
                write!(f, "{told} is no name of {form}")
            }
            Wrong::Is {
                name,
                found,
                wanted,
            } => {
                let told = InlineText::<MOST_TOLD>::of(*found);
                let told = told.as_str();
                write!(f, "{name:?} is {told}, not {wanted}")
            }
            Wrong::Again(name) => write!(f, "{name:?} is declared already"),
        }
    }
}
