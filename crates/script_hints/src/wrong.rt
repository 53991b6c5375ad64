use crate::fault::{Fault, MOST_TOLD};
use crate::wanted::Wanted;
use serde_json::Value;
use std::fmt;
use std::fmt::InlineText;

/// What is wrong at a place.
#[derive(Clone, Copy)]
pub(crate) enum Wrong<'v> {
    /// An object has a name that is none of its form, and may lack one that it needs.
    Unknown {
        name: &'v str,
        form: &'static str,
        missing: Option<&'static str>,
    },
    /// A part of what stands at the place is not as it has to be.
    Part(Part, Fault<'v>),
    /// What stands at the place is not as it has to be.
    Itself(Fault<'v>),
    /// The script may have no clients at work at once.
    Clients,
    /// The script may have no clients that follow keys.
    Followers,
}

/// A part of an object.
#[derive(Clone, Copy)]
pub(crate) enum Part {
    /// What stands under this name.
    Under(&'static str),
    /// What stands under this name of the level.
    OfLevel(&'static str),
    /// The name of a declared key.
    Name,
    /// The name of the key that a step is about.
    KeyName,
}

impl<'v> Wrong<'v> {
    /// What stands under a name is not what it has to be, or nothing does.
    pub(crate) fn under(object: &'v Value, name: &'static str, wanted: Wanted) -> Wrong<'v> {
        let fault = match object.get(name) {
            Some(found) => Fault::Is { found, wanted },
            None => Fault::IsMissing,
        };
        Wrong::Part(Part::Under(name), fault)
    }

    /// What stands at the place is not what it has to be.
    pub(crate) fn itself(found: &'v Value, wanted: Wanted) -> Wrong<'v> {
        Wrong::Itself(Fault::Is { found, wanted })
    }
}

impl fmt::Display for Part {
    fn fmt<W: fmt::Write>(&self, f: &mut fmt::Formatter<W>) -> fmt::Result {
        match self {
            Part::Under(name) => write!(f, "{name:?}"),
            Part::OfLevel(name) => write!(f, r#"{name:?} of "level""#),
            Part::Name => f.write_str("the name"),
            Part::KeyName => f.write_str("the key name"),
        }
    }
}

impl fmt::Display for Wrong<'_> {
    fn fmt<W: fmt::Write>(&self, f: &mut fmt::Formatter<W>) -> fmt::Result {
        match self {
            Wrong::Unknown {
                name,
                form,
                missing,
            } => {
                let told = InlineText::<MOST_TOLD>::of(format_args!("{name:?}"));
                let told = told.as_str();
                write!(f, "{told} is no name of {form}")?;
                match missing {
                    Some(missing) => write!(f, ", and {missing:?} is missing"),
                    None => Ok(()),
                }
            }
            Wrong::Part(part, fault) => write!(f, "{part} {fault}"),
            Wrong::Itself(fault) => write!(f, "{fault}"),
            Wrong::Clients => f.write_str(r#"only the word "run" plays a step with clients"#),
            Wrong::Followers => {
                f.write_str(r#"only the word "watch" plays a step by which a client follows a key"#)
            }
        }
    }
}
