use crate::wanted::Wanted;
use serde_json::Value;
use std::fmt;
use std::fmt::InlineText;

/// How many bytes are told of a name or a value, with the dots that stand for the rest of a long one.
pub(crate) const MOST_TOLD: usize = 27;

/// How something is not as it has to be.
#[derive(Clone, Copy)]
pub(crate) enum Fault<'v> {
    IsMissing,
    Is {
        found: &'v Value,
        wanted: Wanted,
    },
    /// There are too few or too many of these in it.
    Has {
        count: usize,
        of: &'static str,
        bounds: Bounds,
    },
    /// A name of a key has characters that none may have.
    HasCharacters(&'v str),
    /// A name of a key is that of an earlier key.
    IsThatOf {
        name: &'v str,
        key: usize,
    },
}

/// How many there may be.
#[derive(Clone, Copy)]
pub(crate) enum Bounds {
    From1To(usize),
    AtMost(usize),
}

impl fmt::Display for Bounds {
    fn fmt<W: fmt::Write>(&self, f: &mut fmt::Formatter<W>) -> fmt::Result {
        match self {
            Bounds::From1To(most) => write!(f, "not 1 to {most}"),
            Bounds::AtMost(most) => write!(f, "more than {most}"),
        }
    }
}

impl fmt::Display for Fault<'_> {
    fn fmt<W: fmt::Write>(&self, f: &mut fmt::Formatter<W>) -> fmt::Result {
        match self {
            Fault::IsMissing => f.write_str("is missing"),
            Fault::Is { found, wanted } => {
                let told = InlineText::<MOST_TOLD>::of(*found);
                let told = told.as_str();
                write!(f, "is {told}, {wanted}")
            }
            Fault::Has { count, of, bounds } => write!(f, "has {count} {of}, {bounds}"),
            Fault::HasCharacters(name) => {
                write!(f, "{name:?} has a character other than a-z, 0-9, _ and -")
            }
            Fault::IsThatOf { name, key } => write!(f, "{name:?} is that of key {key}"),
        }
    }
}
