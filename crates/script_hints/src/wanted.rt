use script_reading::{LAST_NUMBER, MOST_ADDED};
use std::fmt;

/// What a value has to be.
#[derive(Clone, Copy)]
pub(crate) enum Wanted {
    Object,
    List,
    Text,
    Flag,
    /// A whole number within bounds.
    Whole { low: u64, high: u64 },
    /// What these words name.
    Named(&'static str),
}

/// Says that a value is not so.
impl fmt::Display for Wanted {
    fn fmt<W: fmt::Write>(&self, f: &mut fmt::Formatter<W>) -> fmt::Result {
        match self {
            Wanted::Object => f.write_str("not an object"),
            Wanted::List => f.write_str("not a list"),
            Wanted::Text => f.write_str("not a text"),
            Wanted::Flag => f.write_str("not true or false"),
            Wanted::Whole { low, high } => {
                let high = Bound(*high);
                write!(f, "not a whole number from {low} to {high}")
            }
            Wanted::Named(words) => write!(f, "not {words}"),
        }
    }
}

/// A bound of numbers, as a person would write it.
#[derive(Clone, Copy)]
struct Bound(u64);

impl fmt::Display for Bound {
    fn fmt<W: fmt::Write>(&self, f: &mut fmt::Formatter<W>) -> fmt::Result {
        match self.0 {
            LAST_NUMBER => f.write_str("2^32 - 1"),
            MOST_ADDED => f.write_str("2^63 - 1"),
            small => write!(f, "{small}"),
        }
    }
}
