use crate::values::{may_stand, wanted};
use crate::wrong::Wrong;
use serde_json::Value;

/// The form of an object: the names that it needs, and the one that it may have.
#[derive(Clone, Copy)]
pub(crate) struct Form {
    pub called: &'static str,
    pub needed: &'static [&'static str],
    pub optional: &'static str,
}

impl Form {
    /// A form with no name that may be left out.
    pub(crate) fn new(called: &'static str, needed: &'static [&'static str]) -> Form {
        Form {
            called,
            needed,
            optional: "",
        }
    }

    /// What is wrong with the names of a value, if anything is.
    pub(crate) fn names_wrong<'v>(&self, value: &'v Value) -> Option<Wrong<'v>> {
        let Some(object) = value.as_object() else {
            return Some(Wrong::NoObject(value));
        };
        let strange = object.keys().map(|name| name.as_str()).find(|name| !self
            .needed
            .contains(name)
            && *name != self.optional);
        match strange {
            Some(name) => Some(Wrong::Has {
                name,
                form: self.called,
            }),
            None => Some(Wrong::Lacks(self.lacking(value)?)),
        }
    }

    /// The first name that is needed and not there.
    fn lacking(&self, value: &Value) -> Option<&'static str> {
        self.needed
            .iter()
            .find(|name| value.get(**name).is_none())
            .copied()
    }

    /// What is wrong with the names of a value, or with what stands under them, if anything is.
    pub(crate) fn wrong<'v>(&self, value: &'v Value) -> Option<Wrong<'v>> {
        if let Some(wrong) = self.names_wrong(value) {
            return Some(wrong);
        }
        for name in self.needed {
            if let Some(wrong) = part_wrong(name, value) {
                return Some(wrong);
            }
        }
        part_wrong(self.optional, value)
    }
}

/// What is wrong with what stands under a name, if anything does and is.
fn part_wrong<'v>(name: &'static str, value: &'v Value) -> Option<Wrong<'v>> {
    let found = value.get(name)?;
    if may_stand(name, found) {
        None
    } else {
        Some(is_not(name, found))
    }
}

/// What stands under a name is not what it has to be.
pub(crate) fn is_not<'v>(name: &'static str, found: &'v Value) -> Wrong<'v> {
    Wrong::Is {
        name,
        found,
        wanted: wanted(name),
    }
}
