//! Comparing hints with tables.

use script_hints::hint;
use script_reading::Clients;
use std::alloc::Global;
use std::process::Abort;
use std::test::Fail;

/// What stands before and behind each text of a table, and what each hint begins with.
#[derive(Clone, Copy)]
pub(crate) struct Frame {
    pub front: &'static str,
    pub back: &'static str,
    pub head: &'static str,
}

/// A text is a script.
pub(crate) const SCRIPT: Frame = Frame {
    front: "",
    back: "",
    head: "",
};

/// A text is the keys of a script.
pub(crate) const KEYS: Frame = Frame {
    front: r#"{"members":1,"steps":[],"keys":["#,
    back: "]}",
    head: "not a script: ",
};

/// A text is the steps of a script.
pub(crate) const STEPS: Frame = Frame {
    front: r#"{"members":1,"keys":[{"key":"n","kind":"gcounter"}],"steps":["#,
    back: "]}",
    head: "not a script: step ",
};

/// A text is the clients of a step.
pub(crate) const CLIENTS: Frame = Frame {
    front: r#"{"members":1,"keys":[{"key":"n","kind":"gcounter"}],"steps":[{"do":"threads","clients":"#,
    back: "}]}",
    head: "not a script: step 1",
};

/// Compares the hints of a table, which has a line for each text and one for its hint, with the hints that are told.
pub(crate) fn compare<R: Abort>(
    rt: &R,
    alloc: Global,
    clients: Clients,
    frame: Frame,
    rows: &str,
) -> Result<(), Fail> {
    let Frame { front, back, head } = frame;
    let mut lines = rows.lines();
    while let Some(text) = lines.next() {
        let told = lines.next().ok_or("a text without a hint")?;
        let script = format!(in alloc; "{front}{text}{back}")?;
        let told = format!(in alloc; "{head}{told}")?;
        let hint = hint(alloc, clients, script.as_bytes()).ok_or("no hint")?;
        assert_eq!(rt; hint.as_str(), told.as_str());
    }
    Ok(())
}
