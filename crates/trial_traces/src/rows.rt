//! Comparing what is said of traces with tables.

use std::alloc::Global;
use std::process::Abort;
use std::test::Fail;
use trace_judged::{Judgement, judged};

/// What stands before and behind each text of a table.
#[derive(Clone, Copy)]
pub(crate) struct Frame {
    pub front: &'static str,
    pub back: &'static str,
}

/// A text is a trace.
pub(crate) const TRACE: Frame = Frame {
    front: "",
    back: "",
};

/// A text is the lines of a trace, which has a key of each kind: `n`, `p`, `g`, `s`, `f` and `r`.
pub(crate) const LINES: Frame = Frame {
    front: r#"{"keys":[{"key":"n","kind":"gcounter"},{"key":"p","kind":"pncounter"},{"key":"g","kind":"gset"},{"key":"s","kind":"orset"},{"key":"f","kind":"flag"},{"key":"r","kind":"lwwregister"}],"lines":["#,
    back: "]}",
};

/// A text is the keys of a trace without lines.
pub(crate) const KEYS: Frame = Frame {
    front: r#"{"lines":[],"keys":["#,
    back: "]}",
};

/// What is said of a text, as a text.
fn told(alloc: Global, text: &str) -> Result<String, Fail> {
    match judged(alloc, text.as_bytes()).map_err(|_| "no memory")? {
        Judgement::Lawful => Ok(String::from_str(alloc, "lawful")?),
        Judgement::NotJson => Ok(String::from_str(alloc, "not json")?),
        Judgement::NotATrace { line } => Ok(format!(in alloc; "not a trace: line {line}")?),
        Judgement::Broken { line, rule } => {
            Ok(format!(in alloc; "broken: line {line} rule {rule}")?)
        }
    }
}

/// Compares what is said of each text of a table, which has a line for a text and one for what is said of it.
pub(crate) fn compare<R: Abort>(
    rt: &R,
    alloc: Global,
    frame: Frame,
    rows: &str,
) -> Result<(), Fail> {
    let Frame { front, back } = frame;
    let mut lines = rows.lines();
    while let Some(text) = lines.next() {
        let wanted = lines.next().ok_or("a text of which nothing is said")?;
        let trace = format!(in alloc; "{front}{text}{back}")?;
        let told = told(alloc, trace.as_str())?;
        assert_eq!(rt; told.as_str(), wanted, "{text}");
    }
    Ok(())
}
