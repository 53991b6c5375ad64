//! Comparisons of what scripts print with their reports.

use std::alloc::Global;
use std::fmt::Display;
use std::process::Abort;
use std::test::Fail;
use top_call::Status;
use trial_rows::{Answer, Row, Section, build, keepers, printed, printed_of, says};

/// What is answered has this status, and this text was written.
pub(crate) fn check<R: Abort, P: Display + Drop>(
    rt: &R,
    answer: &Answer,
    status: Status,
    text: &[u8],
    place: P,
) {
    assert!(rt; says(answer, status, text), "at {place}: {:?}", answer.0);
}

/// Builds a script and its report, runs it and compares.
pub(crate) fn compare_built<R: Abort>(
    rt: &R,
    alloc: Global,
    script: &[Section],
    report: &[Section],
) -> Result<(), Fail> {
    let answer = printed_of(alloc, script)?;
    let report = build(alloc, report)?;
    assert!(rt; says(&answer, Status::Done, report.as_bytes()));
    Ok(())
}

/// Runs each script, over a keeper of this place that fails at the calls named, and compares.
pub(crate) fn compare<R: Abort>(
    rt: &R,
    alloc: Global,
    place: usize,
    rows: &[Row],
) -> Result<(), Fail> {
    for (script, failing, report) in rows {
        let answer = printed(alloc, script, keepers(alloc, place, failing)?)?;
        check(rt, &answer, Status::Done, report.as_bytes(), *script);
    }
    Ok(())
}
