//! Comparisons of what is answered.

use std::alloc::Global;
use std::fmt::Display;
use std::process::Abort;
use std::sync::Wait;
use std::test::Fail;
use std::thread::Threads;
use top_call::Status;
use trial_rows::{Answer, keepers, ran, says};

/// The answer at this place has the status wanted, and what was to be written.
pub(crate) fn check<R: Abort, P: Display + Drop>(
    rt: &R,
    answer: &Answer,
    wanted: Status,
    written: &[u8],
    place: P,
) {
    assert!(rt; says(answer, wanted, written), "at {place}: {:?}", answer.0);
}

/// Runs a script, where the keeper of place 1 fails at the calls named, and compares its report.
pub(crate) fn compare<R: Threads + Wait + Sync + Abort>(
    rt: &R,
    alloc: Global,
    script: &str,
    failing: &[u64],
    report: &str,
) -> Result<(), Fail> {
    let answer = ran(rt, alloc, script, keepers(alloc, 1, failing)?)?;
    assert!(rt; says(&answer, Status::Done, report.as_bytes()));
    Ok(())
}
