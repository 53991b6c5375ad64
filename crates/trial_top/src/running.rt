//! Runs of scripts with clients whose reports are long.

use std::alloc::Global;
use std::process::Abort;
use std::sync::Wait;
use std::test::Fail;
use std::thread::Threads;
use top_call::Status;
use trial_rows::{keepers, ran, says};

/// Runs a script, where the keeper of place 1 fails at these calls, and compares its report.
pub(crate) fn compare<R: Threads + Wait + Sync + Abort>(
    rt: &R,
    alloc: Global,
    script: &str,
    calls: &[u64],
    report: &str,
) -> Result<(), Fail> {
    let answer = ran(rt, alloc, script, keepers(alloc, 1, calls)?)?;
    assert!(rt; says(&answer, Status::Done, report.as_bytes()));
    Ok(())
}

/// Adds a line so many times.
pub(crate) fn push_lines(text: &mut String, line: &str, times: u32) -> Result<(), Fail> {
    for _time in 0..times {
        text.push_str(line)?;
    }
    Ok(())
}
