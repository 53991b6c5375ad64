//! Runs of scripts with clients over keepers and streams in memory.

ghost use Rattle.std.specs.Prelude.{◌≡◌, length};

use crate::rows::{Answer, words};
use base_outside::{MemorySink, MemorySource};
use member_keeper::Keeper;
use std::alloc::Global;
use std::sync::Wait;
use std::test::Fail;
use std::thread::Threads;
use top_call::replicate;

/// A source of a script.
fn source(alloc: Global, script: &str) -> Result<MemorySource, Fail> {
    let bytes = Vec::from_slice(alloc, script.as_bytes())?;
    Ok(MemorySource::new(alloc, bytes, 4096, Vec::new(alloc)))
}

/// A sink.
fn sink(alloc: Global) -> MemorySink {
    MemorySink::new(alloc, 4096, Vec::new(alloc))
}

/// What the words of a line answer of a script over these keepers, and what they write.
///
/// # Errors
///
/// Where memory is refused.
pub fn called<R: Threads + Wait + Sync, K: Keeper + Drop + Send>(
    rt: &R,
    alloc: Global,
    line: &str,
    script: &str,
    keepers: Vec<K>,
) -> Result<Answer, Fail>
    requires { length keepers.items ≡ 8 }
{
    let words = words(alloc, line)?;
    let mut source = source(alloc, script)?;
    let mut sink = sink(alloc);
    let outcome = replicate(rt, alloc, words.as_slice(), &mut source, &mut sink, keepers);
    Ok((outcome.status, sink))
}

/// What `run` answers of a script over these keepers, and what it writes.
///
/// # Errors
///
/// Where memory is refused.
pub fn ran<R: Threads + Wait + Sync, K: Keeper + Drop + Send>(
    rt: &R,
    alloc: Global,
    script: &str,
    keepers: Vec<K>,
) -> Result<Answer, Fail>
    requires { length keepers.items ≡ 8 }
{
    called(rt, alloc, "run", script, keepers)
}
