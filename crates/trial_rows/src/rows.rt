//! What tests call the program with: scripts and their reports, over keepers and streams in memory.

ghost use Rattle.std.specs.Prelude.{◌≡◌, ◌↔◌, length, IfOk, IsTrue};

use base_outside::{MemorySink, MemorySource};
use member_keeper::{Keeper, MemoryKeeper};
use std::alloc::Global;
use std::test::Fail;
use top_call::{Status, replicate_plain};

/// A script, the calls of a keeper that fail, and the report.
pub type Row<'a> = (&'a str, &'a [u64], &'a str);

/// A number in a text: `first + factor * (round / every % modulus)`, as `(first, factor, every, modulus)`.
pub type Number = (u64, u64, u64, u64);

/// A text that is written so many rounds, with a number in place of each `#`.
pub type Section<'a> = (u64, &'a str, &'a [Number]);

/// A modulus that no round comes to: a number with it grows in each round.
pub const MANY: u64 = 1_000_000;

/// A keeper in memory for each of the eight places. The one of this place fails at the calls named, counted from 0.
///
/// # Errors
///
/// Where memory is refused.
pub fn keepers(alloc: Global, place: usize, failing: &[u64]) -> Result<Vec<MemoryKeeper>, Fail>
    ensures { IfOk result (λ keepers. length keepers.items ≡ 8) }
{
    let mut keepers = Vec::new(alloc);
    for at in 0..8 {
        let named = if at == place { failing } else { &[] };
        keepers.push(MemoryKeeper::new(alloc, Vec::from_slice(alloc, named)?))?;
    }
    Ok(keepers)
}

/// A source of these bytes, in pieces of seven, whose calls of these numbers fail.
fn source(alloc: Global, bytes: &[u8], failing: &[u64]) -> Result<MemorySource, Fail> {
    let bytes = Vec::from_slice(alloc, bytes)?;
    let failing = Vec::from_slice(alloc, failing)?;
    Ok(MemorySource::new(alloc, bytes, 7, failing))
}

/// A sink that takes pieces of sixteen bytes, and whose calls of these numbers fail.
fn sink(alloc: Global, failing: &[u64]) -> Result<MemorySink, Fail> {
    let failing = Vec::from_slice(alloc, failing)?;
    Ok(MemorySink::new(alloc, 16, failing))
}

/// A source and a sink.
pub type Streams = (MemorySource, MemorySink);

/// A source of these bytes, in pieces of seven, and a sink that takes pieces of sixteen, whose calls of these numbers fail,
/// counted from 0.
///
/// # Errors
///
/// Where memory is refused.
pub fn streams(
    alloc: Global,
    bytes: &[u8],
    reads: &[u64],
    writes: &[u64],
) -> Result<Streams, Fail> {
    let sink = sink(alloc, writes)?;
    Ok((source(alloc, bytes, reads)?, sink))
}

/// The words of a line, with one space between two. An empty line has none.
///
/// # Errors
///
/// Where memory is refused.
pub fn words(alloc: Global, line: &str) -> Result<Vec<String>, Fail> {
    let mut words = Vec::new(alloc);
    if !line.is_empty() {
        for word in line.split(' ') {
            words.push(String::from_str(alloc, word)?)?;
        }
    }
    Ok(words)
}

/// What is answered: the status, and a sink that has what was written.
pub type Answer = (Status, MemorySink);

/// What words answer over these streams and keepers.
fn answer<D: Keeper + Drop>(
    alloc: Global,
    words: &[String],
    streams: Streams,
    keepers: Vec<D>,
) -> Answer
    requires { length keepers.items ≡ 8 }
{
    let (mut source, mut sink) = streams;
    let outcome = replicate_plain(alloc, words, &mut source, &mut sink, keepers);
    (outcome.status, sink)
}

/// What the words of a line answer over these streams and keepers.
///
/// # Errors
///
/// Where memory is refused.
pub fn answered<D: Keeper + Drop>(
    alloc: Global,
    line: &str,
    streams: Streams,
    keepers: Vec<D>,
) -> Result<Answer, Fail>
    requires { length keepers.items ≡ 8 }
{
    let words = words(alloc, line)?;
    Ok(answer(alloc, &words, streams, keepers))
}

/// What `plain` answers of a script over these keepers.
///
/// # Errors
///
/// Where memory is refused.
pub fn printed<D: Keeper + Drop>(
    alloc: Global,
    script: &str,
    keepers: Vec<D>,
) -> Result<Answer, Fail>
    requires { length keepers.items ≡ 8 }
{
    let streams = streams(alloc, script.as_bytes(), &[], &[])?;
    answered(alloc, "plain", streams, keepers)
}

/// Whether what is answered has this status, and this text was written.
pub fn says(answer: &Answer, status: Status, text: &[u8]) -> bool
    ensures { IsTrue result ↔ ((answer.now.0 ≡ status) × (answer.now.1.written ≡ text.now)) }
{
    let (told, sink) = answer;
    *told == status && sink.bytes() == text
}

fn number_at((first, factor, every, modulus): &Number, round: u64) -> u64 {
    let turn = round.checked_div(*every).unwrap_or(0);
    let step = turn.checked_rem(*modulus).unwrap_or(0);
    first.saturating_add(step.saturating_mul(*factor))
}

fn push_round(
    text: &mut String,
    template: &str,
    numbers: &[Number],
    round: u64,
) -> Result<(), Fail> {
    for (i, piece) in template.split('#').enumerate() {
        if i > 0 {
            let number = numbers
                .get(i - 1)
                .map_or(0, |number| number_at(number, round));
            write!(text, "{number}")?;
        }
        text.push_str(piece)?;
    }
    Ok(())
}

/// The texts of these sections, one after the other.
///
/// # Errors
///
/// Where memory is refused.
pub fn build(alloc: Global, sections: &[Section]) -> Result<String, Fail> {
    let mut text = String::new(alloc);
    for (count, template, numbers) in sections {
        for round in 0..*count {
            push_round(&mut text, template, numbers, round)?;
        }
    }
    Ok(text)
}

/// What `plain` answers of the script of these sections.
///
/// # Errors
///
/// Where memory is refused.
pub fn printed_of(alloc: Global, script: &[Section]) -> Result<Answer, Fail> {
    let script = build(alloc, script)?;
    printed(alloc, script.as_str(), keepers(alloc, 0, &[])?)
}
