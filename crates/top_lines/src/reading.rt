ghost use Rattle.std.specs.Prelude.{◌≡◌, ◌==◌, position};
ghost use Rattle.top_lines.specs.Saying.{SaysStep, AreHex, BringsBytes, Says};
ghost use Rattle.top_lines.specs.Tellings.{Tells};

use crate::line::Line;
use crate::number::identity;
use crate::refusal::{Fault, Refusal};
use base_bytes::Items;
use hex::FromHexError;
use script_reading::{Step, plain};
use serde_json::Value;
use std::alloc::Global;

/// The step that a JSON text says.
fn step(alloc: Global, line: &[u8]) -> Result<Step, Fault>
    ensures { Tells (SaysStep line.now) result }
{
    let value = match Value::from_slice(alloc, line) {
        Ok(value) => value,
        Err(error) if error.is_memory() => return Err(Fault::Memory),
        Err(_) => return Err(Fault::Refused(Refusal::NotJson)),
    };
    match plain(1, &value, &[]) {
        Ok(step) => Ok(step),
        Err(rule) => Err(Fault::Refused(Refusal::NotAStep(rule.number))),
    }
}

/// The bytes that hexadecimal digits say.
fn bytes_of(alloc: Global, digits: &[u8]) -> Result<Items<u8>, Fault>
    ensures { Tells (AreHex digits.now) result }
{
    match hex::decode(alloc, digits) {
        Ok(bytes) => Ok(Items::from_vec(bytes)),
        Err(FromHexError::OutOfMemory) => Err(Fault::Memory),
        Err(_) => Err(Fault::Refused(Refusal::NotHex)),
    }
}

/// Where the first space stands.
fn space(rest: &[u8]) -> Option<usize>
    ensures { result ≡ position (λ byte. byte == 32) rest.now }
{
    rest.iter().position(|byte| *byte == b' ')
}

/// Who brings which bytes: an identity, a space, and their digits.
fn brought(alloc: Global, rest: &[u8]) -> Result<Line, Fault>
    ensures { Tells (BringsBytes rest.now) result }
{
    let Some(end) = space(rest) else {
        return Err(Fault::Refused(Refusal::NoSender));
    };
    let Some(from) = identity(&rest[..end]) else {
        return Err(Fault::Refused(Refusal::NoSender));
    };
    let bytes = bytes_of(alloc, &rest[end + 1..])?;
    Ok(Line::Brings(from, bytes))
}

/// What a line says.
///
/// # Errors
///
/// It says nothing, for the reason that comes back, or memory was refused.
pub fn read_line(alloc: Global, line: &[u8]) -> Result<Line, Fault>
    ensures { Tells (Says line.now) result }
{
    if let Some(rest) = line.strip_prefix(b"from ") {
        return brought(alloc, rest);
    }
    if let Some(digits) = line.strip_prefix(b"install ") {
        return Ok(Line::Decides(bytes_of(alloc, digits)?));
    }
    Ok(Line::Asks(step(alloc, line)?))
}
