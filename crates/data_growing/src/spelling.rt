ghost use Rattle.std.specs.Prelude.{◌≡◌, ◌<◌, ◌^◌, None, length, option_copied, IfOk};
ghost use Rattle.std.specs.List.{All, AllByRecursion};
ghost use Rattle.base_bytes.specs.Fields.{Gives};
ghost use Rattle.base_bytes.specs.Spelling.{IsText};
ghost use Rattle.base_bytes.specs.TextOrder.{IsRising};
ghost use Rattle.data_growing.specs.Reading.{texts_in, flag_in, written_in};
ghost use Rattle.data_growing.specs.Spelling.{set_spelled, write_spelled, IsSoundWrite};

use crate::flag::Flag;
use crate::register::Written;
use crate::timestamp::Timestamp;
use base_bytes::{Fault, FieldError, Memory, Spelled, Text, keep, read_byte, read_text};
use base_vectors::Id;
use std::alloc::Global;

/// How many bytes the texts take, where that is a number.
fn room(texts: &[Text]) -> usize
    ensures { All IsText texts.now }
{
    let mut room: usize = 8;
    for text in texts {
        room = room.saturating_add(1).saturating_add(text.as_str().len());
    }
    room
}

/// The spelling of the elements of a set: how many they are, and each of them.
pub(crate) fn spelled_texts(alloc: Global, texts: &[Text]) -> Result<Vec<u8>, Memory>
    ensures texts { AllByRecursion IsText texts.now }
    ensures counted { length texts.now < 2 ^ 64 }
    ensures spelled { IfOk result (λ spelled. spelled.items ≡ set_spelled texts.now) }
{
    let count = texts.len() as u64;
    let mut spelled = Vec::with_capacity(alloc, room(texts))?;
    count.spell(&mut spelled)?;
    for text in texts {
        text.spell(&mut spelled)?;
    }
    Ok(spelled)
}

/// So many texts, each after the one before it, and the bytes after them.
pub(crate) fn read_texts(
    alloc: Global,
    count: u64,
    bytes: &[u8],
) -> Result<(Vec<Text>, &[u8]), FieldError>
    ensures read { Gives (λ x. (x.0.items, x.1.now)) result (texts_in count None bytes.now) }
    ensures rising { IfOk result (λ x. IsRising x.0.items) }
{
    let mut texts: Vec<Text> = Vec::new(alloc);
    let mut rest = bytes;
    for _ in 0..count {
        let (text, after) = read_text(alloc, texts.last(), rest)?;
        texts.push(text)?;
        rest = after;
    }
    Ok((texts, rest))
}

/// A flag, and the bytes after it.
#[tactic(auto, unfolding(crate::specs::Reading::flag_in))]
pub(crate) fn read_flag(bytes: &[u8]) -> Result<(Flag, &[u8]), FieldError>
    ensures { Gives (λ x. (x.0, x.1.now)) result (flag_in bytes.now) }
{
    let (switch, rest) = read_byte(bytes)?;
    keep(switch <= 1, bytes)?;
    Ok((Flag { on: switch == 1 }, rest))
}

/// The spelling of a write: its timestamp, its writer and its text.
pub(crate) fn spelled_write(alloc: Global, write: &Written) -> Result<Vec<u8>, Memory>
    ensures sound { IsSoundWrite write.now }
    ensures spelled { IfOk result (λ spelled. spelled.items ≡ write_spelled write.now) }
{
    let timestamp = write.timestamp.number();
    let writer = write.writer.number();
    let mut spelled = Vec::with_capacity(alloc, 10 + write.text.as_str().len())?;
    timestamp.spell(&mut spelled)?;
    writer.spell(&mut spelled)?;
    write.text.spell(&mut spelled)?;
    Ok(spelled)
}

/// The writer and the text of a write with a timestamp, and the bytes after it.
#[tactic(auto, unfolding(crate::specs::Reading::written_in))]
pub(crate) fn read_written(
    alloc: Global,
    timestamp: Timestamp,
    bytes: &[u8],
) -> Result<(Written, &[u8]), FieldError>
    ensures { Gives (λ x. (x.0, x.1.now)) result (written_in timestamp bytes.now) }
{
    let (number, rest) = read_byte(bytes)?;
    let Some(writer) = Id::new(number) else {
        return Err(FieldError::Fault(Fault::BadByte(bytes.len())));
    };
    let (text, rest) = read_text(alloc, None, rest)?;
    let written = Written {
        text,
        timestamp,
        writer,
    };
    Ok((written, rest))
}
