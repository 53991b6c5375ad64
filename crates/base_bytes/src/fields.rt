ghost use Rattle.std.specs.Prelude.{◌≡◌, length, option_copied, is_some, IfSome, OnOk, OnErr, ◌++◌};
ghost use Rattle.std.specs.Str.{is_utf8};
ghost use Rattle.model_history.specs.Texts.{text_lt};
ghost use Rattle.base_bytes.specs.Spelling.{IsText, text_spelled};
ghost use Rattle.base_bytes.specs.Fields.{Gives, kept, byte_in, word_in, number_in, text_in, is_after};

use crate::fault::{Fault, FieldError};
use crate::memory::Memory;
use crate::text::Text;
use std::alloc::Global;

/// Nothing where the rule of the field at the front of these bytes holds; else the fault that it breaks its rule there.
pub fn keep(rule: bool, field: &[u8]) -> Result<(), FieldError>
    ensures { Gives (λ x. x) result (kept rule (length field.now)) }
{
    if rule {
        Ok(())
    } else {
        Err(FieldError::Fault(Fault::BadByte(field.len())))
    }
}

/// A byte, and the bytes after it.
pub fn read_byte(bytes: &[u8]) -> Result<(u8, &[u8]), FieldError>
    ensures { Gives (λ x. (x.0, x.1.now)) result (byte_in bytes.now) }
{
    match bytes {
        [] => Err(FieldError::Fault(Fault::Short(0))),
        [first, rest @ ..] => Ok((*first, rest)),
    }
}

/// A number of four bytes, the greatest first, and the bytes after it.
#[tactic(auto, unfolding(crate::specs::Fields::word_in))]
pub fn read_word(bytes: &[u8]) -> Result<(u32, &[u8]), FieldError>
    ensures { Gives (λ x. (x.0, x.1.now)) result (word_in bytes.now) }
{
    if bytes.len() < 4 {
        return Err(FieldError::Fault(Fault::Short(bytes.len())));
    }
    let (front, rest) = bytes.split_at(4);
    let number = u32::from_be_bytes([front[0], front[1], front[2], front[3]]);
    Ok((number, rest))
}

/// A number of eight bytes, the greatest first, and the bytes after it.
#[tactic(auto, unfolding(crate::specs::Fields::number_in))]
pub fn read_number(bytes: &[u8]) -> Result<(u64, &[u8]), FieldError>
    ensures { Gives (λ x. (x.0, x.1.now)) result (number_in bytes.now) }
{
    if bytes.len() < 8 {
        return Err(FieldError::Fault(Fault::Short(bytes.len())));
    }
    let (front, rest) = bytes.split_at(8);
    let number = u64::from_be_bytes([
        front[0], front[1], front[2], front[3], front[4], front[5], front[6], front[7],
    ]);
    Ok((number, rest))
}

/// Whether a text comes before another, by their bytes.
fn comes_before(text: &str, other: &str) -> bool
    ensures { result ≡ text_lt text.now other.now }
{
    text < other
}

/// The text that the bytes spell, if they are UTF-8.
fn utf8(bytes: &[u8]) -> Option<&str>
    ensures tested { is_some result ≡ is_utf8 bytes.now }
    ensures same { IfSome result (λ text. text.now ≡ bytes.now) }
{
    match str::from_utf8(bytes) {
        Ok(text) => Some(text),
        Err(_) => None,
    }
}

/// Whether a text comes after the one before it, where there is one.
fn is_after(before: Option<&Text>, text: &str) -> bool
    ensures { result ≡ is_after (option_copied before.entry) text.now }
{
    match before {
        Some(before) => comes_before(before.as_str(), text),
        None => true,
    }
}

/// A text behind the number of its bytes, which comes after the text before it, where there is one; and the bytes after it.
#[tactic(auto, unfolding(crate::specs::Fields::text_in))]
pub fn read_text<'a>(
    _alloc: Global,
    before: Option<&Text>,
    bytes: &'a [u8],
) -> Result<(Text, &'a [u8]), FieldError>
    ensures { Gives (λ x. (x.0, x.1.now)) result (text_in (option_copied before.entry) bytes.now) }
{
    let (len, rest) = read_byte(bytes)?;
    keep(len <= 64, bytes)?;
    let len = usize::from(len);
    if rest.len() < len {
        return Err(FieldError::Fault(Fault::Short(rest.len())));
    }
    let (front, after) = rest.split_at(len);
    let Some(text) = utf8(front) else {
        return Err(FieldError::Fault(Fault::BadByte(rest.len())));
    };
    keep(is_after(before, text), rest)?;
    Ok((Text::of_short(text), after))
}

/// Appends the spelling of a text. After a refusal nothing was appended.
pub(crate) fn spell_text(text: &Text, into: &mut Vec<u8>) -> Result<(), Memory>
    ensures sound { IsText text.now }
    ensures ok { OnOk result (into.new.items ≡ into.old.items ++ text_spelled text.now) }
    ensures err { OnErr result (into.new.items ≡ into.old.items) }
{
    let bytes = text.as_str().as_bytes();
    into.push(bytes.len() as u8)?;
    match into.extend_from_slice(bytes) {
        Ok(()) => Ok(()),
        Err(_) => {
            into.pop();
            Err(Memory)
        }
    }
}
