ghost use Rattle.std.specs.Prelude.{◌≡◌, ◌++◌, [], codes, if◌then◌else◌, map, string_bytes, OnOk};
ghost use Rattle.std.specs.List.{list_all, join_with_byte};
ghost use Rattle.json.specs.Run.{is_plain};
ghost use Rattle.json.specs.Print.{quoted};
ghost use Rattle.model_kinds.specs.ShownText.{shown_text};

use base_bytes::{Memory, Text};
use model_kinds::Shown;
use serde_json::Value;
use std::alloc::Global;

/// Whether no byte of the text has an escape in a JSON string.
fn is_plain(text: &str) -> bool
    ensures { result ≡ list_all is_plain text.now }
{
    for byte in text.as_bytes() {
        if *byte == b'"' || *byte == b'\\' || *byte < 32 {
            return false;
        }
    }
    true
}

/// Adds a text as a JSON string, with the escapes of its bytes.
fn push_escaped(alloc: Global, text: &mut String, written: &str) -> Result<(), Memory>
    ensures { OnOk result (string_bytes text.new ≡ string_bytes text.old ++ quoted written.now) }
{
    let value = Value::from(String::from_str(alloc, written)?);
    let string = value.to_string(alloc)?;
    text.push_str(string.as_str())?;
    Ok(())
}

/// Adds the quote that opens an element of a list, behind a comma unless it is the first.
#[inline(always)]
fn push_opening(text: &mut String, is_first: bool) -> Result<(), Memory>
    ensures { OnOk result (string_bytes text.new ≡ string_bytes text.old ++ ((if is_first then [] else codes ",") ++ codes "\"")) }
{
    if is_first {
        text.push_str("\"")?;
    } else {
        text.push_str(",\"")?;
    }
    Ok(())
}

/// Adds a text as a JSON string, behind others of a list or as the first. Where no byte has an escape it is the text itself
/// between quotes.
#[inline(always)]
fn push_element(
    alloc: Global,
    text: &mut String,
    is_first: bool,
    written: &Text,
) -> Result<(), Memory>
    ensures { OnOk result (string_bytes text.new ≡ string_bytes text.old ++ ((if is_first then [] else codes ",") ++ quoted written.now)) }
{
    let written = written.as_str();
    if !is_plain(written) {
        text.push_str(if is_first { "" } else { "," })?;
        return push_escaped(alloc, text, written);
    }
    push_opening(text, is_first)?;
    text.push_str(written)?;
    text.push_str("\"")?;
    Ok(())
}

/// Adds a text as a JSON string.
fn push_quoted(alloc: Global, text: &mut String, written: &Text) -> Result<(), Memory>
    ensures { OnOk result (string_bytes text.new ≡ string_bytes text.old ++ quoted written.now) }
{
    push_element(alloc, text, true, written)
}

/// Adds the elements of a set as JSON strings, with a comma between each two.
fn push_elements(alloc: Global, text: &mut String, elements: &[Text]) -> Result<(), Memory>
    ensures { OnOk result (string_bytes text.new ≡ string_bytes text.old ++ join_with_byte 44 (map quoted elements.now)) }
{
    for (i, element) in elements.iter().enumerate() {
        push_element(alloc, text, i == 0, element)?;
    }
    Ok(())
}

/// Adds a value as reports show it: numbers in decimal, texts as JSON strings, a set in braces, a deleted key by that word.
pub fn push_shown(alloc: Global, text: &mut String, shown: &Shown) -> Result<(), Memory>
    ensures { OnOk result (string_bytes text.new ≡ string_bytes text.old ++ shown_text shown.now) }
{
    match shown {
        Shown::Count(n) => write!(text, "{n}")?,
        Shown::Signed(n) => write!(text, "{n}")?,
        Shown::Elements(elements) => {
            text.push_str("{")?;
            push_elements(alloc, text, elements.as_slice())?;
            text.push_str("}")?;
        }
        Shown::Switch(on) => write!(text, "{on}")?,
        Shown::Written(written) => push_quoted(alloc, text, written)?,
        Shown::Deleted => text.push_str("deleted")?,
    }
    Ok(())
}
