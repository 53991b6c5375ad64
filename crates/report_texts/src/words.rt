ghost use Rattle.std.specs.Prelude.{◌≡◌, ◌∷◌, [], ◌++◌, ℕ, map, string_bytes, OnOk};
ghost use Rattle.std.specs.List.{join_with_byte};
ghost use Rattle.model_members.specs.Report.{words_or_dash};

use base_bytes::Memory;

/// Adds the words, with the separator between each two.
pub(crate) fn push_joined(
    text: &mut String,
    separator: &str,
    words: &[String],
) -> Result<(), Memory>
    ensures { (byte : ℕ) → separator.now ≡ byte ∷ []
        → OnOk result (string_bytes text.new ≡ string_bytes text.old ++ join_with_byte byte (map string_bytes words.now)) }
{
    for (i, word) in words.iter().enumerate() {
        if i > 0 {
            text.push_str(separator)?;
        }
        text.push_str(word.as_str())?;
    }
    Ok(())
}

/// Adds the words with a space between each two, or a dash where there are none.
pub(crate) fn push_words_or_dash(text: &mut String, words: &[String]) -> Result<(), Memory>
    ensures { OnOk result (string_bytes text.new ≡ string_bytes text.old ++ words_or_dash (map string_bytes words.now)) }
{
    if words.is_empty() {
        text.push_str("-")?;
        return Ok(());
    }
    push_joined(text, " ", words)
}
