ghost use Rattle.std.specs.Prelude.{◌≡◌, ◌↔◌, ℕ, Some};
ghost use Rattle.top_lines.specs.Saying.{IsIdentity};

use base_vectors::Id;
use itoa::Buffer;

/// The identity that a word is, in decimal without a sign or a leading zero.
pub fn identity(word: &[u8]) -> Option<Id>
    ensures { (n : ℕ) → (result ≡ Some n) ↔ IsIdentity n word.now }
{
    let Ok(text) = str::from_utf8(word) else {
        return None;
    };
    let Ok(number) = text.parse::<u8>() else {
        return None;
    };
    let mut digits = Buffer::new();
    if digits.format(number) != text {
        return None;
    }
    Id::new(number)
}
