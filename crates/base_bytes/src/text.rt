ghost use Rattle.std.specs.Prelude.{◌≡◌, ◌≤◌, ◌↔◌, [], length, IsOk, IfOk};
ghost use Rattle.base_bytes.specs.Spelling.{IsText};

use arrayvec::ArrayString;
use std::marker::Model;

/// A text has at most so many bytes.
pub const MOST_BYTES: usize = 64;

/// A text of at most 64 bytes of UTF-8, which contracts see as its bytes. They lie in the value, so a copy takes no memory.
#[derive(Drop)]
pub struct Text {
    text: ArrayString<MOST_BYTES>,
}

impl Model for Text {
    ghost use Rattle.std.specs.Prelude.{ℕ, List};

    ghost Value = { List ℕ };

    ghost view = { λ t. t.text.bytes };
}

/// The text has more bytes than it may.
#[derive(Clone, Copy, Debug, PartialEq, Eq)]
pub struct TooLong;

impl Text {
    /// A text with these bytes, unless they are more than 64.
    pub fn new(text: &str) -> Result<Text, TooLong>
        ensures variant { IsOk result ↔ (length text.now ≤ MOST_BYTES) }
        ensures value { IfOk result (λ made. made ≡ text.now) }
    {
        if text.len() > MOST_BYTES {
            return Err(TooLong);
        }
        Ok(Text::of_short(text))
    }

    /// The text of no bytes.
    pub fn empty() -> Text
        ensures { result ≡ [] }
    {
        Text::of_short("")
    }

    /// A text with these bytes, which are no more than 64.
    pub(crate) fn of_short(text: &str) -> Text
        requires { length text.now ≤ MOST_BYTES }
        ensures { result ≡ text.now }
    {
        let mut bytes = ArrayString::new();
        bytes.push_str(text);
        Text { text: bytes }
    }

    /// The text as a string slice.
    pub fn as_str(&self) -> &str
        ensures value { result.now ≡ self.now }
        ensures within { length self.now ≤ MOST_BYTES }
        ensures text { IsText self.now }
    {
        self.text.as_str()
    }

    /// An equal text, which takes no memory.
    pub fn copied(&self) -> Text
        ensures { result ≡ self.now }
    {
        Text { text: self.text }
    }
}
