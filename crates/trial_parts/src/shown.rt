ghost use Rattle.std.specs.Prelude.{◌≡◌, ◌↔◌, IsTrue};

use base_bytes::Text;
use model_kinds::Shown;

fn same_text(one: &Text, other: &Text) -> bool
    ensures { IsTrue result ↔ (one.now ≡ other.now) }
{
    one.as_str() == other.as_str()
}

/// Whether both lists have the same texts in the same order.
fn same_texts(one: &[Text], other: &[Text]) -> bool
    ensures { IsTrue result ↔ (one.now ≡ other.now) }
{
    if one.len() != other.len() {
        return false;
    }
    for index in 0..one.len() {
        if !same_text(&one[index], &other[index]) {
            return false;
        }
    }
    true
}

/// Whether both show the same.
pub(crate) fn same_shown(one: &Shown, other: &Shown) -> bool
    ensures { IsTrue result ↔ (one.now ≡ other.now) }
{
    match one {
        Shown::Count(number) => match other {
            Shown::Count(also) => number == also,
            _ => false,
        },
        Shown::Signed(number) => match other {
            Shown::Signed(also) => number == also,
            _ => false,
        },
        Shown::Elements(texts) => match other {
            Shown::Elements(also) => same_texts(texts.as_slice(), also.as_slice()),
            _ => false,
        },
        Shown::Switch(on) => match other {
            Shown::Switch(also) => on == also,
            _ => false,
        },
        Shown::Written(text) => match other {
            Shown::Written(also) => same_text(text, also),
            _ => false,
        },
        Shown::Deleted => match other {
            Shown::Deleted => true,
            _ => false,
        },
    }
}
