ghost use Rattle.std.specs.Prelude.{◌≡◌, ◌↔◌, IsTrue, IfOk};
ghost use Rattle.member_desk.specs.Values.{same_shown};

use base_bytes::{Items, Memory, Text};
use model_kinds::Shown;
use std::alloc::Global;

/// Whether both values are the same.
pub(crate) fn is_same(one: &Shown, other: &Shown) -> bool
    ensures { result ≡ same_shown one.now other.now }
{
    same_value(one, other)
}

/// Whether both texts have the same bytes.
fn same_text(one: &Text, other: &Text) -> bool
    ensures { IsTrue result ↔ (one.now ≡ other.now) }
{
    one.as_str() == other.as_str()
}

/// Whether both lists have the same texts in the same order.
fn same_texts(one: &[Text], other: &[Text]) -> bool
    ensures { IsTrue result ↔ (one.now ≡ other.now) }
{
    if one.len() != other.len() {
        return false;
    }
    for index in 0..one.len() {
        if !same_text(&one[index], &other[index]) {
            return false;
        }
    }
    true
}

/// Whether both show the same.
fn same_value(one: &Shown, other: &Shown) -> bool
    ensures { IsTrue result ↔ (one.now ≡ other.now) }
{
    match one {
        Shown::Count(number) => match other {
            Shown::Count(also) => number == also,
            _ => false,
        },
        Shown::Signed(number) => match other {
            Shown::Signed(also) => number == also,
            _ => false,
        },
        Shown::Elements(texts) => match other {
            Shown::Elements(also) => same_texts(texts.as_slice(), also.as_slice()),
            _ => false,
        },
        Shown::Switch(on) => match other {
            Shown::Switch(also) => on == also,
            _ => false,
        },
        Shown::Written(text) => match other {
            Shown::Written(also) => same_text(text, also),
            _ => false,
        },
        Shown::Deleted => match other {
            Shown::Deleted => true,
            _ => false,
        },
    }
}

/// An equal value.
pub(crate) fn copied(alloc: Global, shown: &Shown) -> Result<Shown, Memory>
    ensures { IfOk result (λ copy. copy ≡ shown.now) }
{
    match shown {
        Shown::Count(count) => Ok(Shown::Count(*count)),
        Shown::Signed(count) => Ok(Shown::Signed(*count)),
        Shown::Elements(texts) => {
            let mut copies = Items::new(alloc);
            for text in texts.as_slice() {
                copies.push(text.copied())?;
            }
            Ok(Shown::Elements(copies))
        }
        Shown::Switch(on) => Ok(Shown::Switch(*on)),
        Shown::Written(text) => Ok(Shown::Written(text.copied())),
        Shown::Deleted => Ok(Shown::Deleted),
    }
}
