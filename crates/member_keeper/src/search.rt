ghost use Rattle.std.specs.Prelude.{◌≡◌};
ghost use Rattle.base_bytes.specs.TextOrder.{text_order};
ghost use Rattle.member_keeper.specs.Places.{IsPlace};

use crate::stored::Stored;
use base_bytes::Text;
use std::cmp::Ordering;

/// Where an entry belongs in a table: in place of the one at an index, or before it.
#[derive(Clone, Copy, Debug, PartialEq, Eq)]
pub(crate) enum Place {
    At(usize),
    Before(usize),
}

/// Which of two keys comes first, by their bytes.
fn order(key: &Text, other: &Text) -> Ordering
    ensures { result ≡ text_order key.now other.now }
{
    key.as_str().cmp(other.as_str())
}

/// Where an entry belongs.
pub(crate) fn find_place(table: &[Stored], entry: &Stored) -> Place
    ensures { IsPlace table.now entry.now result }
{
    let mut index = 0;
    while index < table.len() {
        match order(&table[index].key, &entry.key) {
            Ordering::Less => index += 1,
            Ordering::Equal => return Place::At(index),
            Ordering::Greater => return Place::Before(index),
        }
    }
    Place::Before(index)
}
