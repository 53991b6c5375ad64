ghost use Rattle.std.specs.Prelude.{◌≡◌, ℕ, ◌<◌, ◌≤◌, ◌+◌, ◌^◌, [], ◌∷◌, ◌++◌, length, take, drop, nat_lt, true, false, IsOk, OnOk, OnErr};
ghost use Rattle.data_orset.specs.Placing.{at_dot, AreDots};
ghost use Rattle.data_orset.specs.Keeping.{AreMerged, AreLeft};
ghost use Rattle.data_orset.specs.Spots.{dots_in, AreSpots, spot_order, AreInOrder, IsSpotFound, IsBound, IsAlone, HasRoom};

use super::{DotList, Spot, drop_text, intern};
use crate::dots::Rule;
use base_bytes::{Memory, Text};
use base_vectors::Dot;
use data_growing::find;
use std::cmp::Ordering;

/// Which of two dots comes first: by the places of their elements, then by origin, then by number.
fn order(spot: &Spot, other: &Spot) -> Ordering
    ensures { result ≡ spot_order spot.now other.now }
{
    let by_place = spot.place.cmp(&other.place);
    let by_origin = spot.dot.origin.number().cmp(&other.dot.origin.number());
    let by_seq = spot.dot.seq.cmp(&other.dot.seq);
    by_place.then(by_origin.then(by_seq))
}

/// The index of a dot, or else the index at which it belongs.
pub(super) fn find_spot(spots: &[Spot], spot: &Spot) -> Result<usize, usize>
    requires { AreInOrder spots.now }
    ensures { IsSpotFound spots.now spot.now result }
{
    spots.binary_search_by(|other| order(other, spot))
}

/// How many dots are of elements before a place.
pub(super) fn start_of(spots: &[Spot], place: usize) -> usize
    requires { AreInOrder spots.now }
    ensures { IsBound (λ s. nat_lt s.place place) spots.now result }
{
    spots.partition_point(|spot| spot.place < place)
}

/// Adds an element at a dot at its place, unless it is there.
fn put(
    texts: &mut Vec<Text>,
    spots: &mut Vec<Spot>,
    element: &Text,
    dot: &Dot,
) -> Result<(), Memory>
    requires spots { AreSpots texts.old.items spots.old.items }
    requires dots { AreDots (dots_in texts.old.items spots.old.items) }
    requires seq { (1 ≤ dot.now.seq) × (dot.now.seq ≤ 2 ^ 62) }
    ensures spots { AreSpots texts.new.items spots.new.items }
    ensures ok { OnOk result (AreMerged true (λ _. true) (λ _. true) (dots_in texts.old.items spots.old.items) (at_dot dot.now element.now ∷ []) (dots_in texts.new.items spots.new.items)) }
    ensures err { OnErr result (dots_in texts.new.items spots.new.items ≡ dots_in texts.old.items spots.old.items) }
    ensures fits { (n : ℕ) → HasRoom (n + 1) texts.old spots.old → IsOk result × HasRoom n texts.new spots.new }
{
    let place = intern(texts, spots, element)?;
    let spot = Spot { place, dot: *dot };
    match find_spot(spots, &spot) {
        Ok(_) => Ok(()),
        Err(index) => Ok(spots.insert(index, spot)?),
    }
}

/// Adds the dots of a list that stay at their places. After a refusal the dots are as they were.
pub(super) fn put_all<R: Rule>(
    texts: &mut Vec<Text>,
    spots: &mut Vec<Spot>,
    dots: &DotList,
    rule: &R,
) -> Result<(), Memory>
    requires spots { AreSpots texts.old.items spots.old.items }
    requires mine { AreDots (dots_in texts.old.items spots.old.items) }
    requires theirs { AreDots dots.now }
    ensures spots { AreSpots texts.new.items spots.new.items }
    ensures dots { AreDots (dots_in texts.new.items spots.new.items) }
    ensures ok { OnOk result (AreMerged true (λ _. true) (R.keeps rule.now) (dots_in texts.old.items spots.old.items) dots.now (dots_in texts.new.items spots.new.items)) }
    ensures err { OnErr result (dots_in texts.new.items spots.new.items ≡ dots_in texts.old.items spots.old.items) }
    ensures fits { HasRoom (length dots.now) texts.old spots.old → IsOk result }
{
    texts.reserve(dots.len())?;
    spots.reserve(dots.len())?;
    for index in 0..dots.len() {
        if rule.keeps(dots, index) {
            put(texts, spots, dots.element(index), &dots.dot(index))?;
        }
    }
    Ok(())
}

/// Whether neither the dot before the one at an index nor the one after it is of its element.
fn is_alone(spots: &[Spot], index: usize) -> bool
    requires { index < length spots.now }
    ensures { result ≡ true → IsAlone spots.now index }
{
    let place = spots[index].place;
    (index == 0 || spots[index - 1].place != place)
        && (index + 1 == spots.len() || spots[index + 1].place != place)
}

/// Takes the dot at an index out, and its element from the table where that was its last dot.
fn drop_spot(texts: &mut Vec<Text>, spots: &mut Vec<Spot>, index: usize)
    requires spots { AreSpots texts.old.items spots.old.items }
    requires dots { AreDots (dots_in texts.old.items spots.old.items) }
    requires inside { index < length spots.old.items }
    ensures spots { AreSpots texts.new.items spots.new.items }
    ensures rest { dots_in texts.new.items spots.new.items ≡ take index (dots_in texts.old.items spots.old.items) ++ drop (index + 1) (dots_in texts.old.items spots.old.items) }
{
    let alone = is_alone(spots, index);
    let spot = spots.remove(index);
    if alone {
        drop_text(texts, spots, spot.place);
    }
}

/// Takes an element at a dot out, if it is there.
fn take_out(texts: &mut Vec<Text>, spots: &mut Vec<Spot>, element: &Text, dot: &Dot)
    requires spots { AreSpots texts.old.items spots.old.items }
    requires dots { AreDots (dots_in texts.old.items spots.old.items) }
    ensures spots { AreSpots texts.new.items spots.new.items }
    ensures left { AreMerged false (λ _. true) (λ _. false) (dots_in texts.old.items spots.old.items) (at_dot dot.now element.now ∷ []) (dots_in texts.new.items spots.new.items) }
{
    if let Ok(place) = find(texts, element) {
        if let Ok(index) = find_spot(spots, &Spot { place, dot: *dot }) {
            drop_spot(texts, spots, index);
        }
    }
}

/// Takes the dots of a list out, but for those that stay.
pub(super) fn take_out_all<R: Rule>(
    texts: &mut Vec<Text>,
    spots: &mut Vec<Spot>,
    dots: &DotList,
    rule: &R,
)
    requires spots { AreSpots texts.old.items spots.old.items }
    requires mine { AreDots (dots_in texts.old.items spots.old.items) }
    ensures spots { AreSpots texts.new.items spots.new.items }
    ensures left { AreLeft (R.keeps rule.now) (dots_in texts.old.items spots.old.items) dots.now (dots_in texts.new.items spots.new.items) }
{
    for index in 0..dots.len() {
        if !rule.keeps(dots, index) {
            take_out(texts, spots, dots.element(index), &dots.dot(index));
        }
    }
}
