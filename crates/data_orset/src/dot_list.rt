ghost use Rattle.std.specs.Prelude.{◌≡◌, ◌<◌, ◌≤◌, ◌+◌, ◌-◌, ◌^◌, [], ◌∷◌, ◌++◌, length, map, take, drop, get_or, not, nat_eq, if◌then◌else◌, nat_le, nat_lt, true, false, vec_len, vec_capacity, IsOk, OnOk, OnErr, IfOk};
ghost use Rattle.std.specs.List.{filter, list_any};
ghost use Rattle.std.specs.Str.{bytes_eq};
ghost use Rattle.std.specs.FinSet as set;
ghost use Rattle.data_orset.specs.Placing.{key, at_dot, dot_at, nth, AreDots};
ghost use Rattle.data_orset.specs.Keeping.{set_of, AreMerged, AreLeft, IsRunOf};
ghost use Rattle.data_orset.specs.Spots.{placed_in, dots_in, AreSpots, ArePlacesBelow, shifted, lowered};

mod changes;

use crate::dots::{All, Rule};
use base_bytes::{Memory, Text};
use base_vectors::{Dot, Id};
use changes::{find_spot, put_all, start_of, take_out_all};
use data_growing::{copied, find};
use std::alloc::Global;
use std::marker::Model;

/// A dot of the element at a place of a table.
#[derive(Clone, Copy)]
struct Spot {
    place: usize,
    dot: Dot,
}

/// Elements at dots, in a list. An element's text stands once in a table in byte order, and each of its dots names it by its place there. Where
/// `drop_dots_of` takes an element's last dot, its text stays until the list is built anew.
#[derive(Drop)]
pub struct DotList {
    texts: Vec<Text>,
    spots: Vec<Spot>,
}

impl Model for DotList {
    ghost use Rattle.std.specs.Prelude.{List, map};
    ghost use Rattle.data_orset.specs.Placing.{Placed};
    ghost use Rattle.data_orset.specs.Spots.{placed_in, AreSpots};

    ghost Value = { List Placed };

    ghost view = { λ list. map (placed_in list.texts.items) list.spots.items };

    ghost invariant = { λ list. AreSpots list.texts.items list.spots.items };
}

/// A place after one more text stands in the table.
fn moved(place: usize, from: usize) -> usize
    requires { place + 1 < 2 ^ 64 }
    ensures { result ≡ (if nat_le from place then place + 1 else place) }
{
    if from <= place { place + 1 } else { place }
}

/// Renumbers dots after one more text stands in the table.
fn shift(spots: &mut [Spot], from: usize)
    requires { ArePlacesBelow (2 ^ 64 - 1) spots.old }
    ensures { spots.new ≡ map (shifted from) spots.old }
{
    for spot in spots.iter_mut() {
        spot.place = moved(spot.place, from);
    }
}

/// Renumbers the dots of so many texts, where one more stands at a place.
fn make_room(spots: &mut [Spot], len: usize, from: usize)
    requires { ArePlacesBelow len spots.old }
    ensures { spots.new ≡ map (shifted from) spots.old }
{
    if from < len {
        shift(spots, from);
    }
}

/// The place of an element in the table, where it is put if it is not there.
fn intern(texts: &mut Vec<Text>, spots: &mut Vec<Spot>, element: &Text) -> Result<usize, Memory>
    requires { AreSpots texts.old.items spots.old.items }
    ensures spots { AreSpots texts.new.items spots.new.items }
    ensures same { dots_in texts.new.items spots.new.items ≡ dots_in texts.old.items spots.old.items }
    ensures place { IfOk result (λ place. (place < length texts.new.items) × (get_or texts.new.items place [] ≡ element.now)) }
    ensures fits { vec_len texts.old < vec_capacity texts.old → IsOk result }
    ensures grown { (vec_len texts.new ≤ vec_len texts.old + 1) × (vec_capacity texts.old ≤ vec_capacity texts.new) }
    ensures room { (vec_len spots.new ≡ vec_len spots.old) × (vec_capacity spots.new ≡ vec_capacity spots.old) }
{
    match find(texts, element) {
        Ok(place) => Ok(place),
        Err(place) => {
            let len = texts.len();
            texts.insert(place, element.copied())?;
            make_room(spots, len, place);
            Ok(place)
        }
    }
}

/// A place after the text at another went from the table.
fn closed(place: usize, gap: usize) -> usize
    ensures { result ≡ (if nat_lt gap place then place - 1 else place) }
{
    if gap < place { place - 1 } else { place }
}

/// Renumbers dots after the text at a place went from the table.
fn close(spots: &mut [Spot], gap: usize)
    ensures { spots.new ≡ map (lowered gap) spots.old }
{
    for spot in spots.iter_mut() {
        spot.place = closed(spot.place, gap);
    }
}

/// Takes the text at a place, which no dot is of, from the table.
fn drop_text(texts: &mut Vec<Text>, spots: &mut Vec<Spot>, place: usize)
    requires spots { AreSpots texts.old.items spots.old.items }
    requires within { place < length texts.old.items }
    requires unused { list_any (λ s. bytes_eq (get_or texts.old.items place []) (placed_in texts.old.items s).element) spots.old.items ≡ false }
    ensures spots { AreSpots texts.new.items spots.new.items }
    ensures same { dots_in texts.new.items spots.new.items ≡ dots_in texts.old.items spots.old.items }
{
    texts.remove(place);
    close(spots, place);
}

/// Takes an element that no dot is of from the table, if it is there.
fn forget(texts: &mut Vec<Text>, spots: &mut Vec<Spot>, element: &Text)
    requires spots { AreSpots texts.old.items spots.old.items }
    requires unused { list_any (λ s. bytes_eq element.now (placed_in texts.old.items s).element) spots.old.items ≡ false }
    ensures spots { AreSpots texts.new.items spots.new.items }
    ensures same { dots_in texts.new.items spots.new.items ≡ dots_in texts.old.items spots.old.items }
{
    if let Ok(place) = find(texts, element) {
        drop_text(texts, spots, place);
    }
}

/// Drops the dots from an index up to another.
fn cut(spots: &mut Vec<Spot>, start: usize, end: usize)
    requires order { start ≤ end }
    requires within { end ≤ length spots.old.items }
    ensures { spots.new.items ≡ take start spots.old.items ++ drop end spots.old.items }
{
    for _ in start..end {
        spots.remove(start);
    }
}

/// Puts a dot in the place of those from an index up to another. After a refusal the dots are as they were.
fn replace(spots: &mut Vec<Spot>, start: usize, end: usize, spot: &Spot) -> Result<(), Memory>
    requires order { start ≤ end }
    requires within { end ≤ length spots.old.items }
    ensures ok { OnOk result (spots.new.items ≡ take start spots.old.items ++ spot.now ∷ drop end spots.old.items) }
    ensures err { OnErr result (spots.new.items ≡ spots.old.items) }
{
    spots.insert(start, *spot)?;
    cut(spots, start + 1, end + 1);
    Ok(())
}

impl DotList {
    /// The empty list.
    pub(crate) fn new(alloc: Global) -> DotList
        ensures { result ≡ [] }
    {
        DotList {
            texts: Vec::new(alloc),
            spots: Vec::new(alloc),
        }
    }

    /// An equal list.
    pub(crate) fn copy(&self, alloc: Global) -> Result<DotList, Memory>
        ensures { IfOk result (λ copy. copy ≡ self.now) }
    {
        let texts = copied(alloc, &self.texts)?;
        let mut spots = Vec::new(alloc);
        spots.extend_from_slice(&self.spots)?;
        Ok(DotList { texts, spots })
    }

    /// How many dots there are.
    pub(crate) fn len(&self) -> usize
        ensures { result ≡ length self.now }
    {
        self.spots.len()
    }

    /// The element of the dot at an index.
    pub(crate) fn element(&self, index: usize) -> &Text
        requires { index < length self.now }
        ensures { result.now ≡ (nth self.now index).element }
    {
        &self.texts[self.spots[index].place]
    }

    /// The dot at an index.
    pub(crate) fn dot(&self, index: usize) -> Dot
        requires { index < length self.now }
        ensures { result ≡ dot_at (nth self.now index) }
    {
        self.spots[index].dot
    }

    /// Whether two dots are of one element.
    pub(crate) fn same_element(&self, index: usize, other: usize) -> bool
        requires index { index < length self.now }
        requires other { other < length self.now }
        ensures { result ≡ bytes_eq (nth self.now index).element (nth self.now other).element }
    {
        self.spots[index].place == self.spots[other].place
    }

    /// Adds an element at a dot at the end.
    pub(crate) fn push(&mut self, element: &Text, dot: &Dot) -> Result<(), Memory>
        ensures { OnOk result (self.new ≡ self.old ++ at_dot dot.now element.now ∷ []) }
    {
        let place = intern(&mut self.texts, &mut self.spots, element)?;
        Ok(self.spots.push(Spot { place, dot: *dot })?)
    }

    /// Drops the dots from an index up to another.
    pub(crate) fn drop_between(&mut self, start: usize, end: usize)
        requires order { start ≤ end }
        requires within { end ≤ length self.old }
        ensures { self.new ≡ take start self.old ++ drop end self.old }
    {
        cut(&mut self.spots, start, end);
    }

    /// Puts an element at a dot in the place of the dots from an index up to another. After a refusal the list is as it was.
    pub(crate) fn replace(
        &mut self,
        start: usize,
        end: usize,
        element: &Text,
        dot: &Dot,
    ) -> Result<(), Memory>
        requires order { start ≤ end }
        requires within { end ≤ length self.old }
        ensures ok { OnOk result (self.new ≡ take start self.old ++ at_dot dot.now element.now ∷ drop end self.old) }
        ensures err { OnErr result (self.new ≡ self.old) }
    {
        let place = intern(&mut self.texts, &mut self.spots, element)?;
        replace(&mut self.spots, start, end, &Spot { place, dot: *dot })?;
        Ok(())
    }

    /// Takes an element that no dot is of from the table, if it is there.
    pub(crate) fn forget(&mut self, element: &Text)
        requires { list_any (λ p. bytes_eq element.now p.element) self.old ≡ false }
        ensures { self.new ≡ self.old }
    {
        forget(&mut self.texts, &mut self.spots, element);
    }

    /// From which index up to which the dots of an element stand, or would stand.
    pub(crate) fn run_of(&self, element: &Text) -> (usize, usize)
        requires { AreDots self.now }
        ensures { IsRunOf self.now element.now result.0 result.1 }
    {
        match find(&self.texts, element) {
            Ok(place) => (
                start_of(&self.spots, place),
                start_of(&self.spots, place + 1),
            ),
            Err(place) => {
                let start = start_of(&self.spots, place);
                (start, start)
            }
        }
    }

    /// Whether an element has a dot.
    pub(crate) fn has(&self, element: &Text, dot: &Dot) -> bool
        requires { AreDots self.now }
        ensures { result ≡ set.contains (set_of self.now) (key element.now dot.now.origin dot.now.seq) }
    {
        match find(&self.texts, element) {
            Ok(place) => find_spot(&self.spots, &Spot { place, dot: *dot }).is_ok(),
            Err(_) => false,
        }
    }

    /// Adds the dots of another list that stay, each at its place. After a refusal the list is as it was.
    pub(crate) fn unite<R: Rule>(&mut self, other: &DotList, rule: &R) -> Result<(), Memory>
        requires mine { AreDots self.old }
        requires theirs { AreDots other.now }
        ensures dots { AreDots self.new }
        ensures ok { OnOk result (AreMerged true (λ _. true) (R.keeps rule.now) self.old other.now self.new) }
        ensures err { OnErr result (self.new ≡ self.old) }
    {
        put_all(&mut self.texts, &mut self.spots, other, rule)
    }

    /// Adds to each of two lists the dots of another, each at its place. After a refusal both are as they were.
    pub(crate) fn unite_both(
        first: &mut DotList,
        to_first: &DotList,
        second: &mut DotList,
        to_second: &DotList,
    ) -> Result<(), Memory>
        requires first { AreDots first.old }
        requires to_first { AreDots to_first.now }
        requires second { AreDots second.old }
        requires to_second { AreDots to_second.now }
        ensures first_dots { AreDots first.new }
        ensures second_dots { AreDots second.new }
        ensures first { OnOk result (AreMerged true (λ _. true) (λ _. true) first.old to_first.now first.new) }
        ensures second { OnOk result (AreMerged true (λ _. true) (λ _. true) second.old to_second.now second.new) }
        ensures err { OnErr result ((first.new ≡ first.old) × (second.new ≡ second.old)) }
    {
        second.texts.reserve(to_second.len())?;
        second.spots.reserve(to_second.len())?;
        put_all(&mut first.texts, &mut first.spots, to_first, &All)?;
        put_all(&mut second.texts, &mut second.spots, to_second, &All)?;
        Ok(())
    }

    /// Drops the dots of another list, but for those that stay.
    pub(crate) fn drop_all<R: Rule>(&mut self, other: &DotList, rule: &R)
        requires { AreDots self.old }
        ensures { AreLeft (R.keeps rule.now) self.old other.now self.new }
    {
        take_out_all(&mut self.texts, &mut self.spots, other, rule);
    }

    /// Drops every dot of an identity.
    pub(crate) fn drop_dots_of(&mut self, id: Id)
        ensures { self.new ≡ filter (λ p. not (nat_eq p.origin id)) self.old }
    {
        self.spots.retain(|spot| spot.dot.origin != id);
    }
}
