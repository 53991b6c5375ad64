ghost use Rattle.std.specs.Prelude.{◌≡◌, ◌≤◌, ◌++◌, List, length, drop, map, OnOk, IfOk};
ghost use Rattle.std.specs.List.{flat_map, AllByRecursion};
ghost use Rattle.base_places.specs.Places.{GivesOn};
ghost use Rattle.base_places.specs.Lists.{pair_in, pair_spelled, IsSoundPair, items_in, list_in, list_spelled, AreSound};
ghost use Rattle.base_places.specs.ListLaws as laws;

use crate::piece::Piece;
use base_bytes::{Items, Memory, ReadError, Spelled};
use base_places::read_at;
use std::alloc::Global;

/// Appends the spellings of two pieces.
pub(crate) fn put_both<A: Piece, B: Piece>(
    first: &A,
    second: &B,
    into: &mut Vec<u8>,
) -> Result<(), Memory>
    ensures sound { OnOk result (IsSoundPair A.IsSound B.IsSound (A.parts first.now, B.parts second.now)) }
    ensures ok { OnOk result (into.new.items ≡ into.old.items ++ pair_spelled A.spelled B.spelled (A.parts first.now, B.parts second.now)) }
{
    first.put(into)?;
    second.put(into)
}

/// Appends the spellings of three pieces.
pub(crate) fn put_three<A: Piece, B: Piece, C: Piece>(
    first: &A,
    second: &B,
    third: &C,
    into: &mut Vec<u8>,
) -> Result<(), Memory>
    ensures sound { OnOk result (IsSoundPair A.IsSound (IsSoundPair B.IsSound C.IsSound) (A.parts first.now, (B.parts second.now, C.parts third.now))) }
    ensures ok { OnOk result (into.new.items ≡ into.old.items ++ pair_spelled A.spelled (pair_spelled B.spelled C.spelled) (A.parts first.now, (B.parts second.now, C.parts third.now))) }
{
    first.put(into)?;
    put_both(second, third, into)
}

/// Two pieces that are spelled at a place, one behind the other, and the place after them.
pub(crate) fn take_both<A: Piece, B: Piece>(
    alloc: Global,
    from: &[u8],
    place: usize,
) -> Result<((A, B), usize), ReadError>
    requires { place ≤ length from.now }
    ensures within { IfOk result (λ x. x.1 ≤ length from.now) }
    ensures exact { GivesOn from.now (λ x. (A.parts x.0, B.parts x.1)) result (pair_in A.piece_in B.piece_in (drop place from.now)) }
{
    match A::take(alloc, from, place) {
        Ok((first, middle)) => match B::take(alloc, from, middle) {
            Ok((second, next)) => Ok(((first, second), next)),
            Err(error) => Err(error),
        },
        Err(error) => Err(error),
    }
}

/// Appends the spellings of pieces, one behind the other.
fn put_items<X: Piece>(items: &[X], into: &mut Vec<u8>) -> Result<(), Memory>
    ensures sound { OnOk result (AllByRecursion X.IsSound (map X.parts items.now)) }
    ensures ok { OnOk result (into.new.items ≡ into.old.items ++ flat_map X.spelled (map X.parts items.now)) }
{
    for item in items {
        item.put(into)?;
    }
    Ok(())
}

/// So many pieces that are spelled at a place, one behind the other, and the place after them.
fn take_items<X: Piece>(
    alloc: Global,
    count: u64,
    from: &[u8],
    place: usize,
) -> Result<(Items<X>, usize), ReadError>
    requires { place ≤ length from.now }
    ensures within { IfOk result (λ x. x.1 ≤ length from.now) }
    ensures exact { GivesOn from.now (λ items. map X.parts items) result (items_in X.piece_in count (drop place from.now)) }
{
    let mut items = Items::new(alloc);
    let mut next = place;
    for _ in 0..count {
        match X::take(alloc, from, next) {
            Ok((item, after)) => {
                match items.push(item) {
                    Ok(()) => {}
                    Err(_) => return Err(ReadError::Memory),
                }
                next = after;
            }
            Err(error) => return Err(error),
        }
    }
    Ok((items, next))
}

impl<X: Piece> Piece for Items<X> {
    ghost Parts = { List X.Parts };

    ghost parts = { map X.parts };

    ghost IsSound = { AreSound X.IsSound };

    ghost spelled = { list_spelled X.spelled };

    ghost piece_in = { list_in X.piece_in };

    fn put(&self, into: &mut Vec<u8>) -> Result<(), Memory> {
        let count = self.len() as u64;
        count.spell(into)?;
        put_items(self.as_slice(), into)
    }

    fn take(alloc: Global, from: &[u8], place: usize) -> Result<(Items<X>, usize), ReadError> {
        match read_at::<u64>(alloc, from, place) {
            Ok((count, next)) => take_items(alloc, count, from, next),
            Err(error) => Err(error),
        }
    }

    ghost spells = { laws.list_spells X.IsSound X.spelled X.piece_in X.spells };
}

impl<A: Piece, B: Piece> Piece for (A, B) {
    ghost Parts = { A.Parts × B.Parts };

    ghost parts = { λ x. (A.parts x.0, B.parts x.1) };

    ghost IsSound = { IsSoundPair A.IsSound B.IsSound };

    ghost spelled = { pair_spelled A.spelled B.spelled };

    ghost piece_in = { pair_in A.piece_in B.piece_in };

    fn put(&self, into: &mut Vec<u8>) -> Result<(), Memory> {
        put_both(&self.0, &self.1, into)
    }

    fn take(alloc: Global, from: &[u8], place: usize) -> Result<((A, B), usize), ReadError> {
        take_both::<A, B>(alloc, from, place)
    }

    ghost spells = { laws.pair_spells A.IsSound A.spelled A.piece_in B.IsSound B.spelled B.piece_in A.spells B.spells };
}
