ghost use Rattle.std.specs.Prelude.{◌≡◌, ℕ, ◌<◌, ◌≤◌, [], ◌∷◌, ◌++◌, List, Bool, true, not, nat_eq, length, drop, OnOk, IfOk, if◌then◌else◌};
ghost use Rattle.std.specs.List.{filter, list_any};
ghost use Rattle.std.specs.FinSet as set;
ghost use Rattle.base_vectors.specs.Vectors.{number_at};
ghost use Rattle.data_orset.specs.Placing.{placed_order, key_of, nth, AreDots};
ghost use Rattle.data_orset.specs.Dots.{contained, is_of};
ghost use Rattle.data_orset.specs.Keeping.{AreMerged};

use crate::dot_list::DotList;
use crate::set::OrSet;
use base_bytes::Memory;
use base_vectors::{Id, VersionVector};
use std::alloc::Global;
use std::cmp::Ordering;

/// Which dots stay.
pub(crate) trait Rule {
    ghost keeps: { Self → List ℕ → Bool };

    /// Whether the dot at an index stays.
    fn keeps(&self, dots: &DotList, index: usize) -> bool
        requires { index < length dots.now }
        ensures { result ≡ keeps self.now (key_of (nth dots.now index)) };
}

/// All dots stay.
pub(crate) struct All;

impl Rule for All {
    ghost keeps = { λ _ _. true };

    fn keeps(&self, _dots: &DotList, _index: usize) -> bool {
        true
    }
}

/// The dots of an identity stay.
impl Rule for Id {
    ghost keeps = { λ id k. is_of id k };

    fn keeps(&self, dots: &DotList, index: usize) -> bool {
        dots.dot(index).origin == *self
    }
}

/// Those stay that the vector doesn't count.
impl Rule for VersionVector {
    ghost keeps = { λ vector k. not (contained (number_at vector) k) };

    fn keeps(&self, dots: &DotList, index: usize) -> bool {
        !self.contains_dot(dots.dot(index))
    }
}

/// Those stay that the set has.
impl Rule for OrSet {
    ghost keeps = { λ kept k. set.contains kept k };

    fn keeps(&self, dots: &DotList, index: usize) -> bool {
        self.dots.has(dots.element(index), &dots.dot(index))
    }
}

/// Which of two dots comes first: by the elements' bytes, then by origin, then by number.
pub(crate) fn order(mine: &DotList, here: usize, theirs: &DotList, there: usize) -> Ordering
    requires mine { here < length mine.now }
    requires theirs { there < length theirs.now }
    ensures { result ≡ placed_order (nth mine.now here) (nth theirs.now there) }
{
    let dot = mine.dot(here);
    let other = theirs.dot(there);
    let by_element = mine
        .element(here)
        .as_str()
        .cmp(theirs.element(there).as_str());
    let by_origin = dot.origin.number().cmp(&other.origin.number());
    let by_seq = dot.seq.cmp(&other.seq);
    by_element.then(by_origin.then(by_seq))
}

/// Adds the dot at an index of a list at the end of another, if it stays.
pub(crate) fn append(
    all: &mut DotList,
    dots: &DotList,
    index: usize,
    stays: bool,
) -> Result<(), Memory>
    requires { index < length dots.now }
    ensures { OnOk result (all.new ≡ all.old ++ (if stays then nth dots.now index ∷ [] else [])) }
{
    if !stays {
        return Ok(());
    }
    all.push(dots.element(index), &dots.dot(index))
}

/// Adds the dots from an index on that stay at the end of another list.
pub(crate) fn append_kept<R: Rule>(
    all: &mut DotList,
    dots: &DotList,
    from: usize,
    rule: &R,
) -> Result<(), Memory>
    requires { from ≤ length dots.now }
    ensures { OnOk result (all.new ≡ all.old ++ filter (λ p. R.keeps rule.now (key_of p)) (drop from dots.now)) }
{
    for index in from..dots.len() {
        append(all, dots, index, rule.keeps(dots, index))?;
    }
    Ok(())
}

/// The dots that stay.
pub(crate) fn kept<R: Rule>(alloc: Global, dots: &DotList, rule: &R) -> Result<DotList, Memory>
    ensures { IfOk result (λ all. all ≡ filter (λ p. R.keeps rule.now (key_of p)) dots.now) }
{
    let mut all = DotList::new(alloc);
    append_kept(&mut all, dots, 0, rule)?;
    Ok(all)
}

/// Whether a dot is of this origin.
pub(crate) fn has_origin(dots: &DotList, id: Id) -> bool
    ensures { result ≡ list_any (λ p. nat_eq p.origin id) dots.now }
{
    for index in 0..dots.len() {
        if dots.dot(index).origin == id {
            return true;
        }
    }
    false
}

/// The dots of two sets that stay, in one pass over both: those of both where `both` says so, and those of one alone by its rule.
pub(crate) fn merged<M: Rule, T: Rule>(
    alloc: Global,
    both: bool,
    mine: &DotList,
    my_rule: &M,
    theirs: &DotList,
    their_rule: &T,
) -> Result<DotList, Memory>
    requires mine { AreDots mine.now }
    requires theirs { AreDots theirs.now }
    ensures { IfOk result (λ all. AreMerged both (M.keeps my_rule.now) (T.keeps their_rule.now) mine.now theirs.now all) }
{
    let mut all = DotList::new(alloc);
    let mut here = 0;
    let mut there = 0;
    while here < mine.len() && there < theirs.len() {
        match order(mine, here, theirs, there) {
            Ordering::Less => {
                append(&mut all, mine, here, my_rule.keeps(mine, here))?;
                here += 1;
            }
            Ordering::Equal => {
                append(&mut all, mine, here, both)?;
                here += 1;
                there += 1;
            }
            Ordering::Greater => {
                append(&mut all, theirs, there, their_rule.keeps(theirs, there))?;
                there += 1;
            }
        }
    }
    append_kept(&mut all, mine, here, my_rule)?;
    append_kept(&mut all, theirs, there, their_rule)?;
    Ok(all)
}
