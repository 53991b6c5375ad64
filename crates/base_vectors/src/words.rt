//! Lists of words, which are 0 from their end on.
ghost use Rattle.std.specs.Prelude.{◌≡◌, ℕ, ◌+◌, ◌<◌, ◌≤◌, max, length, slice_index, vec_len, IfSome, IfNone, OnOk, OnErr};
ghost use Rattle.base_vectors.specs.Words.{IsFirstBelow};

use base_bytes::Memory;

/// So many words are gone over in one step.
const LANE: usize = 8;

/// Lengthens the list to so many words, if it is shorter.
pub(crate) fn lengthen(words: &mut Vec<u64>, count: usize) -> Result<(), Memory>
    ensures same { (i : ℕ) → slice_index words.new.items i ≡ slice_index words.old.items i }
    ensures ok { OnOk result (vec_len words.new ≡ max (vec_len words.old) count) }
    ensures err { OnErr result (words.new.items ≡ words.old.items) }
{
    if words.len() < count {
        words.resize(count, 0)?;
    }
    Ok(())
}

/// Keeps the greater word at each index from one up to another.
#[inline(always)]
fn raise_between(words: &mut [u64], others: &[u64], from: usize, to: usize)
    requires order { from ≤ to }
    requires words { to ≤ length words.old }
    requires others { to ≤ length others.now }
    ensures between { (i : ℕ) → from ≤ i → i < to → slice_index words.new i ≡ max (slice_index words.old i) (slice_index others.now i) }
    ensures before { (i : ℕ) → i < from → slice_index words.new i ≡ slice_index words.old i }
    ensures after { (i : ℕ) → to ≤ i → slice_index words.new i ≡ slice_index words.old i }
{
    for index in from..to {
        words[index] = words[index].max(others[index]);
    }
}

/// Keeps the greater word at each index.
pub(crate) fn raise_each(words: &mut [u64], others: &[u64])
    requires { length others.now ≤ length words.old }
    ensures { (i : ℕ) → slice_index words.new i ≡ max (slice_index words.old i) (slice_index others.now i) }
{
    let lanes = others.len() / LANE;
    for lane in 0..lanes {
        raise_between(words, others, lane * LANE, lane * LANE + LANE);
    }
    raise_between(words, others, lanes * LANE, others.len());
}

/// The first index, from one up to another, at which a word is below the one that is needed.
#[inline(always)]
fn first_below_between(words: &[u64], needs: &[u64], from: usize, to: usize) -> Option<usize>
    requires order { from ≤ to }
    requires words { to ≤ length words.now }
    requires needs { to ≤ length needs.now }
    ensures some { IfSome result (λ i. (from ≤ i) × (i < to) × IsFirstBelow words.now needs.now from i) }
    ensures none { IfNone result ((i : ℕ) → from ≤ i → i < to → slice_index needs.now i ≤ slice_index words.now i) }
{
    for index in from..to {
        if words[index] < needs[index] {
            return Some(index);
        }
    }
    None
}

/// The first index from one on at which a word is not 0.
fn first_some(words: &[u64], from: usize) -> Option<usize>
    ensures some { IfSome result (λ i. (from ≤ i) × (i < length words.now) × (1 ≤ slice_index words.now i) × ((j : ℕ) → from ≤ j → j < i → slice_index words.now j ≡ 0)) }
    ensures none { IfNone result ((i : ℕ) → from ≤ i → slice_index words.now i ≡ 0) }
{
    for index in from..words.len() {
        if words[index] > 0 {
            return Some(index);
        }
    }
    None
}

/// The first index at which a word is below the one that is needed.
pub(crate) fn first_below(words: &[u64], needs: &[u64]) -> Option<usize>
    ensures some { IfSome result (λ i. (i < length needs.now) × IsFirstBelow words.now needs.now 0 i) }
    ensures none { IfNone result ((i : ℕ) → slice_index needs.now i ≤ slice_index words.now i) }
{
    let both = words.len().min(needs.len());
    let lanes = both / LANE;
    for lane in 0..lanes {
        let first = first_below_between(words, needs, lane * LANE, lane * LANE + LANE);
        if first.is_some() {
            return first;
        }
    }
    let first = first_below_between(words, needs, lanes * LANE, both);
    if first.is_some() {
        return first;
    }
    first_some(needs, both)
}
