ghost use Rattle.std.specs.Prelude.{◌≡◌, ◌<◌, ◌≤◌, ◌-◌, ◌+◌, ◌^◌, ◌++◌, length, take, drop, map, OnOk, OnErr, IfOk};
ghost use Rattle.std.specs.List.{All};
ghost use Rattle.data_orset.specs.Elements.{IsPlaced, IsSoundSet, dot_spelled, element_spelled, elements_spelled, set_spelled};
ghost use Rattle.data_orset.specs.Runs.{grouped, first_run};
ghost use Rattle.data_orset.specs.Placing.{dot_at, nth};

use crate::dot_list::DotList;
use crate::set::OrSet;
use base_bytes::{Memory, Spelled};
use base_vectors::Dot;
use std::alloc::Global;

/// Looks at a dot: its element is a text, and its origin an identity.
fn look_at(dots: &DotList, index: usize)
    requires { index < length dots.now }
    ensures { IsPlaced (nth dots.now index) }
{
    let _text = dots.element(index).as_str();
    let _origin = dots.dot(index).origin.number();
}

/// Looks at each dot.
fn look_at_all(dots: &DotList)
    ensures each { All IsPlaced dots.now }
    ensures few { length dots.now < 2 ^ 64 }
{
    for index in 0..dots.len() {
        look_at(dots, index);
    }
}

/// The place after the dots of one element, of which this is the first.
fn run_end(dots: &DotList, start: usize) -> usize
    requires { start < length dots.now }
    ensures place { result ≡ start + first_run (drop start dots.now) }
    ensures within { (start < result) × (result ≤ length dots.now) }
{
    for end in start..dots.len() {
        if !dots.same_element(start, end) {
            return end;
        }
    }
    dots.len()
}

/// How many elements the dots have.
fn count_runs(dots: &DotList) -> usize
    ensures { result ≡ length (grouped dots.now) }
{
    let mut count = 0;
    let mut start = 0;
    while start < dots.len() {
        start = run_end(dots, start);
        count += 1;
    }
    count
}

/// Appends the spelling of a dot.
fn spell_dot(dot: &Dot, into: &mut Vec<u8>) -> Result<(), Memory>
    ensures { OnOk result (into.new.items ≡ into.old.items ++ dot_spelled dot.now) }
{
    dot.origin.number().spell(into)?;
    dot.seq.spell(into)
}

/// Appends the spelling of the element at an index with its dots, which end before another.
fn spell_element(dots: &DotList, start: usize, end: usize, into: &mut Vec<u8>) -> Result<(), Memory>
    requires some { start < end }
    requires within { end ≤ length dots.now }
    ensures { OnOk result (into.new.items ≡ into.old.items ++ element_spelled (record { text = (nth dots.now start).element; dots = map dot_at (take (end - start) (drop start dots.now)) })) }
{
    dots.element(start).spell(into)?;
    ((end - start) as u64).spell(into)?;
    for index in start..end {
        spell_dot(&dots.dot(index), into)?;
    }
    Ok(())
}

/// The spelling of dots, element by element.
fn spelling_of(alloc: Global, dots: &DotList) -> Result<Vec<u8>, Memory>
    ensures { IfOk result (λ bytes. bytes.items ≡ elements_spelled (grouped dots.now)) }
{
    let mut bytes = Vec::new(alloc);
    (count_runs(dots) as u64).spell(&mut bytes)?;
    let mut start = 0;
    while start < dots.len() {
        let end = run_end(dots, start);
        spell_element(dots, start, end, &mut bytes)?;
        start = end;
    }
    Ok(bytes)
}

impl OrSet {
    /// Appends the spelling. After a refusal nothing was appended.
    pub(crate) fn spell(&self, into: &mut Vec<u8>) -> Result<(), Memory>
        ensures sound { IsSoundSet self.now }
        ensures ok { OnOk result (into.new.items ≡ into.old.items ++ set_spelled self.now) }
        ensures err { OnErr result (into.new.items ≡ into.old.items) }
    {
        look_at_all(&self.dots);
        let bytes = spelling_of(self.alloc, &self.dots)?;
        Ok(into.extend_from_slice(&bytes)?)
    }
}
