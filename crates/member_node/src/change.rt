ghost use Rattle.std.specs.Prelude.{◌≡◌, ◌<◌, None, Some, length, map, slice_index_or, slice_set, OnOk};
ghost use Rattle.std.specs.Option.{option_copied};
ghost use Rattle.member_node.specs.Changes.{changed, change_at, IsPlaceFor, PutsChange, IsSparse, AreWritten, AreChanged, AreRising};
ghost use Rattle.member_node.specs.Taking.{current_of, put_at};

use crate::key::KeyState;
use base_bytes::Memory;
use base_vectors::VersionVector;
use data_envelope::Envelope;
use data_lattice::Replica;
use std::alloc::Global;
use std::marker::Model;

/// What a step writes at a key, once all memory for it was given.
#[derive(Drop)]
pub(crate) enum Change<T: Replica> {
    /// Another entry.
    Entry(Envelope<T>),
    /// Other numbers that were flushed.
    Flushed(VersionVector),
}

/// What a step writes at the key of a place.
#[derive(Drop)]
pub(crate) struct ChangeAt<T: Replica> {
    pub(crate) index: usize,
    pub(crate) change: Change<T>,
}

/// What a step writes at the keys. Only those that change stand in it, in their order. Contracts see for each key its change,
/// if there is one.
#[derive(Drop)]
pub(crate) struct Changes<T: Replica> {
    /// How many keys there are.
    keys: usize,
    written: Vec<ChangeAt<T>>,
}

impl<T: Replica> Model for Changes<T> {
    ghost use Rattle.std.specs.Prelude.{List, Option};
    ghost use Rattle.std.specs.Coded.{codes};
    ghost use Rattle.base_vectors.specs.contracts.vector.VersionVector as versions;
    ghost use Rattle.data_markers.specs.contracts.markers.Markers as markers;
    ghost use Rattle.member_node.specs.declared.change.Change.{Change};
    ghost use Rattle.member_node.specs.Changes.{each_of, AreRising};

    ghost Value = { List (Option (Change T T.Kind T.Op T.Delta)) };

    ghost coded = { Prim.hlevel (codes, versions.the_row.coded, markers.the_row.coded) };

    ghost view = { λ changes. each_of changes.keys changes.written.items };

    ghost invariant = { λ changes. AreRising 0 changes.keys changes.written.items };
}

impl<T: Replica> Changes<T> {
    /// What is written, in the order of the keys.
    pub(crate) fn written(&self) -> &[ChangeAt<T>]
        ensures { IsSparse self.now result.now }
    {
        self.written.as_slice()
    }

    /// The change of the key at a place, if there is one.
    fn at(&self, index: usize) -> Option<&Change<T>>
        requires { index < length self.now }
        ensures { option_copied result ≡ slice_index_or self.now index None }
    {
        find_change(&self.written, index)
    }

    /// Notes the change of the key at a place.
    pub(crate) fn set(&mut self, index: usize, change: Change<T>) -> Result<(), Memory>
        requires { index < length self.old }
        ensures { OnOk result (self.new ≡ slice_set self.old index (Some change)) }
    {
        put_change(&mut self.written, index, change)
    }
}

/// The change of a place, if there is one.
fn find_change<T: Replica>(written: &[ChangeAt<T>], index: usize) -> Option<&Change<T>>
    ensures { option_copied result ≡ change_at written.now index }
{
    match written.iter().find(|at| at.index == index) {
        Some(at) => Some(&at.change),
        None => None,
    }
}

/// Where the change of a place stands among these, or has to stand.
fn place_for<T: Replica>(written: &[ChangeAt<T>], index: usize) -> usize
    ensures { IsPlaceFor written.now index result }
{
    let mut place = written.len();
    while place > 0 && written[place - 1].index >= index {
        place -= 1;
    }
    place
}

/// Puts the change of a place among these, or in place of the one that is there.
fn put_change<T: Replica>(
    written: &mut Vec<ChangeAt<T>>,
    index: usize,
    change: Change<T>,
) -> Result<(), Memory>
    ensures { PutsChange index change written.old.items written.new.items result }
{
    let place = place_for(written, index);
    let at = ChangeAt { index, change };
    if place < written.len() && written[place].index == index {
        written[place] = at;
        return Ok(());
    }
    match written.insert(place, at) {
        Ok(()) => Ok(()),
        Err(_) => Err(Memory),
    }
}

fn write<T: Replica>(state: &mut KeyState<T>, change: Change<T>)
    ensures { state.new ≡ changed state.old (Some change) }
{
    match change {
        Change::Entry(entry) => state.entry.put(entry),
        Change::Flushed(flushed) => state.flushed = flushed,
    }
}

/// Writes the change of the key at a place.
fn write_at<T: Replica>(keys: &mut [KeyState<T>], index: usize, change: Change<T>)
    requires { index < length keys.old }
    ensures { (at : KeyState T T.Kind T.Op T.Delta) × (at ≡ slice_index_or keys.old index at) × (keys.new ≡ slice_set keys.old index (changed at (Some change))) }
{
    write(&mut keys[index], change);
}

/// Writes these changes, each at its key.
fn write_each<T: Replica>(keys: &mut [KeyState<T>], mut written: Vec<ChangeAt<T>>)
    requires { AreRising 0 (length keys.old) written.items }
    ensures { AreWritten keys.old written.items keys.new }
{
    while let Some(at) = written.pop() {
        let ChangeAt { index, change } = at;
        write_at(keys, index, change);
    }
}

/// Writes the changes.
pub(crate) fn write_all<T: Replica>(keys: &mut [KeyState<T>], changes: Changes<T>)
    requires { length changes ≡ length keys.old }
    ensures { AreChanged keys.old changes keys.new }
{
    let Changes { written, .. } = changes;
    write_each(keys, written);
}

/// No change of any key.
pub(crate) fn unchanged<T: Replica>(alloc: Global, keys: &[KeyState<T>]) -> Changes<T>
    ensures { result ≡ map (λ state. None) keys.now }
{
    Changes {
        keys: keys.len(),
        written: Vec::new(alloc),
    }
}

/// What the entry of the key at a place is once the changes are written.
pub(crate) fn current<'a, T: Replica>(
    state: &'a KeyState<T>,
    changes: &'a Changes<T>,
    index: usize,
) -> &'a Envelope<T>
    requires { index < length changes.now }
    ensures { result.now ≡ current_of state.now (slice_index_or changes.now index None) }
{
    match changes.at(index) {
        Some(Change::Entry(entry)) => entry,
        _ => state.entry.envelope(),
    }
}

/// Notes another entry for the key at a place, if there is one.
pub(crate) fn put<T: Replica>(
    changes: &mut Changes<T>,
    index: usize,
    entry: Option<Envelope<T>>,
) -> Result<(), Memory>
    requires { index < length changes.old }
    ensures { OnOk result (changes.new ≡ put_at changes.old index entry) }
{
    match entry {
        Some(entry) => changes.set(index, Change::Entry(entry)),
        None => Ok(()),
    }
}
