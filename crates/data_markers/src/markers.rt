ghost use Rattle.std.specs.Prelude.{◌≡◌, ◌↔◌, ℕ, false, IsTrue, is_some, IsSome, IfSome, IfNone, Some, IfOk, OnOk, OnErr, ◌≤◌};
ghost use Rattle.std.specs.FinMap as map;
ghost use Rattle.model_history.specs.Table.{identity_limit};
ghost use Rattle.model_members.specs.Entry.{Mark, is_same_mark, unseen};
ghost use Rattle.data_markers.specs.Kept.{IsMark};
ghost use Rattle.data_markers.specs.Marks.{mark_of, merged_option, performed_in, begun, marker_seen_by, is_unseen_by, has_unseen_by, MergesTo};

use crate::marker::Marker;
use base_bytes::Memory;
use base_vectors::Id;
use std::alloc::Global;
use std::collections::BTreeMap;
use std::marker::Model;

/// A mark per removed identity.
#[derive(Drop)]
pub struct Markers {
    alloc: Global,
    pub(crate) marks: BTreeMap<u8, Marker>,
}

impl Model for Markers {
    ghost use Rattle.std.specs.Prelude.{ℕ};
    ghost use Rattle.std.specs.FinMap as map;
    ghost use Rattle.std.specs.Ordering.{nat_cmp};
    ghost use Rattle.data_markers.specs.declared.marker.Marker.{Marker};
    ghost use Rattle.std.specs.Coded.{coded_ℕ};
    ghost use Rattle.data_markers.specs.contracts.marker.Marker as contract;

    ghost Value = { map.FinMap nat_cmp Marker };

    ghost coded = { map.code coded_ℕ contract.the_row.coded };

    ghost use Rattle.data_markers.specs.Kept.{AreMarks};

    ghost view = { λ markers. map.from_entries markers.marks.entries };

    ghost invariant = { λ markers. AreMarks markers.marks.entries };
}

impl Markers {
    /// No mark of any identity.
    pub fn new(alloc: Global) -> Markers
        ensures { result ≡ map.empty }
    {
        Markers {
            alloc,
            marks: BTreeMap::new(alloc),
        }
    }

    /// The mark of an identity.
    pub fn get(&self, removed: Id) -> Option<Marker>
        ensures value { result ≡ mark_of self.now removed }
        ensures few { (id : ℕ) → identity_limit ≤ id → mark_of self.now id ≡ None }
        ensures mark { IfSome result IsMark }
    {
        self.marks.get(&removed.number()).copied()
    }

    /// Whether no identity has a mark.
    pub fn is_empty(&self) -> bool
        ensures { IsTrue result ↔ (self.now ≡ map.empty) }
    {
        self.marks.is_empty()
    }

    /// No identity from this on has a mark.
    pub fn limit(&self) -> u8
        ensures above { (id : ℕ) → result ≤ id → mark_of self.now id ≡ None }
        ensures range { result ≤ identity_limit }
    {
        match self.marks.last_key_value() {
            Some((last, _)) => *last + 1,
            None => 0,
        }
    }

    /// Whether the identity was pruned.
    pub fn performed(&self, removed: Id) -> bool
        ensures value { result ≡ performed_in self.now removed }
        ensures few { (id : ℕ) → identity_limit ≤ id → mark_of self.now id ≡ None }
    {
        match self.get(removed) {
            Some(Marker::Performed { .. }) => true,
            _ => false,
        }
    }

    /// Whether the same identities were pruned.
    pub fn same_performed(&self, other: &Markers) -> bool
        ensures { IsTrue result ↔ ((id : ℕ) → performed_in self.now id ≡ performed_in other.now id) }
    {
        for number in 0..self.limit().max(other.limit()) {
            if let Some(id) = Id::new(number) {
                if self.performed(id) != other.performed(id) {
                    return false;
                }
            }
        }
        true
    }

    /// Whether a mark was begun, and not performed.
    pub fn has_begun(&self) -> bool
        ensures { (result ≡ false) ↔ ((id : ℕ) → begun (mark_of self.now id) ≡ None) }
    {
        for number in 0..self.limit() {
            if let Some(id) = Id::new(number) {
                if is_begun(self.get(id)) {
                    return true;
                }
            }
        }
        false
    }

    /// Sets the mark of an identity.
    pub fn put(&mut self, removed: Id, marker: Marker) -> Result<(), Memory>
        requires { IsMark marker }
        ensures ok { OnOk result (self.new ≡ map.insert self.old removed marker) }
        ensures err { OnErr result (self.new ≡ self.old) }
    {
        match self.marks.insert(removed.number(), marker) {
            Ok(_) => Ok(()),
            Err(_) => Err(Memory),
        }
    }

    /// The first of the members that has not seen the mark of an identity.
    pub fn first_unseen(&self, removed: Id, members: &[Id]) -> Option<Id>
        requires { IsSome (begun (mark_of self.now removed)) }
        ensures { (mark : Mark) → begun (mark_of self.now removed) ≡ Some mark → result ≡ unseen mark members.now }
    {
        match self.get(removed) {
            Some(marker) => marker.first_unseen(members),
            None => None,
        }
    }

    /// Adds the identity to each initialized mark whose view is at most this one. Answers whether a mark changed.
    pub fn add_seen(&mut self, id: Id, view: u32) -> bool
        ensures marks { (r : ℕ) → mark_of self.new r ≡ marker_seen_by id view (mark_of self.old r) }
        ensures changed { result ≡ has_unseen_by id view self.old }
    {
        let mut changed = false;
        for number in 0..self.limit() {
            if let Some(removed) = Id::new(number) {
                if self.add_seen_at(removed, id, view) {
                    changed = true;
                }
            }
        }
        changed
    }

    fn add_seen_at(&mut self, removed: Id, id: Id, view: u32) -> bool
        ensures here { mark_of self.new removed ≡ marker_seen_by id view (mark_of self.old removed) }
        ensures others { (r : ℕ) → (r ≡ removed → ⊥) → mark_of self.new r ≡ mark_of self.old r }
        ensures changed { result ≡ is_unseen_by id view (mark_of self.old removed) }
    {
        match newly_seen(self.get(removed), id, view) {
            Some(seen) => {
                self.replace(removed, seen);
                true
            }
            None => false,
        }
    }

    fn replace(&mut self, removed: Id, marker: Marker)
        requires there { IsSome (mark_of self.old removed) }
        requires mark { IsMark marker }
        ensures { self.new ≡ map.insert self.old removed marker }
    {
        if let Some(mark) = self.marks.get_mut(&removed.number()) {
            *mark = marker;
        }
    }

    /// Whether both have begun the same mark of an identity, or neither has begun one.
    pub fn same_begun(&self, other: &Markers, removed: Id) -> bool
        ensures { result ≡ is_same_mark (begun (mark_of self.now removed)) (begun (mark_of other.now removed)) }
    {
        is_same_begun(self.get(removed), other.get(removed))
    }

    /// Equal marks.
    pub fn copy(&self, alloc: Global) -> Result<Markers, Memory>
        ensures { IfOk result (λ copy. copy ≡ self.now) }
    {
        match self.marks.clone() {
            Ok(marks) => Ok(Markers { alloc, marks }),
            Err(_) => Err(Memory),
        }
    }

    /// Takes the marks of another, merged with those that are here.
    pub fn merge(&mut self, other: &Markers) -> Result<(), Memory>
        ensures ok { OnOk result (MergesTo self.old other.now self.new) }
        ensures err { OnErr result (self.new ≡ self.old) }
    {
        if other.is_empty() {
            return Ok(());
        }
        let mut merged = self.copy(self.alloc)?;
        for number in 0..other.limit() {
            if let Some(id) = Id::new(number) {
                if let Some(marker) = other.get(id) {
                    let both = merged_with(self.get(id), marker);
                    merged.put(id, both)?;
                }
            }
        }
        *self = merged;
        Ok(())
    }
}

fn is_begun(marker: Option<Marker>) -> bool
    ensures { (result ≡ false) ↔ (begun marker ≡ None) }
{
    match marker {
        Some(marker) => !marker.is_performed(),
        None => false,
    }
}

fn is_same_begun(mine: Option<Marker>, theirs: Option<Marker>) -> bool
    ensures { result ≡ is_same_mark (begun mine) (begun theirs) }
{
    match mine {
        Some(mine) => match theirs {
            Some(theirs) => mine.same_begun(theirs),
            None => mine.is_performed(),
        },
        None => match theirs {
            Some(theirs) => theirs.is_performed(),
            None => true,
        },
    }
}

/// The mark after a member with this view has seen it, unless it stays the same.
fn newly_seen(marker: Option<Marker>, id: Id, view: u32) -> Option<Marker>
    ensures some { IfSome result (λ seen. marker_seen_by id view marker ≡ Some seen) }
    ensures none { IfNone result (marker_seen_by id view marker ≡ marker) }
    ensures unseen { is_some result ≡ is_unseen_by id view marker }
    ensures mark { IfSome result IsMark }
{
    match marker {
        Some(marker) => marker.newly_seen(id, view),
        None => None,
    }
}

fn merged_with(mine: Option<Marker>, theirs: Marker) -> Marker
    requires mine { IfSome mine IsMark }
    requires theirs { IsMark theirs }
    ensures merged { Some result ≡ merged_option mine (Some theirs) }
    ensures mark { IsMark result }
{
    match mine {
        Some(mine) => mine.merge(theirs),
        None => theirs,
    }
}
