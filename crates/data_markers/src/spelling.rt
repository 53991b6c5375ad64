ghost use Rattle.std.specs.Prelude.{◌≡◌, ◌++◌, length, flat_map, IfOk, OnOk};
ghost use Rattle.std.specs.FinMap as map;
ghost use Rattle.base_bytes.specs.Fields.{Gives};
ghost use Rattle.base_vectors.specs.Fields.{identity_in};
ghost use Rattle.base_vectors.specs.Spelling.{nobody};
ghost use Rattle.data_markers.specs.Kept.{IsSeq, IsMark};
ghost use Rattle.data_markers.specs.Spelling.{begun_in, performed_in_front, marker_in, mark_in, marks_from, put_by, marks_in, marks_spelled, mark_spelled, tail_spelled, all_pieces};
ghost use Rattle.data_markers.specs.Marks.{mark_of, performed_in};
ghost use Rattle.base_vectors.specs.IdSets.{members_in};
ghost use Rattle.data_markers.specs.declared.marker.Marker.TheVariants as Marker;
ghost use Rattle.data_markers.specs.SpellingLaws.{AreSpellable, IsSpellable};

use crate::marker::Marker;
use crate::markers::Markers;
use base_bytes::{FieldError, Memory, keep, read_byte, read_word};
use base_vectors::{IDENTITIES, Id, IdSet, Seq, read_identity, read_positive};
use std::alloc::Global;

/// Numbers of records are at most this.
const MOST_SEQ: u64 = 0x4000_0000_0000_0000;

/// An identity, whoever it is.
fn read_anybody(least: u8, bytes: &[u8]) -> Result<(Id, &[u8]), FieldError>
    ensures { Gives (λ x. (x.0, x.1.now)) result (identity_in least nobody bytes.now) }
{
    read_identity(least, IdSet::empty(), bytes)
}

/// A mark that was begun.
#[tactic(auto, unfolding(crate::specs::Spelling::begun_in))]
fn read_begun(bytes: &[u8]) -> Result<(Marker, &[u8]), FieldError>
    ensures { Gives (λ x. (x.0, x.1.now)) result (begun_in bytes.now) }
{
    let (view, rest) = read_word(bytes)?;
    match read_anybody(0, rest) {
        Ok((owner, rest)) => match IdSet::read(rest) {
            Ok((seen, rest)) => Ok((Marker::Initialized { view, owner, seen }, rest)),
            Err(error) => Err(error),
        },
        Err(error) => Err(error),
    }
}

/// A performed mark.
#[tactic(auto, unfolding(crate::specs::Spelling::performed_in_front))]
fn read_performed(bytes: &[u8]) -> Result<(Marker, &[u8]), FieldError>
    ensures { Gives (λ x. (x.0, x.1.now)) result (performed_in_front bytes.now) }
{
    match read_anybody(0, bytes) {
        Ok((owner, rest)) => {
            let (at, rest) = read_positive(MOST_SEQ, rest)?;
            let (upto, rest) = read_positive(MOST_SEQ, rest)?;
            Ok((Marker::Performed { owner, at, upto }, rest))
        }
        Err(error) => Err(error),
    }
}

/// A mark behind its tag.
#[tactic(auto, unfolding(crate::specs::Spelling::marker_in))]
fn read_tagged(bytes: &[u8]) -> Result<(Marker, &[u8]), FieldError>
    ensures { Gives (λ x. (x.0, x.1.now)) result (marker_in bytes.now) }
{
    let (tag, rest) = read_byte(bytes)?;
    keep(tag < 2, bytes)?;
    if tag == 0 {
        read_begun(rest)
    } else {
        read_performed(rest)
    }
}

/// A mark behind its tag, which is well formed.
fn read_marker(bytes: &[u8]) -> Result<(Marker, &[u8]), FieldError>
    ensures front { Gives (λ x. (x.0, x.1.now)) result (marker_in bytes.now) }
    ensures mark { IfOk result (λ x. IsMark x.0) }
{
    read_tagged(bytes)
}

/// A mark with its identity.
#[derive(Clone, Copy)]
struct Marked {
    removed: Id,
    marker: Marker,
}

/// A mark behind its identity.
#[tactic(auto, unfolding(crate::specs::Spelling::mark_in))]
fn read_mark(least: u8, bytes: &[u8]) -> Result<(Marked, &[u8]), FieldError>
    ensures front { Gives (λ x. ((x.0.removed, x.0.marker), x.1.now)) result (mark_in least bytes.now) }
    ensures mark { IfOk result (λ x. IsMark x.0.marker) }
{
    match read_anybody(least, bytes) {
        Ok((removed, rest)) => match read_marker(rest) {
            Ok((marker, rest)) => Ok((Marked { removed, marker }, rest)),
            Err(error) => Err(error),
        },
        Err(error) => Err(error),
    }
}

/// So many marks, rising by identity.
fn read_marks(alloc: Global, count: u8, bytes: &[u8]) -> Result<(Markers, &[u8]), FieldError>
    ensures { Gives (λ x. (x.0, x.1.now)) result (put_by map.empty (marks_from 0 count bytes.now)) }
{
    let mut marks = Markers::new(alloc);
    let mut least = 0;
    let mut rest = bytes;
    for _ in 0..count {
        match read_mark(least, rest) {
            Ok((mark, after)) => {
                marks.put(mark.removed, mark.marker)?;
                least = mark.removed.number() + 1;
                rest = after;
            }
            Err(error) => return Err(error),
        }
    }
    Ok((marks, rest))
}

/// Appends what is spelled of a mark that was begun, behind its identity.
fn spell_begun(view: u32, owner: Id, seen: IdSet, into: &mut Vec<u8>) -> Result<(), Memory>
    requires { seen ≡ 0 → ⊥ }
    ensures sound { OnOk result (IsSpellable (Marker.Initialized view owner seen)) }
    ensures ok { OnOk result (into.new.items ≡ into.old.items ++ tail_spelled (Marker.Initialized view owner seen)) }
{
    into.push(0)?;
    into.extend_from_slice(&view.to_be_bytes())?;
    into.push(owner.number())?;
    seen.spell(into)
}

/// Appends what is spelled of a performed mark, behind its identity.
fn spell_performed(owner: Id, at: Seq, upto: Seq, into: &mut Vec<u8>) -> Result<(), Memory>
    requires at { IsSeq at }
    requires upto { IsSeq upto }
    ensures sound { OnOk result (IsSpellable (Marker.Performed owner at upto)) }
    ensures ok { OnOk result (into.new.items ≡ into.old.items ++ tail_spelled (Marker.Performed owner at upto)) }
{
    into.push(1)?;
    into.push(owner.number())?;
    into.extend_from_slice(&at.to_be_bytes())?;
    Ok(into.extend_from_slice(&upto.to_be_bytes())?)
}

/// Appends a mark behind its identity.
fn spell_mark(removed: Id, marker: Marker, into: &mut Vec<u8>) -> Result<(), Memory>
    requires { IsMark marker }
    ensures sound { OnOk result (IsSpellable marker) }
    ensures ok { OnOk result (into.new.items ≡ into.old.items ++ mark_spelled removed marker) }
{
    into.push(removed.number())?;
    match marker {
        Marker::Initialized { view, owner, seen } => spell_begun(view, owner, seen, into),
        Marker::Performed { owner, at, upto } => spell_performed(owner, at, upto, into),
    }
}

impl Markers {
    /// The marks at the front of these bytes, and the bytes after them.
    #[tactic(auto, unfolding(crate::specs::Spelling::marks_in))]
    pub fn read(alloc: Global, bytes: &[u8]) -> Result<(Markers, &[u8]), FieldError>
        ensures { Gives (λ x. (x.0, x.1.now)) result (marks_in bytes.now) }
    {
        let (count, rest) = read_byte(bytes)?;
        keep(count <= IDENTITIES, bytes)?;
        read_marks(alloc, count, rest)
    }

    /// The identities that were pruned.
    pub fn performed_ids(&self) -> IdSet
        ensures { members_in result ≡ performed_in self.now }
    {
        let mut ids = IdSet::empty();
        for number in 0..self.limit() {
            if let Some(id) = Id::new(number) {
                if self.performed(id) {
                    ids = ids.with(id);
                }
            }
        }
        ids
    }

    /// How many identities have a mark.
    fn count(&self) -> u8
        ensures { result ≡ length (all_pieces self.now) }
    {
        let mut count = 0;
        for number in 0..self.limit() {
            if let Some(id) = Id::new(number) {
                if let Some(_marker) = self.get(id) {
                    count += 1;
                }
            }
        }
        count
    }

    /// Appends each mark behind its identity.
    fn spell_marks(&self, into: &mut Vec<u8>) -> Result<(), Memory>
        ensures sound { OnOk result (AreSpellable self.now) }
        ensures ok { OnOk result (into.new.items ≡ into.old.items ++ flat_map (λ bytes. bytes) (all_pieces self.now)) }
    {
        for number in 0..self.limit() {
            if let Some(id) = Id::new(number) {
                if let Some(marker) = self.get(id) {
                    spell_mark(id, marker, into)?;
                }
            }
        }
        Ok(())
    }

    /// Appends how many marks there are, and each behind its identity, rising. After a refusal a part of it may have been
    /// appended.
    pub fn spell(&self, into: &mut Vec<u8>) -> Result<(), Memory>
        ensures sound { OnOk result (AreSpellable self.now) }
        ensures ok { OnOk result (into.new.items ≡ into.old.items ++ marks_spelled self.now) }
    {
        into.push(self.count())?;
        self.spell_marks(into)
    }
}
