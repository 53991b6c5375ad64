ghost use Rattle.std.specs.Prelude.{◌≡◌, ◌+◌, ◌<◌, ◌≤◌, ◌^◌, ℕ, [], length, vec_len, not, OnOk, IfOk};
ghost use Rattle.base_vectors.specs.Vectors.{number_at};
ghost use Rattle.trace_lines.specs.Meant.{act_meant};
ghost use Rattle.trace_told.specs.Told.{are_alike, is_news};
ghost use Rattle.trace_recorder.specs.Rows.{vector_at, IsPut, IsRaised, AreEmpty, HasCounted, HasCountedAt};

use base_bytes::Memory;
use base_vectors::{Id, Seq, VersionVector};
use std::alloc::Global;
use trace_lines::TraceAct;

/// The greatest number of a record.
const LAST_SEQ: Seq = 1 << 62;

/// How many records of each identity members hold of a key, by the lines so far. The list ends where nothing more is known.
#[derive(Drop)]
pub(crate) struct Row {
    pub(crate) held: Vec<VersionVector>,
}

/// Whether both count as many records of each identity.
fn are_alike(held: &VersionVector, known: &VersionVector) -> bool
    ensures { result ≡ are_alike (number_at held.now) (number_at known.now) }
{
    // No identity from the limit on has a record.
    let _limits = (held.limit(), known.limit());
    held.same(known)
}

impl Row {
    /// Nobody holds a record.
    pub(crate) fn new(alloc: Global) -> Row
        ensures { result.held.items ≡ [] }
    {
        Row {
            held: Vec::new(alloc),
        }
    }

    /// How many records of each identity a member holds.
    fn known(&self, alloc: Global, at: Id) -> Result<VersionVector, Memory>
        ensures { IfOk result (λ known. known ≡ vector_at self.now.held.items at) }
    {
        match self.held.get(usize::from(at.number())) {
            Some(known) => known.copy(alloc),
            None => Ok(VersionVector::new(alloc)),
        }
    }

    /// Whether a member holds so many records of each identity.
    fn is_known(&self, alloc: Global, at: Id, known: &VersionVector) -> bool
        ensures { result ≡ are_alike (number_at (vector_at self.now.held.items at)) (number_at known.now) }
    {
        match self.held.get(usize::from(at.number())) {
            Some(held) => are_alike(held, known),
            None => are_alike(&VersionVector::new(alloc), known),
        }
    }

    /// Makes the list longer than an index, by vectors that count nothing.
    fn lengthen(&mut self, alloc: Global, index: usize) -> Result<(), Memory>
        requires { index < 255 }
        ensures same { OnOk result ((i : ℕ) → vector_at self.new.held.items i ≡ vector_at self.old.held.items i) }
        ensures long { OnOk result (index < length self.new.held.items) }
    {
        while self.held.len() <= index {
            self.held.push(VersionVector::new(alloc))?;
        }
        Ok(())
    }

    /// Puts another vector at a member.
    fn put(&mut self, alloc: Global, at: Id, known: VersionVector) -> Result<(), Memory>
        ensures { OnOk result (IsPut self.old.held.items self.new.held.items at known) }
    {
        let index = usize::from(at.number());
        self.lengthen(alloc, index)?;
        self.held[index] = known;
        Ok(())
    }

    /// A member made one record more. Memory has no room for so many that there is no number for it.
    fn raise(&mut self, alloc: Global, at: Id) -> Result<(), Memory>
        ensures { OnOk result (IsRaised self.old.held.items self.new.held.items at) }
    {
        let mut known = self.known(alloc, at)?;
        let count = known.at(at);
        if count >= LAST_SEQ {
            return Err(Memory);
        }
        known.raise(at, count + 1)?;
        self.put(alloc, at, known)
    }

    /// Whether the lines so far do not say what a member does.
    pub(crate) fn is_news(&self, alloc: Global, at: Id, act: &TraceAct) -> bool
        ensures { result ≡ is_news (number_at (vector_at self.now.held.items at)) (act_meant act.now) }
    {
        match act {
            TraceAct::Hold(known) => !self.is_known(alloc, at, known),
            _ => true,
        }
    }

    /// Counts what a member does.
    pub(crate) fn count(&mut self, alloc: Global, at: Id, act: &TraceAct) -> Result<(), Memory>
        ensures { OnOk result (HasCounted self.old.held.items self.new.held.items at (act_meant act.now)) }
    {
        match act {
            TraceAct::Record(_) => self.raise(alloc, at),
            TraceAct::Prune(_) => self.raise(alloc, at),
            TraceAct::Hold(known) => {
                let copy = known.copy(alloc)?;
                self.put(alloc, at, copy)
            }
            TraceAct::Show(_) => Ok(()),
        }
    }
}

/// Nobody holds a record of so many keys.
pub(crate) fn empty_rows(alloc: Global, count: usize) -> Result<Vec<Row>, Memory>
    ensures count { IfOk result (λ rows. vec_len rows ≡ count) }
    ensures empty { IfOk result (λ rows. AreEmpty rows.items) }
{
    let mut rows = Vec::new(alloc);
    while rows.len() < count {
        rows.push(Row::new(alloc))?;
    }
    Ok(rows)
}

/// Whether what a member does with the key at this place is news. If it is, it is counted.
pub(crate) fn count_at(
    alloc: Global,
    rows: &mut Vec<Row>,
    place: usize,
    at: Id,
    act: &TraceAct,
) -> Result<bool, Memory>
    requires { place < vec_len rows.old }
    ensures count { vec_len rows.new ≡ vec_len rows.old }
    ensures counted { IfOk result (λ news. HasCountedAt place at (act_meant act.now) news rows.old.items rows.new.items) }
{
    let row = &mut rows[place];
    if !row.is_news(alloc, at, act) {
        return Ok(false);
    }
    row.count(alloc, at, act)?;
    Ok(true)
}
