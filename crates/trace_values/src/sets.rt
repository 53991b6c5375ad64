ghost use Rattle.std.specs.Prelude.{◌≡◌, ◌<◌, ◌≤◌, ◌+◌, [], length, filter, false, OnOk, IfOk, IfErr};
ghost use Rattle.model_history.specs.Table.{identity_limit};
ghost use Rattle.model_history.specs.History.{History, versions, IsHistory};
ghost use Rattle.model_history.specs.Log.{IsTakenFrom};
ghost use Rattle.model_kinds.specs.declared.operation.Op as operations;
ghost use Rattle.model_traces.specs.Traces.{recorded};
ghost use Rattle.base_bytes.specs.TextOrder.{text_order, IsRising};
ghost use Rattle.base_vectors.specs.Vectors.{number_at};
ghost use Rattle.data_growing.specs.Texts.{IsFound};
ghost use Rattle.data_meaning.specs.Records.{action_of};
ghost use Rattle.trace_values.specs.Rows.{AreRows};
ghost use Rattle.trace_values.specs.Elements.{names, is_pruned, counts_add, counts_live, IsMarked, AreMarked, IsPlaced, IsNamed, IsKept, StandForElements};

use crate::elements::{is_added, is_last_live, is_live};
use crate::rising::{Rising, push_if};
use base_bytes::{Items, Memory, Text};
use base_vectors::{Id, Seq, VersionVector};
use data_meaning::{Action, Record};
use model_kinds::Op;
use std::alloc::Global;
use std::cmp::Ordering;

/// An element, and of each identity the numbers of the records that touch it, and of those that add it.
#[derive(Drop)]
pub(crate) struct Element {
    pub(crate) name: Text,
    pub(crate) touches: Vec<Rising>,
    pub(crate) adds: Vec<Rising>,
}

fn order(text: &Text, other: &Text) -> Ordering
    ensures { result ≡ text_order text.now other.now }
{
    text.as_str().cmp(other.as_str())
}

/// Where an element stands, or else where it belongs. The names rise.
fn search(elements: &[Element], name: &Text) -> Result<usize, usize>
    ensures here { IfOk result (λ place. place < length elements.now) }
    ensures there { IfErr result (λ place. place ≤ length elements.now) }
    ensures found { IsRising (names elements.now) → IsFound (names elements.now) name.now result }
{
    let mut low = 0;
    let mut high = elements.len();
    while low < high {
        let middle = low + (high - low) / 2;
        match order(&elements[middle].name, name) {
            Ordering::Less => low = middle + 1,
            Ordering::Equal => return Ok(middle),
            Ordering::Greater => high = middle,
        }
    }
    Err(low)
}

/// An element that no record has named.
fn unnamed(alloc: Global, name: &Text) -> Element
    ensures { (result.name ≡ name.now) × (result.touches.items ≡ []) × (result.adds.items ≡ []) }
{
    Element {
        name: name.copied(),
        touches: Vec::new(alloc),
        adds: Vec::new(alloc),
    }
}

/// Where an element stands, which is put in its place if it isn't there.
fn place_of(elements: &mut Vec<Element>, alloc: Global, name: &Text) -> Result<usize, Memory>
    ensures { IfOk result (λ place. IsPlaced elements.old.items elements.new.items name.now place) }
{
    match search(elements.as_slice(), name) {
        Ok(place) => Ok(place),
        Err(place) => {
            elements.insert(place, unnamed(alloc, name))?;
            Ok(place)
        }
    }
}

/// Keeps a record of an identity with an element, if it touches it, and if it adds it.
fn mark(
    element: &mut Element,
    alloc: Global,
    id: Id,
    number: Seq,
    touching: bool,
    adding: bool,
) -> Result<(), Memory>
    ensures { OnOk result (IsMarked touching adding id number element.old element.new) }
{
    push_if(&mut element.touches, alloc, id, number, touching)?;
    push_if(&mut element.adds, alloc, id, number, adding)
}

/// Keeps a record of an identity that names an element.
fn keep_named(
    elements: &mut Vec<Element>,
    alloc: Global,
    id: Id,
    number: Seq,
    name: &Text,
    adding: bool,
) -> Result<(), Memory>
    ensures { OnOk result (IsNamed name.now adding id number elements.old.items elements.new.items) }
{
    let place = place_of(elements, alloc, name)?;
    mark(&mut elements[place], alloc, id, number, true, adding)
}

/// Keeps a record of an identity with the element that its operation names, if it names one.
fn keep_operation(
    elements: &mut Vec<Element>,
    alloc: Global,
    id: Id,
    number: Seq,
    op: &Op,
) -> Result<(), Memory>
    ensures { OnOk result (IsKept op.now id number elements.old.items elements.new.items) }
{
    match op {
        Op::Add(name) => keep_named(elements, alloc, id, number, name, true),
        Op::Remove(name) => keep_named(elements, alloc, id, number, name, false),
        _ => Ok(()),
    }
}

/// Keeps a record of an identity that prunes another with the elements that it touches: those of which the last touch of the pruned one in its past is live.
fn keep_prune(
    elements: &mut Vec<Element>,
    alloc: Global,
    rows: &[Items<Record>],
    past: &VersionVector,
    id: Id,
    number: Seq,
    removed: Id,
) -> Result<(), Memory>
    ensures { OnOk result (AreMarked (length elements.old.items) (is_pruned rows.now (number_at past.now) removed) (λ x. false) id number elements.old.items elements.new.items) }
{
    for place in 0..elements.len() {
        let element = &mut elements[place];
        let touching = is_last_live(
            rows,
            element.touches.as_slice(),
            &element.name,
            past,
            removed,
        );
        mark(element, alloc, id, number, touching, false)?;
    }
    Ok(())
}

/// Keeps one more record of an identity, which has this number and this past, with the elements that it touches.
pub(crate) fn push_elements(
    elements: &mut Vec<Element>,
    alloc: Global,
    rows: &[Items<Record>],
    past: &VersionVector,
    id: Id,
    number: Seq,
    action: &Action,
) -> Result<(), Memory>
    requires { id < identity_limit }
    ensures { OnOk result ((made H : History operations.Op) → StandForElements elements.old.items made → AreRows rows.now made → IsHistory made → IsTakenFrom made H → H id ≡ made id → number_at past.now ≡ versions H → number ≡ length (made id) + 1
        → StandForElements elements.new.items (recorded made id H (action_of action.now))) }
{
    match action {
        Action::Operation(op) => keep_operation(elements, alloc, id, number, op),
        Action::Prune(removed) => {
            let _known = removed.number();
            keep_prune(elements, alloc, rows, past, id, number, *removed)
        }
    }
}

/// The elements that records add, of those that a vector counts.
pub(crate) fn added(
    elements: &[Element],
    alloc: Global,
    known: &VersionVector,
) -> Result<Items<Text>, Memory>
    ensures { IfOk result (λ all. all ≡ names (filter (counts_add (number_at known.now)) elements.now)) }
{
    let mut all = Items::new(alloc);
    for element in elements {
        if is_added(element.adds.as_slice(), known) {
            all.push(element.name.copied())?;
        }
    }
    Ok(all)
}

/// The elements of which one of the last touches is live, of those that a vector counts.
pub(crate) fn live(
    elements: &[Element],
    alloc: Global,
    rows: &[Items<Record>],
    known: &VersionVector,
) -> Result<Items<Text>, Memory>
    ensures { IfOk result (λ all. all ≡ names (filter (counts_live rows.now (number_at known.now)) elements.now)) }
{
    let mut all = Items::new(alloc);
    for element in elements {
        if is_live(rows, element.touches.as_slice(), &element.name, known) {
            all.push(element.name.copied())?;
        }
    }
    Ok(all)
}
