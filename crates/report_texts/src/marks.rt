ghost use Rattle.std.specs.Prelude.{◌≡◌, ◌++◌, map, filter_map, decimal, string_bytes, OnOk, IfOk};
ghost use Rattle.model_history.specs.Table.{identities};
ghost use Rattle.model_history.specs.Vector.{members_of};
ghost use Rattle.model_history.specs.History.{History};
ghost use Rattle.model_members.specs.Entry.{Entry};
ghost use Rattle.base_vectors.specs.IdSets.{members_in};
ghost use Rattle.data_envelope.specs.Images.{StandsFor};
ghost use Rattle.data_envelope.specs.Words.{parts_of};
ghost use Rattle.report_texts.specs.Entries.{marks_text};
ghost use Rattle.report_texts.specs.Marks.{marker_text, marker_word};

use crate::words::{push_joined, push_words_or_dash};
use base_bytes::{Items, Memory};
use base_vectors::{Id, IdSet};
use data_envelope::Envelope;
use data_lattice::Replica;
use data_markers::{Marker, Markers};
use std::alloc::Global;

/// A number in decimal.
fn number_text(alloc: Global, number: u8) -> Result<String, Memory>
    ensures { IfOk result (λ text. string_bytes text ≡ decimal number) }
{
    Ok(format!(in alloc; "{number}")?)
}

/// The members of a set, each as a text.
fn members(alloc: Global, set: IdSet) -> Result<Items<String>, Memory>
    ensures { IfOk result (λ texts. map string_bytes texts ≡ map decimal (members_of (members_in set))) }
{
    let mut texts = Items::new(alloc);
    for number in 0..set.limit() {
        if let Some(id) = Id::new(number) {
            if set.has(id) {
                texts.push(number_text(alloc, number)?)?;
            }
        }
    }
    Ok(texts)
}

/// How far the pruning of an identity is.
fn marker_text(alloc: Global, removed: u8, marker: Marker) -> Result<String, Memory>
    ensures { IfOk result (λ text. string_bytes text ≡ marker_text removed marker) }
{
    match marker {
        Marker::Performed { owner, at, upto: _ } => {
            let owner = owner.number();
            Ok(format!(in alloc; "{removed}>{owner}@{at}")?)
        }
        Marker::Initialized { view, owner, seen } => {
            let owner = owner.number();
            let mut text = format!(in alloc; "{removed}>{owner}/{view}:")?;
            let members = members(alloc, seen)?;
            push_joined(&mut text, ".", members.as_slice())?;
            Ok(text)
        }
    }
}

/// The marks of an entry, each as a text.
fn marker_texts(alloc: Global, markers: &Markers) -> Result<Items<String>, Memory>
    ensures { IfOk result (λ texts. map string_bytes texts ≡ filter_map (marker_word markers.now) identities) }
{
    let mut texts = Items::new(alloc);
    for number in 0..markers.limit() {
        if let Some(id) = Id::new(number) {
            if let Some(marker) = markers.get(id) {
                texts.push(marker_text(alloc, number, marker)?)?;
            }
        }
    }
    Ok(texts)
}

/// Adds the marks of an entry: `2>0@5` where identity 2 was pruned by record 5 of its owner 0, `2>0/1:0.3` where the
/// owner 0 is going to prune it and members 0 and 3 have seen the mark of view 1. A dash stands for no mark.
pub fn push_marks<T: Replica>(
    alloc: Global,
    text: &mut String,
    envelope: &Envelope<T>,
) -> Result<(), Memory>
    ensures { (log : History T.Op) (entry : Entry T.Op) → StandsFor T.IsDataOf (parts_of envelope.now) log entry
        → OnOk result (string_bytes text.new ≡ string_bytes text.old ++ marks_text entry) }
{
    let texts = marker_texts(alloc, envelope.markers())?;
    push_words_or_dash(text, texts.as_slice())
}
