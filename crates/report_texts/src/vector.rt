ghost use Rattle.std.specs.Prelude.{◌≡◌, ◌++◌, map, decimal, codes, string_bytes, OnOk, IfOk};
ghost use Rattle.model_history.specs.Table.{identities};
ghost use Rattle.model_history.specs.History.{History, at};
ghost use Rattle.model_members.specs.Entry.{Entry};
ghost use Rattle.data_envelope.specs.Images.{StandsFor};
ghost use Rattle.data_envelope.specs.Words.{parts_of};
ghost use Rattle.report_texts.specs.Entries.{known_text};
ghost use Rattle.report_texts.specs.Pairs.{pair_words};

use crate::words::push_words_or_dash;
use base_bytes::{Items, Memory};
use base_vectors::{Id, Seq};
use data_envelope::Envelope;
use data_lattice::Replica;
use std::alloc::Global;

/// An identity and its number.
fn pair(alloc: Global, number: u8, seq: Seq) -> Result<String, Memory>
    ensures { IfOk result (λ pair. string_bytes pair ≡ decimal number ++ codes ":" ++ decimal seq) }
{
    Ok(format!(in alloc; "{number}:{seq}")?)
}

/// How many records of each identity an entry has, as pairs.
fn pairs<T: Replica>(alloc: Global, envelope: &Envelope<T>) -> Result<Items<String>, Memory>
    ensures { (log : History T.Op) (entry : Entry T.Op) → StandsFor T.IsDataOf (parts_of envelope.now) log entry
        → IfOk result (λ pairs. map string_bytes pairs ≡ pair_words (at entry.history) identities) }
{
    let mut pairs = Items::new(alloc);
    for number in 0..envelope.limit() {
        if let Some(id) = Id::new(number) {
            let seq = envelope.at(id);
            if seq > 0 {
                pairs.push(pair(alloc, number, seq)?)?;
            }
        }
    }
    Ok(pairs)
}

/// Adds how many records of each identity an entry has, where there are some: `1:3 4:2`, or a dash.
pub fn push_known<T: Replica>(
    alloc: Global,
    text: &mut String,
    envelope: &Envelope<T>,
) -> Result<(), Memory>
    ensures { (log : History T.Op) (entry : Entry T.Op) → StandsFor T.IsDataOf (parts_of envelope.now) log entry
        → OnOk result (string_bytes text.new ≡ string_bytes text.old ++ known_text entry) }
{
    let pairs = pairs(alloc, envelope)?;
    push_words_or_dash(text, pairs.as_slice())
}
