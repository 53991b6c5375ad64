ghost use Rattle.std.specs.Prelude.{◌≡◌, ◌+◌, ◌≤◌, ◌^◌, ℕ, IfOk, IfSome};
ghost use Rattle.std.specs.FinMap as map;
ghost use Rattle.serde_json.specs.View.{view, items_view};
ghost use Rattle.base_vectors.specs.Kept.{AreSeqs};
ghost use Rattle.trace_lines.specs.WellFormed.{IsAct};
ghost use Rattle.trace_text.specs.Fields.{Gives};
ghost use Rattle.trace_text.specs.Acts.{both_of, pair_of, known_after, hold_of};

use crate::fault::Fault;
use crate::fields::{array, has_names, whole_of};
use base_vectors::{Id, Seq, VersionVector};
use script_reading::LAST_IDENTITY;
use serde_json::Value;
use std::alloc::Global;
use trace_lines::TraceAct;

/// The greatest number of a record.
const LAST_SEQ: Seq = 1 << 62;

/// An identity, no less than so much, and how many of its records are held.
fn both(identity: &Value, number: &Value, least: u64) -> Option<(Id, Seq)>
    ensures value { result ≡ both_of least (view identity.now) (view number.now) }
    ensures bounds { IfSome result (λ pair. (least ≤ pair.0) × (1 ≤ pair.1) × (pair.1 ≤ 2 ^ 62)) }
{
    let id = Id::new(whole_of(identity, least, LAST_IDENTITY)? as u8)?;
    Some((id, whole_of(number, 1, LAST_SEQ)?))
}

/// The same, as a list of two.
#[tactic(auto, unfolding(crate::specs::Acts::pair_of))]
fn pair(value: &Value, least: u64) -> Option<(Id, Seq)>
    ensures value { result ≡ pair_of least (view value.now) }
    ensures bounds { IfSome result (λ pair. (least ≤ pair.0) × (1 ≤ pair.1) × (pair.1 ≤ 2 ^ 62)) }
{
    let list = value.as_array()?.as_slice();
    if list.len() == 2 {
        both(&list[0], &list[1], least)
    } else {
        None
    }
}

/// How many records of each identity are held, by pairs with rising identities.
#[tactic(auto, unfolding(crate::specs::Acts::known_after))]
fn known(alloc: Global, pairs: &[Value]) -> Result<VersionVector, Fault>
    ensures value { Gives (λ known. known) result (known_after 0 map.empty (items_view pairs.now)) }
    ensures bounds { IfOk result AreSeqs }
{
    let mut known = VersionVector::new(alloc);
    let mut least = 0u64;
    for value in pairs {
        let Some((id, number)) = pair(value, least) else {
            return Err(Fault::Broken);
        };
        known.raise(id, number)?;
        least = u64::from(id.number()) + 1;
    }
    Ok(known)
}

/// What is held.
#[tactic(auto, unfolding(crate::specs::Acts::hold_of))]
pub(crate) fn hold(alloc: Global, value: &Value) -> Result<TraceAct, Fault>
    ensures value { Gives (λ act. act) result (hold_of (view value.now)) }
    ensures bounds { IfOk result IsAct }
{
    if !has_names(value, &["at", "do", "key", "known"], &[]) {
        return Err(Fault::Broken);
    }
    let Some(pairs) = array(value, "known") else {
        return Err(Fault::Broken);
    };
    Ok(TraceAct::Hold(known(alloc, pairs)?))
}
