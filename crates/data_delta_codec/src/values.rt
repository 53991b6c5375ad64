ghost use Rattle.std.specs.Prelude.{◌≡◌};
ghost use Rattle.data_value.specs.Spelled as bytes;
ghost use Rattle.data_delta_codec.specs.Values as values;
ghost use Rattle.data_delta_codec.specs.ValueLaws as laws;

use crate::spelled_delta::SpelledDelta;
use base_bytes::{Memory, ReadError};
use base_vectors::Id;
use data_counters::{GCounter, PnCounter};
use data_growing::{Flag, GSet, LwwRegister};
use data_orset::OrSet;
use data_value::{Change, Value};
use model_kinds::Kind;
use std::alloc::Global;

/// The kind of a byte that is one's.
fn kind_at(byte: u8) -> Kind
    ensures { result ≡ bytes.kind_at byte }
{
    match byte {
        1 => Kind::GCounter,
        2 => Kind::PnCounter,
        3 => Kind::GSet,
        4 => Kind::OrSet,
        5 => Kind::Flag,
        _ => Kind::LwwRegister,
    }
}

impl SpelledDelta for Value {
    ghost delta_byte = { values.delta_byte };

    ghost is_delta_byte = { bytes.is_known };

    ghost IsSoundDelta = { values.IsSoundDelta };

    ghost delta_spelled = { values.delta_spelled };

    ghost delta_in = { values.delta_in };

    fn is_delta(byte: u8) -> bool {
        1 <= byte && byte <= 6
    }

    fn delta_kind(delta: &Change) -> u8 {
        match delta {
            Change::GCounter(_) => 1,
            Change::PnCounter(_) => 2,
            Change::GSet(_) => 3,
            Change::OrSet(_) => 4,
            Change::Flag(_) => 5,
            Change::LwwRegister(_) => 6,
        }
    }

    fn spell_delta(delta: &Change, into: &mut Vec<u8>) -> Result<(), Memory> {
        match delta {
            Change::GCounter(change) => GCounter::spell_delta(change, into),
            Change::PnCounter(change) => PnCounter::spell_delta(change, into),
            Change::GSet(change) => GSet::spell_delta(change, into),
            Change::OrSet(change) => OrSet::spell_delta(change, into),
            Change::Flag(change) => Flag::spell_delta(change, into),
            Change::LwwRegister(change) => LwwRegister::spell_delta(change, into),
        }
    }

    fn read_delta(
        alloc: Global,
        kind: u8,
        origin: Id,
        from: &[u8],
        place: usize,
    ) -> Result<(Change, usize), ReadError> {
        match kind_at(kind) {
            Kind::GCounter => match GCounter::read_delta(alloc, 1, origin, from, place) {
                Ok((change, next)) => Ok((Change::GCounter(change), next)),
                Err(error) => Err(error),
            },
            Kind::PnCounter => match PnCounter::read_delta(alloc, 2, origin, from, place) {
                Ok((change, next)) => Ok((Change::PnCounter(change), next)),
                Err(error) => Err(error),
            },
            Kind::GSet => match GSet::read_delta(alloc, 3, origin, from, place) {
                Ok((change, next)) => Ok((Change::GSet(change), next)),
                Err(error) => Err(error),
            },
            Kind::OrSet => match OrSet::read_delta(alloc, 4, origin, from, place) {
                Ok((change, next)) => Ok((Change::OrSet(change), next)),
                Err(error) => Err(error),
            },
            Kind::Flag => match Flag::read_delta(alloc, 5, origin, from, place) {
                Ok((change, next)) => Ok((Change::Flag(change), next)),
                Err(error) => Err(error),
            },
            Kind::LwwRegister => match LwwRegister::read_delta(alloc, 6, origin, from, place) {
                Ok((change, next)) => Ok((Change::LwwRegister(change), next)),
                Err(error) => Err(error),
            },
        }
    }

    ghost delta_is_known = { laws.delta_is_known };

    ghost delta_read_is_spelled = { laws.delta_read_is_spelled };

    ghost delta_spelled_is_read = { laws.delta_spelled_is_read };
}
