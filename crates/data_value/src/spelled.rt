ghost use Rattle.std.specs.Prelude.{◌≡◌, ◌≤◌, length, drop, refl};
ghost use Rattle.base_bytes.specs.Spelling.{GivesAt};
ghost use Rattle.data_value.specs.Values as values;
ghost use Rattle.data_value.specs.Spelled as spelled;
ghost use Rattle.data_value.specs.SpelledLaws as laws;

use crate::value::Value;
use base_bytes::{Memory, ReadError};
use base_vectors::IdSet;
use data_counters::{GCounter, PnCounter};
use data_growing::{Flag, GSet, LwwRegister};
use data_lattice::SpelledData;
use data_orset::OrSet;
use model_kinds::Kind;
use std::alloc::Global;

/// The kind of a byte that is one's.
pub(crate) fn kind_at(byte: u8) -> Kind
    ensures { result ≡ spelled.kind_at byte }
{
    match byte {
        1 => Kind::GCounter,
        2 => Kind::PnCounter,
        3 => Kind::GSet,
        4 => Kind::OrSet,
        5 => Kind::Flag,
        _ => Kind::LwwRegister,
    }
}

/// The byte of a kind.
pub(crate) fn kind_byte(kind: Kind) -> u8
    ensures byte { result ≡ spelled.byte_of kind }
    ensures few { result ≤ 6 }
{
    match kind {
        Kind::GCounter => 1,
        Kind::PnCounter => 2,
        Kind::GSet => 3,
        Kind::OrSet => 4,
        Kind::Flag => 5,
        Kind::LwwRegister => 6,
    }
}

impl SpelledData for Value {
    ghost byte_of = { λ value. spelled.byte_of (values.kind_of value) };

    ghost is_known = { spelled.is_known };

    ghost IsSound = { spelled.IsSound };

    ghost spelled = { spelled.spelled };

    ghost read_in = { spelled.read_in };

    ghost history_byte = { λ kind _. spelled.byte_of kind };

    ghost history_spelled = { spelled.history_spelled };

    fn is_kind(byte: u8) -> bool {
        1 <= byte && byte <= 6
    }

    fn kind_byte(&self) -> u8 {
        kind_byte(self.kind())
    }

    fn spell_data(&self, into: &mut Vec<u8>) -> Result<(), Memory> {
        match self {
            Value::GCounter(state) => state.spell_data(into),
            Value::PnCounter(state) => state.spell_data(into),
            Value::GSet(state) => state.spell_data(into),
            Value::OrSet(state) => state.spell_data(into),
            Value::Flag(state) => state.spell_data(into),
            Value::LwwRegister(state) => state.spell_data(into),
        }
    }

    fn read_data(
        alloc: Global,
        kind: u8,
        barred: IdSet,
        from: &[u8],
        place: usize,
    ) -> Result<(Value, usize), ReadError> {
        match kind_at(kind) {
            Kind::GCounter => {
                let (state, next) = GCounter::read_data(alloc, 1, barred, from, place)?;
                Ok((Value::GCounter(state), next))
            }
            Kind::PnCounter => {
                let (state, next) = PnCounter::read_data(alloc, 2, barred, from, place)?;
                Ok((Value::PnCounter(state), next))
            }
            Kind::GSet => {
                let (state, next) = GSet::read_data(alloc, 3, barred, from, place)?;
                Ok((Value::GSet(state), next))
            }
            Kind::OrSet => {
                let (state, next) = OrSet::read_data(alloc, 4, barred, from, place)?;
                Ok((Value::OrSet(state), next))
            }
            Kind::Flag => {
                let (state, next) = Flag::read_data(alloc, 5, barred, from, place)?;
                Ok((Value::Flag(state), next))
            }
            Kind::LwwRegister => {
                let (state, next) = LwwRegister::read_data(alloc, 6, barred, from, place)?;
                Ok((Value::LwwRegister(state), next))
            }
        }
    }

    ghost spelling_is = { λ _. refl };

    ghost byte_is_known = { λ value. laws.kind_is_known (values.kind_of value) };

    ghost read_is_spelled = { laws.read_is_spelled };

    ghost spelled_is_read = { laws.spelled_is_read };

    ghost mentioned_few = { laws.mentioned_few };

    ghost byte_means = { λ _ _ _ _ _ _. refl };

    ghost spelling_means = { laws.spelling_means };
}
