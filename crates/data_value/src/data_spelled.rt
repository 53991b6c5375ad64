ghost use Rattle.std.specs.Prelude.{refl};
ghost use Rattle.data_value.specs.DataSpelled as spelled;
ghost use Rattle.data_value.specs.DataSpelledLaws as laws;

use crate::data::Data;
use crate::spelled::{kind_at, kind_byte};
use crate::value::Value;
use base_bytes::{Memory, ReadError};
use base_vectors::IdSet;
use data_lattice::{Replica, SpelledData};
use std::alloc::Global;

/// The byte of a deleted key is so much above that of its kind.
const DELETED: u8 = 128;

impl SpelledData for Data {
    ghost byte_of = { spelled.byte_of };

    ghost is_known = { spelled.is_known };

    ghost IsSound = { spelled.IsSound };

    ghost spelled = { spelled.spelled };

    ghost read_in = { spelled.read_in };

    ghost history_byte = { spelled.history_byte };

    ghost history_spelled = { spelled.history_spelled };

    fn is_kind(byte: u8) -> bool {
        if byte > DELETED {
            Value::is_kind(byte - DELETED)
        } else {
            Value::is_kind(byte)
        }
    }

    fn kind_byte(&self) -> u8 {
        match self {
            Data::Open(value) => value.kind_byte(),
            Data::Deleted(kind) => kind_byte(*kind) + DELETED,
        }
    }

    fn spell_data(&self, into: &mut Vec<u8>) -> Result<(), Memory> {
        match self {
            Data::Open(value) => value.spell_data(into),
            Data::Deleted(_) => Ok(()),
        }
    }

    fn read_data(
        alloc: Global,
        kind: u8,
        barred: IdSet,
        from: &[u8],
        place: usize,
    ) -> Result<(Data, usize), ReadError> {
        if kind > DELETED {
            return Ok((Data::Deleted(kind_at(kind - DELETED)), place));
        }
        let (value, next) = Value::read_data(alloc, kind, barred, from, place)?;
        Ok((Data::Open(value), next))
    }

    ghost spelling_is = { λ _. refl };

    ghost byte_is_known = { laws.byte_is_known };

    ghost read_is_spelled = { laws.read_is_spelled };

    ghost spelled_is_read = { laws.spelled_is_read };

    ghost mentioned_few = { laws.mentioned_few };

    ghost byte_means = { laws.byte_means };

    ghost spelling_means = { laws.spelling_means };
}
