ghost use Rattle.data_delta_codec.specs.Data as spelled;
ghost use Rattle.data_delta_codec.specs.DataLaws as laws;

use crate::spelled_delta::SpelledDelta;
use base_bytes::{Memory, ReadError};
use base_vectors::Id;
use data_value::{Data, Delta, Value};
use std::alloc::Global;

/// The byte that tells that the key was deleted. A delete is of every kind, and so this is the byte of none.
const DELETE: u8 = 128;

impl SpelledDelta for Data {
    ghost delta_byte = { spelled.delta_byte };

    ghost is_delta_byte = { spelled.is_delta_byte };

    ghost IsSoundDelta = { spelled.IsSoundDelta };

    ghost delta_spelled = { spelled.delta_spelled };

    ghost delta_in = { spelled.delta_in };

    fn is_delta(byte: u8) -> bool {
        byte == DELETE || Value::is_delta(byte)
    }

    fn delta_kind(delta: &Delta) -> u8 {
        match delta {
            Delta::Open(change) => Value::delta_kind(change),
            Delta::Delete => DELETE,
        }
    }

    fn spell_delta(delta: &Delta, into: &mut Vec<u8>) -> Result<(), Memory> {
        match delta {
            Delta::Open(change) => Value::spell_delta(change, into),
            Delta::Delete => Ok(()),
        }
    }

    fn read_delta(
        alloc: Global,
        kind: u8,
        origin: Id,
        from: &[u8],
        place: usize,
    ) -> Result<(Delta, usize), ReadError> {
        if kind == DELETE {
            return Ok((Delta::Delete, place));
        }
        match Value::read_delta(alloc, kind, origin, from, place) {
            Ok((change, next)) => Ok((Delta::Open(change), next)),
            Err(error) => Err(error),
        }
    }

    ghost delta_is_known = { laws.delta_is_known };

    ghost delta_read_is_spelled = { laws.delta_read_is_spelled };

    ghost delta_spelled_is_read = { laws.delta_spelled_is_read };
}
