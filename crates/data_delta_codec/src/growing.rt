ghost use Rattle.std.specs.Prelude.{◌≡◌, ◌==◌, refl};
ghost use Rattle.base_bytes.specs.Fields.{Gives};
ghost use Rattle.data_growing.specs.Spelling.{set_spelled, IsSoundSet};
ghost use Rattle.data_growing.specs.Reading.{set_in};
ghost use Rattle.data_delta_codec.specs.Growing.{switched_in, write_in, stamp_and_text, nothing_spelled, IsSoundStamp};
ghost use Rattle.data_delta_codec.specs.GrowingLaws as laws;

use crate::spelled_delta::SpelledDelta;
use base_bytes::{Fault, FieldError, Memory, ReadError, Spelled, placed, read_number, read_text};
use base_vectors::{Id, IdSet};
use data_growing::{Flag, GSet, LwwRegister, SwitchedOn, Timestamp, Written};
use data_lattice::SpelledData;
use std::alloc::Global;

impl SpelledDelta for GSet {
    ghost delta_byte = { λ _. 3 };

    ghost is_delta_byte = { λ byte. byte == 3 };

    ghost IsSoundDelta = { IsSoundSet };

    ghost delta_spelled = { set_spelled };

    ghost delta_in = { λ _ _. set_in };

    fn is_delta(byte: u8) -> bool {
        byte == 3
    }

    fn delta_kind(_delta: &GSet) -> u8 {
        3
    }

    fn spell_delta(delta: &GSet, into: &mut Vec<u8>) -> Result<(), Memory> {
        delta.spell_data(into)
    }

    fn read_delta(
        alloc: Global,
        _kind: u8,
        _origin: Id,
        from: &[u8],
        place: usize,
    ) -> Result<(GSet, usize), ReadError> {
        GSet::read_data(alloc, 3, IdSet::empty(), from, place)
    }

    ghost delta_is_known = { λ _. refl };

    ghost delta_read_is_spelled = { laws.elements_take };

    ghost delta_spelled_is_read = { laws.elements_again };
}

impl SpelledDelta for Flag {
    ghost delta_byte = { λ _. 5 };

    ghost is_delta_byte = { λ byte. byte == 5 };

    ghost IsSoundDelta = { λ _. Unit {0} };

    ghost delta_spelled = { nothing_spelled };

    ghost delta_in = { λ _ _. switched_in };

    fn is_delta(byte: u8) -> bool {
        byte == 5
    }

    fn delta_kind(_delta: &SwitchedOn) -> u8 {
        5
    }

    fn spell_delta(_delta: &SwitchedOn, _into: &mut Vec<u8>) -> Result<(), Memory> {
        Ok(())
    }

    fn read_delta(
        _alloc: Global,
        _kind: u8,
        _origin: Id,
        _from: &[u8],
        place: usize,
    ) -> Result<(SwitchedOn, usize), ReadError> {
        Ok((SwitchedOn, place))
    }

    ghost delta_is_known = { λ _. refl };

    ghost delta_read_is_spelled = { laws.nothing_takes };

    ghost delta_spelled_is_read = { λ _ _ _ _ _. refl };
}

/// The timestamp and the text of a write of an origin, and the bytes after it.
#[tactic(auto, unfolding(crate::specs::Growing::write_in, base_vectors::specs::Fields::positive_in))]
fn read_write(alloc: Global, writer: Id, bytes: &[u8]) -> Result<(Written, &[u8]), FieldError>
    ensures { Gives (λ x. (x.0, x.1.now)) result (write_in writer bytes.now) }
{
    let (number, rest) = read_number(bytes)?;
    let Some(timestamp) = Timestamp::new(number) else {
        return Err(FieldError::Fault(Fault::BadByte(bytes.len())));
    };
    let (text, rest) = read_text(alloc, None, rest)?;
    let written = Written {
        text,
        timestamp,
        writer,
    };
    Ok((written, rest))
}

impl SpelledDelta for LwwRegister {
    ghost delta_byte = { λ _. 6 };

    ghost is_delta_byte = { λ byte. byte == 6 };

    ghost IsSoundDelta = { IsSoundStamp };

    ghost delta_spelled = { stamp_and_text };

    ghost delta_in = { λ _ origin. write_in origin };

    fn is_delta(byte: u8) -> bool {
        byte == 6
    }

    fn delta_kind(_delta: &Written) -> u8 {
        6
    }

    fn spell_delta(delta: &Written, into: &mut Vec<u8>) -> Result<(), Memory> {
        let timestamp = delta.timestamp.number();
        timestamp.spell(into)?;
        delta.text.spell(into)
    }

    fn read_delta(
        alloc: Global,
        _kind: u8,
        origin: Id,
        from: &[u8],
        place: usize,
    ) -> Result<(Written, usize), ReadError> {
        placed(from.len(), read_write(alloc, origin, &from[place..]))
    }

    ghost delta_is_known = { λ _. refl };

    ghost delta_read_is_spelled = { laws.write_takes };

    ghost delta_spelled_is_read = { laws.write_again };
}
