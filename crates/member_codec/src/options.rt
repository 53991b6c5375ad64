ghost use Rattle.std.specs.Prelude.{◌≡◌, Option};
ghost use Rattle.std.specs.Option.{option_map};
ghost use Rattle.base_places.specs.Options.{IsSoundOption, option_spelled, option_in};
ghost use Rattle.base_places.specs.OptionLaws as laws;

use crate::piece::Piece;
use base_bytes::{Memory, ReadError};
use base_places::read_at;
use std::alloc::Global;

impl<X: Piece> Piece for Option<X> {
    ghost Parts = { Option X.Parts };

    ghost parts = { option_map X.parts };

    ghost IsSound = { IsSoundOption X.IsSound };

    ghost spelled = { option_spelled X.spelled };

    ghost piece_in = { option_in X.piece_in };

    fn put(&self, into: &mut Vec<u8>) -> Result<(), Memory> {
        match self {
            None => Ok(into.push(0)?),
            Some(item) => {
                into.push(1)?;
                item.put(into)
            }
        }
    }

    fn take(alloc: Global, from: &[u8], place: usize) -> Result<(Option<X>, usize), ReadError> {
        match read_at::<u8>(alloc, from, place) {
            Ok((has, next)) => {
                if has > 1 {
                    return Err(ReadError::BadByte(place));
                }
                if has == 0 {
                    return Ok((None, next));
                }
                match X::take(alloc, from, next) {
                    Ok((item, end)) => Ok((Some(item), end)),
                    Err(error) => Err(error),
                }
            }
            Err(error) => Err(error),
        }
    }

    ghost spells = { laws.option_spells X.IsSound X.spelled X.piece_in X.spells };
}
