ghost use Rattle.std.specs.Prelude.{ℕ, ◌<◌, ◌^◌, List, [], ◌∷◌, None};
ghost use Rattle.base_bytes.specs.Fields.{byte_in, word_in, number_in, text_in};
ghost use Rattle.base_bytes.specs.Spelling.{IsText, word_spelled, number_spelled, text_spelled};
ghost use Rattle.base_places.specs.Spells as laws;

use crate::piece::Piece;
use base_bytes::{Memory, ReadError, Spelled, Text};
use base_places::read_at;
use std::alloc::Global;

impl Piece for u8 {
    ghost Parts = { ℕ };

    ghost parts = { λ n. n };

    ghost IsSound = { λ n. n < 2 ^ 8 };

    ghost spelled = { λ n. n ∷ [] };

    ghost piece_in = { byte_in };

    fn put(&self, into: &mut Vec<u8>) -> Result<(), Memory> {
        self.spell(into)
    }

    fn take(alloc: Global, from: &[u8], place: usize) -> Result<(u8, usize), ReadError> {
        read_at::<u8>(alloc, from, place)
    }

    ghost spells = { laws.byte_spells };
}

impl Piece for u32 {
    ghost Parts = { ℕ };

    ghost parts = { λ n. n };

    ghost IsSound = { λ n. n < 2 ^ 32 };

    ghost spelled = { word_spelled };

    ghost piece_in = { word_in };

    fn put(&self, into: &mut Vec<u8>) -> Result<(), Memory> {
        self.spell(into)
    }

    fn take(alloc: Global, from: &[u8], place: usize) -> Result<(u32, usize), ReadError> {
        read_at::<u32>(alloc, from, place)
    }

    ghost spells = { laws.word_spells };
}

impl Piece for u64 {
    ghost Parts = { ℕ };

    ghost parts = { λ n. n };

    ghost IsSound = { λ n. n < 2 ^ 64 };

    ghost spelled = { number_spelled };

    ghost piece_in = { number_in };

    fn put(&self, into: &mut Vec<u8>) -> Result<(), Memory> {
        self.spell(into)
    }

    fn take(alloc: Global, from: &[u8], place: usize) -> Result<(u64, usize), ReadError> {
        read_at::<u64>(alloc, from, place)
    }

    ghost spells = { laws.number_spells };
}

impl Piece for Text {
    ghost Parts = { List ℕ };

    ghost parts = { λ text. text };

    ghost IsSound = { IsText };

    ghost spelled = { text_spelled };

    ghost piece_in = { text_in None };

    fn put(&self, into: &mut Vec<u8>) -> Result<(), Memory> {
        self.spell(into)
    }

    fn take(alloc: Global, from: &[u8], place: usize) -> Result<(Text, usize), ReadError> {
        read_at::<Text>(alloc, from, place)
    }

    ghost spells = { laws.text_spells };
}
