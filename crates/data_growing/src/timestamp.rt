use std::marker::Model;

/// The timestamp of a write: a number from 1 to `2^63 - 1`.
#[derive(Clone, Copy, Debug, PartialEq, Eq, PartialOrd, Ord)]
pub struct Timestamp {
    number: u64,
}

impl Model for Timestamp {
    ghost use Rattle.std.specs.Prelude.{ℕ, ◌≤◌};
    ghost use Rattle.model_meanings.specs.Refusal.{greatest_share};

    ghost Value = { ℕ };

    ghost view = { λ timestamp. timestamp.number };

    ghost invariant = { λ timestamp. (1 ≤ timestamp.number) × (timestamp.number ≤ greatest_share) };

    ghost inverse = { λ number. record { number = number } };
}

impl Timestamp {
    ghost use Rattle.std.specs.Prelude.{◌≡◌, ◌≤◌, ◌↔◌, IsSome, IfSome};
    ghost use Rattle.model_meanings.specs.Refusal.{greatest_share};

    /// The timestamp of this number, unless it is 0 or above `2^63 - 1`.
    pub fn new(number: u64) -> Option<Timestamp>
        ensures variant { IsSome result ↔ ((1 ≤ number) × (number ≤ greatest_share)) }
        ensures value { IfSome result (λ timestamp. timestamp ≡ number) }
    {
        if 1 <= number && number <= 0x7fff_ffff_ffff_ffff {
            Some(Timestamp { number })
        } else {
            None
        }
    }

    /// The number.
    pub fn number(self) -> u64
        ensures value { result ≡ self }
        ensures above { 1 ≤ self }
        ensures within { self ≤ greatest_share }
    {
        self.number
    }
}
