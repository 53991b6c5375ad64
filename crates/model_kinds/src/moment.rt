use std::marker::Model;

/// The time of a writer's clock: a number of at most `2^63 - 1`.
#[derive(Clone, Copy, Debug, PartialEq, Eq, PartialOrd, Ord)]
pub struct Moment {
    number: u64,
}

impl Model for Moment {
    ghost use Rattle.std.specs.Prelude.{ℕ, ◌≤◌};
    ghost use Rattle.model_meanings.specs.Refusal.{greatest_share};

    ghost Value = { ℕ };

    ghost view = { λ moment. moment.number };

    ghost invariant = { λ moment. moment.number ≤ greatest_share };

    ghost inverse = { λ number. record { number = number } };
}

impl Moment {
    ghost use Rattle.std.specs.Prelude.{◌≡◌, ◌≤◌, ◌↔◌, IsSome, IfSome};
    ghost use Rattle.model_meanings.specs.Refusal.{greatest_share};

    /// The moment of this number, unless it is above `2^63 - 1`.
    pub fn new(number: u64) -> Option<Moment>
        ensures variant { IsSome result ↔ (number ≤ greatest_share) }
        ensures value { IfSome result (λ moment. moment ≡ number) }
    {
        if number <= 0x7fff_ffff_ffff_ffff {
            Some(Moment { number })
        } else {
            None
        }
    }

    /// The number.
    pub fn number(self) -> u64
        ensures value { result ≡ self }
        ensures range { self ≤ greatest_share }
    {
        self.number
    }
}
