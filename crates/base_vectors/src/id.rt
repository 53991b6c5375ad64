ghost use Rattle.std.specs.Prelude.{◌≡◌, ℕ, ◌<◌, ◌≤◌, IsSome, IfSome, ◌↔◌};
ghost use Rattle.model_history.specs.Table.{identity_limit};

use std::marker::Model;

/// Every identity is below this.
pub const IDENTITIES: u8 = 255;

/// An identity of a member: a number below [`IDENTITIES`].
#[derive(Clone, Copy, Debug, PartialEq, Eq, PartialOrd, Ord)]
pub struct Id {
    number: u8,
}

impl Model for Id {
    ghost use Rattle.std.specs.Prelude.{ℕ, ◌<◌};
    ghost use Rattle.model_history.specs.Table.{identity_limit};

    ghost Value = { ℕ };

    ghost view = { λ id. id.number };

    ghost invariant = { λ id. id.number < identity_limit };

    ghost inverse = { λ number. record { number = number } };
}

impl Id {
    /// The identity of this number, and none where that is 255.
    pub fn new(number: u8) -> Option<Id>
        ensures variant { IsSome result ↔ (number < identity_limit) }
        ensures value { IfSome result (λ id. id ≡ number) }
    {
        if number < IDENTITIES {
            Some(Id { number })
        } else {
            None
        }
    }

    /// The number, below 255.
    pub fn number(self) -> u8
        ensures value { result ≡ self }
        ensures range { self < identity_limit }
    {
        self.number
    }
}

/// The number of a record among those of its origin, from 1 on; 0 says none.
pub type Seq = u64;

/// A record's name: who made it, and which of theirs it is.
#[derive(Clone, Copy, Debug, PartialEq, Eq, PartialOrd, Ord)]
pub struct Dot {
    pub origin: Id,
    pub seq: Seq,
}
