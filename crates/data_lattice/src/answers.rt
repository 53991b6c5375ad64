ghost use Rattle.std.specs.Prelude.{◌≡◌};
ghost use Rattle.data_lattice.specs.declared.answers.ApplyError.TheVariants as ApplyError;
ghost use Rattle.data_lattice.specs.declared.answers.PruneError.TheVariants as PruneError;

use base_bytes::Memory;

/// Why an operation was not applied.
#[derive(Clone, Copy, Debug, PartialEq, Eq)]
pub enum ApplyError {
    /// The own share of a counter and the amount add to more than `2^63 - 1`.
    Overflow { share: u64, amount: u64 },
    /// The timestamp of the register is `2^63 - 1` already.
    ClockSpent,
    /// The set shows 256 elements or more, and the added one is none of them.
    SetFull,
    /// Memory was refused.
    Memory,
}

/// Why an identity was not pruned.
#[derive(Clone, Copy, Debug, PartialEq, Eq)]
pub enum PruneError {
    /// The two shares of a counter add to more than `2^63 - 1`.
    Blocked {
        owner_share: u64,
        removed_share: u64,
    },
    /// Memory was refused.
    Memory,
}

impl From<Memory> for ApplyError {
    ghost from_gives = { λ _ error. error ≡ ApplyError.Memory };

    fn from(_: Memory) -> ApplyError {
        ApplyError::Memory
    }
}

impl From<Memory> for PruneError {
    ghost from_gives = { λ _ error. error ≡ PruneError.Memory };

    fn from(_: Memory) -> PruneError {
        PruneError::Memory
    }
}
