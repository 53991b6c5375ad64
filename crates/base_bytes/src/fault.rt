use crate::memory::Memory;
use std::alloc::{AllocError, AllocFailed};

/// What is wrong with a field, and how many bytes were left where the field begins.
#[derive(Clone, Copy, Debug, PartialEq, Eq)]
pub enum Fault {
    /// The field is cut short.
    Short(usize),
    /// The field breaks its rule.
    BadByte(usize),
}

/// Why the front of some bytes was not read: the first fault, from left to right.
#[derive(Clone, Copy, Debug, PartialEq, Eq)]
pub enum FieldError {
    Memory,
    Fault(Fault),
}

impl FieldError {
    ghost use Rattle.std.specs.Prelude.{◌≡◌};
    ghost use Rattle.base_bytes.specs.Spelling.{placed};

    /// The fault, by the place of its field among so many bytes.
    pub fn at_place(self, total: usize) -> ReadError
        ensures { result ≡ placed total self }
    {
        match self {
            FieldError::Memory => ReadError::Memory,
            FieldError::Fault(Fault::Short(left)) => ReadError::Short(total.saturating_sub(left)),
            FieldError::Fault(Fault::BadByte(left)) => {
                ReadError::BadByte(total.saturating_sub(left))
            }
        }
    }
}

impl From<Memory> for FieldError {
    ghost use Rattle.std.specs.Prelude.{◌≡◌};
    ghost use Rattle.base_bytes.specs.declared.fault.FieldError.TheVariants as error;

    ghost from_gives = { λ _ e. e ≡ error.Memory };

    fn from(_refused: Memory) -> FieldError {
        FieldError::Memory
    }
}

impl From<AllocError> for FieldError {
    ghost use Rattle.std.specs.Prelude.{◌≡◌};
    ghost use Rattle.base_bytes.specs.declared.fault.FieldError.TheVariants as error;

    ghost from_gives = { λ _ e. e ≡ error.Memory };

    fn from(_refused: AllocError) -> FieldError {
        FieldError::Memory
    }
}

impl<T: Drop> From<AllocFailed<T>> for FieldError {
    ghost use Rattle.std.specs.Prelude.{◌≡◌};
    ghost use Rattle.base_bytes.specs.declared.fault.FieldError.TheVariants as error;

    ghost from_gives = { λ _ e. e ≡ error.Memory };

    fn from(_refused: AllocFailed<T>) -> FieldError {
        FieldError::Memory
    }
}

/// Why bytes are no spelling: the place of the first field that is cut short or breaks its rule.
#[derive(Clone, Copy, Debug, PartialEq, Eq)]
pub enum ReadError {
    /// The field that begins at this place is cut short.
    Short(usize),
    /// The field that begins at this place breaks its rule.
    BadByte(usize),
    /// Memory was refused.
    Memory,
}
