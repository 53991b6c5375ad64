use base_bytes::{Memory, ReadError};

/// Why bytes were not read as a message or as a view.
#[derive(Clone, Copy, Debug, PartialEq, Eq)]
pub enum CodecError {
    /// They are no spelling: the place of the first field that is cut short, breaks its rule or is left over.
    NotASpelling(usize),
    /// Memory was refused.
    Memory,
}

impl CodecError {
    ghost use Rattle.std.specs.Prelude.{◌≡◌};
    ghost use Rattle.member_codec.specs.Answers.{refusal};

    /// A fault by the place of its field.
    pub(crate) fn of(error: ReadError) -> CodecError
        ensures { result ≡ refusal error }
    {
        match error {
            ReadError::Short(place) => CodecError::NotASpelling(place),
            ReadError::BadByte(place) => CodecError::NotASpelling(place),
            ReadError::Memory => CodecError::Memory,
        }
    }
}

impl From<Memory> for CodecError {
    ghost use Rattle.std.specs.Prelude.{◌≡◌};
    ghost use Rattle.member_codec.specs.declared.error.CodecError.TheVariants as error;

    ghost from_gives = { λ _ e. e ≡ error.Memory };

    fn from(_refused: Memory) -> CodecError {
        CodecError::Memory
    }
}
