use base_bytes::{FieldError, Memory, ReadError};

/// Why bytes were not read as an envelope.
#[derive(Clone, Copy, Debug, PartialEq, Eq)]
pub enum CodecError {
    /// They are no envelope: the place of the first field that is cut short, breaks its rule or is left over.
    NotAnEnvelope(usize),
    /// Memory was refused.
    Memory,
}

impl CodecError {
    ghost use Rattle.std.specs.Prelude.{◌≡◌};
    ghost use Rattle.base_bytes.specs.Spelling.{placed};
    ghost use Rattle.data_codec.specs.Answers.{refusal};

    /// A fault by the place of its field.
    pub(crate) fn of(error: ReadError) -> CodecError
        ensures { result ≡ refusal error }
    {
        match error {
            ReadError::Short(place) => CodecError::NotAnEnvelope(place),
            ReadError::BadByte(place) => CodecError::NotAnEnvelope(place),
            ReadError::Memory => CodecError::Memory,
        }
    }

    /// A fault of a field among so many bytes.
    pub(crate) fn among(total: usize, error: FieldError) -> CodecError
        ensures { result ≡ refusal (placed total error) }
    {
        CodecError::of(error.at_place(total))
    }
}

impl From<Memory> for CodecError {
    ghost use Rattle.std.specs.Prelude.{◌≡◌};
    ghost use Rattle.data_codec.specs.declared.error.CodecError.TheVariants as error;

    ghost from_gives = { λ _ e. e ≡ error.Memory };

    fn from(_refused: Memory) -> CodecError {
        CodecError::Memory
    }
}
