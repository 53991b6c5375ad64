ghost use Rattle.std.specs.Prelude.{◌≡◌, ℕ, List};
ghost use Rattle.data_envelope.specs.Images.{Parts};
ghost use Rattle.data_codec.specs.Envelopes.{envelope_spelled, IsEnvelope};
ghost use Rattle.data_codec.specs.Stored.{envelope_stored, IsStored};
ghost use Rattle.data_codec.specs.Calls.{IsPrefixFree};

use data_lattice::SpelledData;

/// No spelling of an envelope is a proper prefix of another's, whatever follows it.
pub fn one_spelling<T: SpelledData>()
    ensures { IsPrefixFree (IsEnvelope T.IsSound T.mentioned) (envelope_spelled T.byte_of T.spelled) }
{}

/// No stored bytes of format 2 are a proper prefix of others, whatever follows them; and bytes of either format are one
/// envelope at most.
pub fn one_stored<T: SpelledData>()
    ensures prefix { IsPrefixFree (IsEnvelope T.IsSound T.mentioned) (envelope_stored T.byte_of T.spelled) }
    ensures once { (bytes : List ℕ) (a b : Parts T) → IsEnvelope T.IsSound T.mentioned a → IsEnvelope T.IsSound T.mentioned b
        → IsStored T.byte_of T.spelled a bytes → IsStored T.byte_of T.spelled b bytes → a ≡ b }
{}
