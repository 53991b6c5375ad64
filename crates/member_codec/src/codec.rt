ghost use Rattle.std.specs.Prelude.{◌≡◌, length, IfOk};
ghost use Rattle.data_codec.specs.Calls.{IsPrefixFree};
ghost use Rattle.member_codec.specs.Messages.{message_parts, message_bytes, IsSpellable, told_by};
ghost use Rattle.member_codec.specs.Answers.{IsRead, ReadsSpelled, ReadsWhatIsSpelled};

use crate::error::CodecError;
use crate::messages::{put_message, take_message};
use base_bytes::Memory;
use data_delta_codec::SpelledDelta;
use member_messages::Message;
use std::alloc::Global;

/// The spelling of a message.
pub fn spell_message<T: SpelledDelta>(
    alloc: Global,
    message: &Message<T>,
) -> Result<Vec<u8>, Memory>
    ensures value { IfOk result (λ bytes. bytes.items ≡ message_bytes T.Replica T.SpelledData.own T.SpelledDelta.own (message_parts message.now)) }
    // What is spelled is what `read_message` reads again.
    ensures readable { IfOk result (λ _bytes. IsSpellable T.Replica T.SpelledData.own T.SpelledDelta.own (message_parts message.now)) }
{
    let mut bytes = Vec::new(alloc);
    put_message(message, &mut bytes)?;
    Ok(bytes)
}

/// The message that the bytes spell, all of them.
fn read_whole<T: SpelledDelta>(alloc: Global, bytes: &[u8]) -> Result<Message<T>, CodecError>
    ensures { IsRead message_parts (length bytes.now) result (told_by T.Replica T.SpelledData.own T.SpelledDelta.own bytes.now) }
{
    match take_message::<T>(alloc, bytes, 0) {
        Ok((message, next)) => {
            if next < bytes.len() {
                return Err(CodecError::NotASpelling(next));
            }
            Ok(message)
        }
        Err(error) => Err(CodecError::of(error)),
    }
}

/// The message that the bytes spell; else the place of the first field that is cut short, breaks its rule or is left over.
///
/// The memory that it takes is bounded by the bytes: nothing is reserved by a count that was read.
pub fn read_message<T: SpelledDelta>(alloc: Global, bytes: &[u8]) -> Result<Message<T>, CodecError>
    // What is read is spelled so.
    ensures found { ReadsSpelled T.Replica T.SpelledData.own T.SpelledDelta.own bytes.now result }
    // What is spelled so is read, unless memory runs out.
    ensures only { ReadsWhatIsSpelled T.Replica T.SpelledData.own T.SpelledDelta.own bytes.now result }
    // Which fault it is.
    ensures exact { IsRead message_parts (length bytes.now) result (told_by T.Replica T.SpelledData.own T.SpelledDelta.own bytes.now) }
{
    read_whole::<T>(alloc, bytes)
}

/// No spelling of a message is a proper prefix of another's, whatever follows it.
pub fn one_spelling<T: SpelledDelta>()
    ensures { IsPrefixFree (IsSpellable T.Replica T.SpelledData.own T.SpelledDelta.own) (message_bytes T.Replica T.SpelledData.own T.SpelledDelta.own) }
{}
