ghost use Rattle.std.specs.Prelude.{◌≡◌, ◌++◌, flat_map, string_bytes, OnOk, IfOk, MatchResult};
ghost use Rattle.top_lines.specs.Texts.{post_line, output_text, refusal_line};
ghost use Rattle.top_lines.specs.Answering.{Makes, IsUntold, TellsLine};

use crate::asking::asked;
use crate::refusal::{Fault, Refusal, push_refusal};
use base_bytes::Memory;
use data_delta_codec::SpelledDelta;
use member_codec::spell_message;
use member_keeper::Keeper;
use member_node::{Input, Node, Output, Post, StepError};
use model_kinds::{Kind, Op};
use report_replies::{push_finished, push_reply};
use std::alloc::Global;

/// Adds the line of a message that is to be sent.
fn push_post<T: SpelledDelta>(
    alloc: Global,
    text: &mut String,
    post: &Post<T>,
) -> Result<(), Memory>
    ensures { OnOk result (string_bytes text.new ≡ string_bytes text.old ++ post_line T.Replica T.SpelledData.own T.SpelledDelta.own post.now) }
{
    let to = post.to.number();
    let bytes = spell_message(alloc, &post.message)?;
    let digits = hex::encode(alloc, bytes.as_slice())?;
    write!(text, "to {to} {digits}\n")?;
    Ok(())
}

/// Adds the lines of messages that are to be sent.
fn push_posts<T: SpelledDelta>(
    alloc: Global,
    text: &mut String,
    posts: &[Post<T>],
) -> Result<(), Memory>
    ensures { OnOk result (string_bytes text.new ≡ string_bytes text.old ++ flat_map (post_line T.Replica T.SpelledData.own T.SpelledDelta.own) posts.now) }
{
    for post in posts {
        push_post(alloc, text, post)?;
    }
    Ok(())
}

/// Adds the lines of what a member answers: its messages, and then its reply with the operation that ended.
fn push_output<T: SpelledDelta>(
    alloc: Global,
    text: &mut String,
    output: &Output<T>,
) -> Result<(), Memory>
    ensures { OnOk result (string_bytes text.new ≡ string_bytes text.old ++ output_text T.Replica T.SpelledData.own T.SpelledDelta.own output.now) }
{
    push_posts(alloc, text, output.posts.as_slice())?;
    push_reply(alloc, text, &output.reply)?;
    push_finished(alloc, text, &output.finished)?;
    text.push_str("\n")?;
    Ok(())
}

/// The line that tells why a line asks for nothing.
fn refused(alloc: Global, refusal: Refusal) -> Result<String, Memory>
    ensures { IfOk result (λ text. string_bytes text ≡ refusal_line refusal) }
{
    let mut text = String::from_str(alloc, "refused ")?;
    push_refusal(&mut text, refusal)?;
    text.push_str("\n")?;
    Ok(text)
}

/// Makes a step of the member, and tells of it. What operations came to is told by the step that ends them, and then forgotten.
fn made<T: SpelledDelta<Kind = Kind, Op = Op>, K: Keeper + Drop>(
    alloc: Global,
    member: &mut Node<T, K>,
    input: &Input<T>,
) -> Result<String, Memory>
    ensures { MatchResult result (λ text. Makes T.SpelledData.own T.SpelledDelta.own member.old input.now member.new (string_bytes text)) (λ _. IsUntold T.SpelledData.own T.SpelledDelta.own member.old input.now member.new) }
{
    match member.step(input) {
        Ok(output) => {
            let mut text = String::new(alloc);
            push_output(alloc, &mut text, &output)?;
            member.forget(u64::MAX);
            Ok(text)
        }
        Err(StepError::HistoryFull) => Ok(String::from_str(alloc, "history full\n")?),
        Err(StepError::Memory) => Err(Memory),
    }
}

/// Does what a line asks for, and tells of it.
///
/// # Errors
///
/// Memory was refused: the member is as before, or made the step that the line asks for, of which nothing is told.
pub fn answer_line<T: SpelledDelta<Kind = Kind, Op = Op>, K: Keeper + Drop>(
    alloc: Global,
    member: &mut Node<T, K>,
    line: &[u8],
) -> Result<String, Memory>
    ensures { TellsLine T.SpelledData.own T.SpelledDelta.own member.old line.now member.new result }
{
    match asked(alloc, member.view(), member.id(), line) {
        Ok(input) => made(alloc, member, &input),
        Err(Fault::Refused(refusal)) => refused(alloc, refusal),
        Err(Fault::Memory) => Err(Memory),
    }
}
