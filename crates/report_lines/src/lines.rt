ghost use Rattle.std.specs.Prelude.{◌≡◌, ◌<◌, [], ◌∷◌, ◌++◌, flat_map, codes, decimal, string_bytes, OnOk};
ghost use Rattle.model_members.specs.Report.{words, link_text};
ghost use Rattle.report_lines.specs.Lines.{sketch_text, delivered_words, ask_words, head_words, answer_text, sent_text, tails_text, event_text, ending_text, client_tails_text, client_line_text};

use base_bytes::{Memory, Text};
use base_vectors::Id;
use itoa::Buffer;
use member_node::{MessageKind, Sketch};
use report_replies::{push_finished, push_reply, push_result};
use script_reading::Ask;
use std::alloc::Global;
use world_members::{Answer, ClientLine, Ended, Event, Head, SentTo};

/// Adds a text.
#[inline(always)]
fn push(text: &mut String, part: &str) -> Result<(), Memory>
    ensures { OnOk result (string_bytes text.new ≡ string_bytes text.old ++ part.now) }
{
    text.push_str(part)?;
    Ok(())
}

/// Adds a character of one byte.
#[inline(always)]
fn push_byte(text: &mut String, character: char) -> Result<(), Memory>
    requires { character < 128 }
    ensures { OnOk result (string_bytes text.new ≡ string_bytes text.old ++ character ∷ []) }
{
    text.push(character)?;
    Ok(())
}

/// Adds a number. Most are identities and small counts, of one digit.
#[inline(always)]
fn push_digits(text: &mut String, number: usize) -> Result<(), Memory>
    ensures { OnOk result (string_bytes text.new ≡ string_bytes text.old ++ decimal number) }
{
    if number < 10 {
        return push_byte(text, (b'0' + number as u8) as char);
    }
    let mut digits = Buffer::new();
    push(text, digits.format(number))
}

/// Adds a text and a number behind it.
#[inline(always)]
fn push_number(text: &mut String, before: &str, number: usize) -> Result<(), Memory>
    ensures { OnOk result (string_bytes text.new ≡ string_bytes text.old ++ (before.now ++ decimal number)) }
{
    text.push_str(before)?;
    push_digits(text, number)
}

/// Adds a character of one byte and a number behind it.
#[inline(always)]
fn push_next(text: &mut String, before: char, number: usize) -> Result<(), Memory>
    requires { before < 128 }
    ensures { OnOk result (string_bytes text.new ≡ string_bytes text.old ++ before ∷ decimal number) }
{
    push_byte(text, before)?;
    push_digits(text, number)
}

/// Adds what is printed of a message.
#[inline(always)]
fn push_sketch(text: &mut String, sketch: Sketch) -> Result<(), Memory>
    ensures { OnOk result (string_bytes text.new ≡ string_bytes text.old ++ sketch_text sketch) }
{
    let first = sketch.first;
    let second = sketch.second;
    match sketch.kind {
        MessageKind::Deltas => {
            push_number(text, "deltas/", first)?;
            push_next(text, '/', second)
        }
        MessageKind::Nack => push_number(text, "nack/", first),
        MessageKind::Status => push_number(text, "status/", first),
        MessageKind::Gossip => {
            push_number(text, "gossip/", first)?;
            push_next(text, '/', second)
        }
        MessageKind::Write => push(text, "write"),
        MessageKind::WriteAck => push(text, "write-ack"),
        MessageKind::WriteNack => push(text, "write-nack"),
        MessageKind::Read => push(text, "read"),
        MessageKind::ReadAnswer => push(text, "read-answer"),
    }
}

/// Adds the link of a message and its number there, behind a text.
#[inline(always)]
fn push_link(text: &mut String, before: &str, from: Id, to: Id, index: usize) -> Result<(), Memory>
    ensures { OnOk result (string_bytes text.new ≡ string_bytes text.old ++ (before.now ++ link_text from to index)) }
{
    push_number(text, before, usize::from(from.number()))?;
    push_next(text, '>', usize::from(to.number()))?;
    push_next(text, ' ', index)
}

/// Adds a member's identity and a key, behind a text.
#[inline(always)]
fn push_at_key(text: &mut String, before: &str, at: Id, key: &Text) -> Result<(), Memory>
    ensures { OnOk result (string_bytes text.new ≡ string_bytes text.old ++ (before.now ++ decimal at ++ codes " " ++ key.now)) }
{
    push_number(text, before, usize::from(at.number()))?;
    push_byte(text, ' ')?;
    push(text, key.as_str())
}

/// Adds what was delivered, after a space, if anything was.
fn push_delivered(text: &mut String, sketch: &Option<Sketch>) -> Result<(), Memory>
    ensures { OnOk result (string_bytes text.new ≡ string_bytes text.old ++ flat_map (λ word. codes " " ++ word) (delivered_words sketch.now)) }
{
    if let Some(sketch) = sketch {
        push_byte(text, ' ')?;
        push_sketch(text, *sketch)?;
    }
    Ok(())
}

/// Adds what a member was asked.
fn push_ask(text: &mut String, at: Id, ask: &Ask) -> Result<(), Memory>
    ensures { OnOk result (string_bytes text.new ≡ string_bytes text.old ++ words (ask_words at ask.now)) }
{
    let member = at.number();
    match ask {
        Ask::Update { key, .. } => push_at_key(text, "update ", at, key),
        Ask::Get { key, .. } => push_at_key(text, "get ", at, key),
        Ask::Flush => push_number(text, "flush ", usize::from(member)),
        Ask::Gossip { to } => Ok(write!(text, "gossip {member} {}", to.number())?),
        Ask::Tick => Ok(write!(text, "tick {member}")?),
        Ask::Install { view } => Ok(write!(text, "install {member} view {view}")?),
    }
}

/// Adds what was done.
fn push_head(text: &mut String, head: &Head) -> Result<(), Memory>
    ensures { OnOk result (string_bytes text.new ≡ string_bytes text.old ++ words (head_words head.now)) }
{
    match head {
        Head::Asked { at, ask } => push_ask(text, *at, ask),
        Head::Deliver {
            from,
            to,
            index,
            sketch,
        } => {
            push_link(text, "deliver ", *from, *to, *index)?;
            push_delivered(text, sketch)
        }
        Head::Lose { from, to, index } => push_link(text, "lose ", *from, *to, *index),
        Head::Round => push(text, "round"),
        Head::Timeout { at, op } => Ok(write!(text, "timeout {} {op}", at.number())?),
        Head::Remove { id } => Ok(write!(text, "remove {}", id.number())?),
        Head::Join { place } => Ok(write!(text, "join {place}")?),
        Head::Restart { id } => Ok(write!(text, "restart {}", id.number())?),
        Head::Settle => push(text, "settle"),
    }
}

/// Adds what came of an event.
fn push_answer(alloc: Global, text: &mut String, answer: &Answer) -> Result<(), Memory>
    ensures { OnOk result (string_bytes text.new ≡ string_bytes text.old ++ answer_text answer.now) }
{
    match answer {
        Answer::Reply(reply) => push_reply(alloc, text, reply),
        Answer::Gone => push(text, "gone"),
        Answer::HistoryFull => push(text, "history full"),
        Answer::NoSuchView => push(text, "no such view"),
        Answer::NoSuchMessage => push(text, "no such message"),
        Answer::Lost => push(text, "lost"),
        Answer::Nothing => push(text, "nothing"),
        Answer::View(number) => Ok(write!(text, "view {number}")?),
        Answer::NewId { id, view } => Ok(write!(text, "id {} view {view}", id.number())?),
        Answer::LastMember => push(text, "last member"),
        Answer::PlaceTaken => push(text, "place taken"),
        Answer::TooManyIdentities => push(text, "too many identities"),
        Answer::ClearFailed => push(text, "clear failed"),
        Answer::LoadFailed => push(text, "load failed"),
        Answer::Damaged(key) => Ok(write!(text, "damaged {}", key.as_str())?),
        Answer::Settled { messages, blocked } => {
            Ok(write!(text, "done messages {messages} blocked {blocked}")?)
        }
        Answer::Stopped => push(text, "stopped"),
    }
}

/// Adds the messages that were sent, each with its receiver.
fn push_sent(text: &mut String, sent: &[SentTo]) -> Result<(), Memory>
    ensures { OnOk result (string_bytes text.new ≡ string_bytes text.old ++ sent_text sent.now) }
{
    if sent.is_empty() {
        return Ok(());
    }
    text.push_str(" sent")?;
    for post in sent {
        push_next(text, ' ', usize::from(post.to.number()))?;
        push_byte(text, ':')?;
        push_sketch(text, post.sketch)?;
    }
    Ok(())
}

/// Adds the messages that an event sent, and the operation that it ended.
fn push_tails(alloc: Global, text: &mut String, event: &Event) -> Result<(), Memory>
    ensures { OnOk result (string_bytes text.new ≡ string_bytes text.old ++ tails_text event.now) }
{
    push_sent(text, event.sent.as_slice())?;
    push_finished(alloc, text, &event.finished)
}

/// Adds the line of an event of the step with this number.
fn push_event(alloc: Global, text: &mut String, number: usize, event: &Event) -> Result<(), Memory>
    ensures { OnOk result (string_bytes text.new ≡ string_bytes text.old ++ event_text number event.now) }
{
    push_digits(text, number)?;
    push_byte(text, ' ')?;
    push_head(text, &event.head)?;
    push_byte(text, ' ')?;
    push_answer(alloc, text, &event.answer)?;
    push_tails(alloc, text, event)?;
    push_byte(text, '\n')
}

/// Adds the lines of the step with this number.
pub fn push_lines(
    alloc: Global,
    text: &mut String,
    number: usize,
    events: &[Event],
) -> Result<(), Memory>
    ensures { OnOk result (string_bytes text.new ≡ string_bytes text.old ++ flat_map (event_text number) events.now) }
{
    for event in events {
        push_event(alloc, text, number, event)?;
    }
    Ok(())
}

/// Adds how the operation ended that a client's command opened, if it opened one.
fn push_ending(alloc: Global, text: &mut String, ended: &Option<Ended>) -> Result<(), Memory>
    ensures { OnOk result (string_bytes text.new ≡ string_bytes text.old ++ ending_text ended.now) }
{
    match ended {
        Some(Ended::Finished(finished)) => push_result(alloc, text, finished)?,
        Some(Ended::TimedOut { op }) => write!(text, " finished {op} timed out")?,
        Some(Ended::LeftOpen { op }) => write!(text, " open {op}")?,
        None => {}
    }
    Ok(())
}

/// Adds the messages that a client's command sent, and how its operation ended.
fn push_client_tails(alloc: Global, text: &mut String, line: &ClientLine) -> Result<(), Memory>
    ensures { OnOk result (string_bytes text.new ≡ string_bytes text.old ++ client_tails_text line.now) }
{
    push_sent(text, line.sent.as_slice())?;
    push_ending(alloc, text, &line.ended)
}

/// Adds the line of a client's command in the step with this number.
fn push_client_line(
    alloc: Global,
    text: &mut String,
    number: usize,
    line: &ClientLine,
) -> Result<(), Memory>
    ensures { OnOk result (string_bytes text.new ≡ string_bytes text.old ++ client_line_text number line.now) }
{
    push_digits(text, number)?;
    push_number(text, " client ", line.client as usize)?;
    push_byte(text, ' ')?;
    push_head(text, &line.head)?;
    push_byte(text, ' ')?;
    push_answer(alloc, text, &line.answer)?;
    push_client_tails(alloc, text, line)?;
    push_byte(text, '\n')
}

/// Adds the lines of the clients of the step with this number.
pub(crate) fn push_client_lines(
    alloc: Global,
    text: &mut String,
    number: usize,
    lines: &[ClientLine],
) -> Result<(), Memory>
    ensures { OnOk result (string_bytes text.new ≡ string_bytes text.old ++ flat_map (client_line_text number) lines.now) }
{
    for line in lines {
        push_client_line(alloc, text, number, line)?;
    }
    Ok(())
}
