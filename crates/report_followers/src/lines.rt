ghost use Rattle.std.specs.Prelude.{◌≡◌, ◌++◌, flat_map, string_bytes, OnOk};
ghost use Rattle.theorem_watching.specs.Watching.{followship_text};
ghost use Rattle.report_followers.specs.Lines.{subscribe_text, unsubscribe_text, notice_text};

use base_bytes::{Memory, Text};
use base_vectors::Id;
use member_desk::Notice;
use report_texts::push_shown;
use std::alloc::Global;
use theorem_watching::Followship;

/// What a request is answered, as text.
fn answer_text(answer: Followship) -> &'static str
    ensures { result.now ≡ followship_text answer }
{
    match answer {
        Followship::Gone => "gone",
        Followship::UnknownKey => "unknown key",
        Followship::Subscribed => "subscribed",
        Followship::AlreadySubscribed => "already subscribed",
        Followship::Unsubscribed => "unsubscribed",
        Followship::NotSubscribed => "not subscribed",
    }
}

/// Adds the line of a request to follow a key.
pub(crate) fn push_subscribe(
    text: &mut String,
    number: usize,
    at: Id,
    client: u32,
    key: &Text,
    answer: Followship,
) -> Result<(), Memory>
    ensures { OnOk result (string_bytes text.new ≡ string_bytes text.old ++ subscribe_text number at client key.now answer) }
{
    let at = at.number();
    let key = key.as_str();
    let answer = answer_text(answer);
    write!(text, "{number} subscribe {at} {client} {key} {answer}\n")?;
    Ok(())
}

/// Adds the line of a request to follow a key no more.
pub(crate) fn push_unsubscribe(
    text: &mut String,
    number: usize,
    at: Id,
    client: u32,
    key: &Text,
    answer: Followship,
) -> Result<(), Memory>
    ensures { OnOk result (string_bytes text.new ≡ string_bytes text.old ++ unsubscribe_text number at client key.now answer) }
{
    let at = at.number();
    let key = key.as_str();
    let answer = answer_text(answer);
    write!(text, "{number} unsubscribe {at} {client} {key} {answer}\n")?;
    Ok(())
}

/// Adds the line of a notice.
fn push_notice(
    alloc: Global,
    text: &mut String,
    number: usize,
    at: Id,
    notice: &Notice,
) -> Result<(), Memory>
    ensures { OnOk result (string_bytes text.new ≡ string_bytes text.old ++ notice_text number at notice.now) }
{
    let at = at.number();
    let client = notice.client;
    let key = notice.key.as_str();
    write!(text, "{number} notice {at} {client} {key} ")?;
    push_shown(alloc, text, &notice.shown)?;
    text.push_str("\n")?;
    Ok(())
}

/// Adds the lines of the notices of a flush, behind its own.
pub(crate) fn push_notices(
    alloc: Global,
    text: &mut String,
    number: usize,
    at: Id,
    notices: &[Notice],
) -> Result<(), Memory>
    ensures { OnOk result (string_bytes text.new ≡ string_bytes text.old ++ flat_map (notice_text number at) notices.now) }
{
    for notice in notices {
        push_notice(alloc, text, number, at, notice)?;
    }
    Ok(())
}
