ghost use Rattle.std.specs.Prelude.{◌≡◌, ◌∷◌, ◌++◌, map, string_bytes, OnOk, Some};
ghost use Rattle.model_members.specs.Report.{words, reply_text, key_outcome_text};
ghost use Rattle.model_kinds.specs.ShownText.{shown_text};
ghost use Rattle.member_node.specs.Replies.{meant, meant_at_key};
ghost use Rattle.report_replies.specs.Replies.{outcome_text, finished_text};

use base_bytes::Memory;
use member_node::{Finished, KeyOutcome, OperationResult, Outcome, Reply};
use report_texts::push_shown;
use std::alloc::Global;

/// Adds a text.
#[inline(always)]
fn push(text: &mut String, part: &str) -> Result<(), Memory>
    ensures { OnOk result (string_bytes text.new ≡ string_bytes text.old ++ part.now) }
{
    text.push_str(part)?;
    Ok(())
}

/// Adds what a tick made of the records of one identity that left, after a space.
fn push_outcome(text: &mut String, told: &KeyOutcome) -> Result<(), Memory>
    ensures { OnOk result (string_bytes text.new ≡ string_bytes text.old ++ outcome_text told.now) }
{
    write!(text, " {}/{}:", told.key.as_str(), told.removed.number())?;
    match told.outcome {
        Outcome::Marked => text.push_str("marked")?,
        Outcome::Performed => text.push_str("performed")?,
        Outcome::Waiting(unseen) => write!(text, "waiting-{}", unseen.number())?,
        Outcome::Blocked {
            owner_share,
            removed_share,
        } => write!(text, "blocked-{owner_share}-{removed_share}")?,
        Outcome::Newer => text.push_str("newer")?,
    }
    Ok(())
}

/// Adds how a tick ended, and then its outcomes.
fn push_ticked(text: &mut String, end: &str, outcomes: &[KeyOutcome]) -> Result<(), Memory>
    ensures { OnOk result (string_bytes text.new ≡ string_bytes text.old ++ words (end.now ∷ map key_outcome_text (map meant_at_key outcomes.now))) }
{
    text.push_str(end)?;
    for told in outcomes {
        push_outcome(text, told)?;
    }
    Ok(())
}

/// Adds a member's reply.
pub fn push_reply(alloc: Global, text: &mut String, reply: &Reply) -> Result<(), Memory>
    ensures { OnOk result (string_bytes text.new ≡ string_bytes text.old ++ reply_text shown_text (meant reply.now)) }
{
    match reply {
        Reply::Done => push(text, "done"),
        Reply::Pending(op) => Ok(write!(text, "pending {op}")?),
        Reply::Value(shown) => {
            text.push_str("value ")?;
            push_shown(alloc, text, shown)
        }
        Reply::Deleted => push(text, "deleted"),
        Reply::NotFound => push(text, "not found"),
        Reply::UnknownKey => push(text, "unknown key"),
        Reply::WrongKind => push(text, "wrong kind"),
        Reply::TooFew => push(text, "too few"),
        Reply::Overflow { share, amount } => Ok(write!(text, "overflow {share} {amount}")?),
        Reply::ClockSpent => push(text, "clock spent"),
        Reply::SetFull => push(text, "set full"),
        Reply::StoreFailed => push(text, "store failed"),
        Reply::Taken => push(text, "taken"),
        Reply::Already => push(text, "already"),
        Reply::Gap(lacking) => {
            let lacking = lacking.number();
            Ok(write!(text, "gap {lacking}")?)
        }
        Reply::NotFromMember => push(text, "not from member"),
        Reply::Installed => push(text, "installed"),
        Reply::OldView => push(text, "old view"),
        Reply::NotAPeer => push(text, "not a peer"),
        Reply::Ticked(outcomes) => push_ticked(text, "done", outcomes.as_slice()),
        Reply::TickedStoreFailed(outcomes) => {
            push_ticked(text, "store failed", outcomes.as_slice())
        }
        Reply::NotLeader(leader) => Ok(write!(text, "not leader {}", leader.number())?),
        Reply::TimedOut => push(text, "timed out"),
        Reply::NoSuchOp => push(text, "no such op"),
    }
}

/// Adds an operation that ended, with its result.
pub fn push_result(alloc: Global, text: &mut String, finished: &Finished) -> Result<(), Memory>
    ensures { OnOk result (string_bytes text.new ≡ string_bytes text.old ++ finished_text (Some finished.now)) }
{
    write!(text, " finished {} ", finished.op)?;
    match &finished.result {
        OperationResult::Wrote => text.push_str("done")?,
        OperationResult::Read(shown) => {
            text.push_str("value ")?;
            push_shown(alloc, text, shown)?;
        }
        OperationResult::ReadDeleted => text.push_str("deleted")?,
        OperationResult::ReadNothing => text.push_str("not found")?,
    }
    Ok(())
}

/// Adds the operation that ended, if one did, with its result.
pub fn push_finished(
    alloc: Global,
    text: &mut String,
    finished: &Option<Finished>,
) -> Result<(), Memory>
    ensures { OnOk result (string_bytes text.new ≡ string_bytes text.old ++ finished_text finished.now) }
{
    match finished {
        Some(finished) => push_result(alloc, text, finished),
        None => Ok(()),
    }
}
