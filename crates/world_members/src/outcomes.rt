ghost use Rattle.std.specs.Prelude.{◌≡◌, MatchResult, Err};
ghost use Rattle.member_node.specs.declared.reply.StepError.TheVariants as failed;
ghost use Rattle.world_members.specs.Giving.{IsToldAs};

use crate::event::{Answer, Event, Head};
use crate::world::line;
use base_bytes::Memory;
use member_node::StepError;
use std::alloc::Global;
use world_places::Answered;

/// The event of what a member answered.
#[inline(always)]
pub(crate) fn event_of(
    alloc: Global,
    head: Head,
    outcome: Result<Answered, StepError>,
) -> Result<Event, Memory>
    ensures { MatchResult result (IsToldAs head outcome) (λ _. outcome ≡ Err failed.Memory) }
{
    match outcome {
        Ok(answered) => {
            let Answered {
                reply,
                sent,
                finished,
            } = answered;
            Ok(Event {
                head,
                answer: Answer::Reply(reply),
                sent,
                finished,
            })
        }
        Err(StepError::HistoryFull) => Ok(line(alloc, head, Answer::HistoryFull)),
        Err(StepError::Memory) => Err(Memory),
    }
}
