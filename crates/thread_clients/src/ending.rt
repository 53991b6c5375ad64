ghost use Rattle.std.specs.Prelude.{◌≡◌, ◌↔◌, true, IfOk, OnErr};
ghost use Rattle.member_node.specs.declared.reply.Reply.TheVariants as Reply;
ghost use Rattle.thread_cell.specs.Stamps.{IsTimed};
ghost use Rattle.thread_cluster.specs.Knowing.{GoesOn, IsNowhere};
ghost use Rattle.thread_clients.specs.Turns.{MayGiveUp};
ghost use Rattle.thread_clients.specs.Endings.{closed_by, left_by, IsGivenUp, Ends};
ghost use Rattle.thread_clients.specs.Stopping.{IsCutOff, IsLeftOpen};

use crate::desk::Desk;
use crate::gate::Gate;
use base_bytes::Memory;
use base_vectors::Id;
use data_lattice::SpelledData;
use member_keeper::Keeper;
use member_node::{Finished, Input, Look, Node, Reply};
use model_kinds::Op;
use std::sync::Wait;
use thread_cell::session::Session;
use thread_cluster::section::Section;
use thread_cluster::{CallError, Cluster};
use thread_machine::machine::Machine;
use world_members::Ended;

/// How an operation ended whose timeout found it closed: by the answers to it, if it has them.
fn closed(op: u64, look: Look) -> Ended
    ensures { result ≡ closed_by op look }
{
    match look {
        Look::Finished(result) => Ended::Finished(Finished { op, result }),
        _ => Ended::TimedOut { op },
    }
}

/// How an operation stands that has no timeout, since its member makes no more steps.
fn left(op: u64, look: Look) -> Ended
    ensures { result ≡ left_by op look }
{
    match look {
        Look::Finished(result) => Ended::Finished(Finished { op, result }),
        Look::Open => Ended::LeftOpen { op },
        Look::NoSuchOp => Ended::TimedOut { op },
    }
}

/// Whether a timeout closed an operation.
fn is_timed_out(reply: &Reply) -> bool
    ensures { result ≡ true ↔ (reply.now ≡ Reply.TimedOut) }
{
    matches!(reply, Reply::TimedOut)
}

impl<'a, T: SpelledData<Op = Op>, K: Keeper + Drop, N: Section, R: Wait, G: Gate> Desk<
    'a,
    Node<T, K>,
    N,
    R,
    G,
> {
    /// The timeout of an operation, and how it then stands.
    ///
    /// # Errors
    ///
    /// Memory was refused.
    fn give_up(&self, session: &mut Session<Node<T, K>>, at: Id, op: u64) -> Result<Ended, Memory>
        requires table { session.old.seen.table ≡ N.table }
        requires runs { ¬ IsNowhere N.ids at }
        ensures table { session.new.seen.table ≡ N.table }
        ensures ok { IfOk result (IsGivenUp ⟦<Node<T, K> as Machine>⟧ N.ids at op session.old session.new) }
        ensures err { OnErr result (IsCutOff ⟦<Node<T, K> as Machine>⟧ N.ids at op session.old session.new) }
        ensures goes_on { GoesOn session.old session.new }
    {
        match self.cluster.ask(self.rt, session, at, Input::Timeout(op)) {
            Ok(receipt) => {
                if is_timed_out(&receipt.output.reply) {
                    return Ok(Ended::TimedOut { op });
                }
                let seen = self.look(session, at, op)?;
                Ok(closed(op, seen))
            }
            Err(CallError::HistoryFull) => {
                let seen = self.look(session, at, op)?;
                Ok(left(op, seen))
            }
            Err(CallError::Memory) => Err(Memory),
            Err(_) => unreachable!(),
        }
    }

    /// Turns until the operation has ended, and its timeout where these did not finish it.
    ///
    /// # Errors
    ///
    /// Memory was refused.
    pub(crate) fn end(
        &self,
        session: &mut Session<Node<T, K>>,
        at: Id,
        op: u64,
    ) -> Result<Ended, Memory>
        requires table { session.old.seen.table ≡ N.table }
        requires runs { ¬ IsNowhere N.ids at }
        ensures table { session.new.seen.table ≡ N.table }
        ensures ok { IfOk result (Ends ⟦<Node<T, K> as Machine>⟧ N.ids at op session.old session.new) }
        ensures err { OnErr result (IsLeftOpen ⟦<Node<T, K> as Machine>⟧ N.ids at op session.old session.new) }
        ensures goes_on { GoesOn session.old session.new }
    {
        match self.wait_for(session, at, op)? {
            Some(result) => Ok(Ended::Finished(Finished { op, result })),
            None => {
                session.facts();
                self.give_up(session, at, op)
            }
        }
    }
}
