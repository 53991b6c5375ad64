ghost use Rattle.std.specs.Prelude.{◌≡◌, IfOk, OnOk, OnErr};
ghost use Rattle.thread_cluster.specs.Knowing.{Sees, IsNowhere, IsShownBy};
ghost use Rattle.thread_cluster.specs.Messages.{Looks};
ghost use Rattle.thread_clients.specs.Turns.{TakesOn, IsHeardOrFull, HasWaited};

use crate::desk::Desk;
use crate::gate::Gate;
use base_bytes::Memory;
use base_vectors::Id;
use data_lattice::SpelledData;
use member_keeper::Keeper;
use member_node::{Look, Node, OperationResult};
use model_kinds::Op;
use std::sync::Wait;
use thread_cell::session::Session;
use thread_cluster::section::Section;
use thread_cluster::{CallError, Cluster};
use thread_machine::machine::Machine;

/// A client makes at most so many turns for an operation before it gives it up.
pub const MOST_TURNS: u32 = 64;

impl<'a, T: SpelledData<Op = Op>, K: Keeper + Drop, N: Section, R: Wait, G: Gate> Desk<
    'a,
    Node<T, K>,
    N,
    R,
    G,
> {
    /// A turn. Where a history is full it may be cut short, and the client goes on.
    ///
    /// # Errors
    ///
    /// Memory was refused.
    pub(crate) fn turn(&self, session: &mut Session<Node<T, K>>) -> Result<(), Memory>
        requires { session.old.seen.table ≡ N.table }
        ensures table { session.new.seen.table ≡ N.table }
        ensures takes { TakesOn N.ids session.old session.new }
        ensures ok { OnOk result (IsHeardOrFull ⟦<Node<T, K> as Machine>⟧ N.ids session.old session.new) }
    {
        match self.cluster.turn(self.rt, session) {
            Ok(_) => Ok(()),
            Err(CallError::HistoryFull) => Ok(()),
            Err(_) => Err(Memory),
        }
    }

    /// How an operation stands at a running member.
    ///
    /// # Errors
    ///
    /// Memory was refused.
    pub(crate) fn look(
        &self,
        session: &mut Session<Node<T, K>>,
        at: Id,
        op: u64,
    ) -> Result<Look, Memory>
        requires table { session.old.seen.table ≡ N.table }
        requires runs { ¬ IsNowhere N.ids at }
        ensures table { session.new.seen.table ≡ N.table }
        ensures sees { Sees session.old session.new }
        ensures ok { IfOk result (IsShownBy ⟦<Node<T, K> as Machine>⟧ N.ids at Looks op session.old session.new) }
    {
        match self.cluster.look(self.rt, session, at, op) {
            Ok(look) => Ok(look),
            Err(CallError::Memory) => Err(Memory),
            Err(_) => unreachable!(),
        }
    }

    /// Turns until a look finds that the operation has finished, 64 at most.
    ///
    /// # Errors
    ///
    /// Memory was refused.
    pub(crate) fn wait_for(
        &self,
        session: &mut Session<Node<T, K>>,
        at: Id,
        op: u64,
    ) -> Result<Option<OperationResult>, Memory>
        requires table { session.old.seen.table ≡ N.table }
        requires runs { ¬ IsNowhere N.ids at }
        ensures table { session.new.seen.table ≡ N.table }
        ensures takes { TakesOn N.ids session.old session.new }
        ensures ok { IfOk result (HasWaited ⟦<Node<T, K> as Machine>⟧ N.ids at op session.old session.new) }
    {
        for _turn in 0..MOST_TURNS {
            self.turn(session)?;
            if let Look::Finished(result) = self.look(session, at, op)? {
                return Ok(Some(result));
            }
        }
        Ok(None)
    }
}
