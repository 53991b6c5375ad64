ghost use Rattle.std.specs.Prelude.{◌≡◌, ◌≢◌, ◌+◌, ◌<◌, ◌≤◌, Err, ◌↔◌, IfOk, OnErr};
ghost use Rattle.thread_cluster.specs.Knowing.{Sees, IsNowhere, IsShownBy};
ghost use Rattle.thread_cluster.specs.Turning.{HasBegun, HasTurnedAll};
ghost use Rattle.thread_cluster.specs.Books.{unheard};
ghost use Rattle.thread_cluster.specs.declared.error.CallError.TheVariants as CallError;
ghost use Rattle.thread_cluster.specs.Messages.{messages_to, messages_of, Looks};
ghost use Rattle.thread_cluster.specs.Refusals.{IsFullSomewhere};

use crate::call::LookError;
use crate::cluster::Cluster;
use crate::error::CallError;
use crate::section::Section;
use crate::stopping::stopped;
use base_vectors::Id;
use data_lattice::SpelledData;
use member_keeper::Keeper;
use member_node::{Look, Node};
use std::marker::Brand;
use std::sync::Wait;
use std::sync::ledger::{Blank, Ledger};
use thread_cell::reading::Steps;
use thread_cell::session::Session;
use thread_machine::machine::Machine;

impl<T: SpelledData, K: Keeper + Drop, N: Section> Cluster<Node<T, K>, N>
where
    T::Op: Drop,
{
    /// Each member takes the messages of each other one that it did not take yet. Answers how many were taken.
    ///
    /// # Errors
    ///
    /// There is no more room, or memory was refused. What was taken stands.
    pub fn turn<R: Wait>(&self, rt: &R, session: &mut Session<Node<T, K>>) -> Result<u32, CallError>
        requires { session.old.seen.table ≡ N.table }
        ensures table { session.new.seen.table ≡ N.table }
        ensures ok { IfOk result (λ n. HasTurnedAll messages_of (λ id output. messages_to id output.posts) N.ids n session.old session.new) }
        ensures err { OnErr result (HasBegun messages_of N.ids session.old session.new) }
        ensures full { result ≡ Err CallError.HistoryFull → IsFullSomewhere ⟦<Node<T, K> as Machine>⟧ N.ids session.new }
        ensures only { result ≢ Err CallError.Gone × result ≢ Err CallError.NoSuchView }
    {
        self.turn_from::<R, Brand>(rt, session, Blank::new(1))
    }

    // The same, with a counter in a ledger of its own.
    fn turn_from<R: Wait, L: Ledger>(
        &self,
        rt: &R,
        session: &mut Session<Node<T, K>>,
        blank: Blank,
    ) -> Result<u32, CallError>
        requires table { session.old.seen.table ≡ N.table }
        requires name { blank.name ≡ L.name }
        requires parts { blank.parts ≡ L.parts }
        requires some { 0 < blank.parts }
        ensures table { session.new.seen.table ≡ N.table }
        ensures ok { IfOk result (λ n. HasTurnedAll messages_of (λ id output. messages_to id output.posts) N.ids n session.old session.new) }
        ensures err { OnErr result (HasBegun messages_of N.ids session.old session.new) }
        ensures full { result ≡ Err CallError.HistoryFull → IsFullSomewhere ⟦<Node<T, K> as Machine>⟧ N.ids session.new }
        ensures only { result ≢ Err CallError.Gone × result ≢ Err CallError.NoSuchView }
    {
        let mut steps = Steps::<L>::new(blank);
        self.turn_counted(rt, session, &mut steps)
    }

    /// A turn that is counted: as `turn`, and a step is an entry that is read. There are at most as many as messages to running
    /// members, in what the session then knows, that weren't heard in what it knew before.
    ///
    /// # Errors
    ///
    /// There is no more room, or memory was refused. What was taken stands.
    pub fn turn_counted<L: Ledger>(
        &self,
        rt: &impl Wait,
        session: &mut Session<Node<T, K>>,
        steps: &mut Steps<L>,
    ) -> Result<u32, CallError>
        requires { session.old.seen.table ≡ N.table }
        ensures table { session.new.seen.table ≡ N.table }
        ensures ok { IfOk result (λ n. HasTurnedAll messages_of (λ id output. messages_to id output.posts) N.ids n session.old session.new) }
        ensures err { OnErr result (HasBegun messages_of N.ids session.old session.new) }
        ensures full { result ≡ Err CallError.HistoryFull → IsFullSomewhere ⟦<Node<T, K> as Machine>⟧ N.ids session.new }
        ensures only { result ≢ Err CallError.Gone × result ≢ Err CallError.NoSuchView }
        ensures steps { steps.new ≤ steps.old + unheard (λ id output. messages_to id output.posts) messages_of N.ids session.old.seen.known session.new.seen.known }
    {
        match self.turn_all(rt, session, steps) {
            Ok(taken) => Ok(taken as u32),
            Err(error) => Err(stopped(error)),
        }
    }

    /// How the operation of a number stands at the member of an identity. The session has then seen what the member has.
    ///
    /// # Errors
    ///
    /// No running member has the identity, or memory was refused.
    pub fn look(
        &self,
        rt: &impl Wait,
        session: &mut Session<Node<T, K>>,
        id: Id,
        op: u64,
    ) -> Result<Look, CallError>
        requires { session.old.seen.table ≡ N.table }
        ensures table { session.new.seen.table ≡ N.table }
        ensures ok { IfOk result (IsShownBy ⟦<Node<T, K> as Machine>⟧ N.ids id Looks op session.old session.new) }
        ensures sees { Sees session.old session.new }
        ensures gone { result ≡ Err CallError.Gone ↔ IsNowhere N.ids id }
        ensures only { result ≢ Err CallError.NoSuchView × result ≢ Err CallError.HistoryFull }
    {
        match self.look_at(rt, session, id, &op) {
            Ok(look) => Ok(look),
            Err(LookError::Gone) => Err(CallError::Gone),
            Err(LookError::Memory) => Err(CallError::Memory),
        }
    }
}
