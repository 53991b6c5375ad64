ghost use Rattle.std.specs.Prelude.{◌≡◌, ◌≢◌, ℕ, [], Err, ◌↔◌, slice_get, Some, None, IfOk, OnErr};
ghost use Rattle.thread_cluster.specs.declared.error.CallError.TheVariants as CallError;
ghost use Rattle.thread_cluster.specs.Messages.{messages_of};
ghost use Rattle.thread_cluster.specs.Refusals.{IsCall, IsInstall};

use crate::cluster::Cluster;
use crate::error::CallError;
use crate::section::Section;
use crate::stopping::stopped;
use base_vectors::Id;
use data_lattice::SpelledData;
use member_keeper::Keeper;
use member_node::{Input, Node};
use std::sync::Wait;
use thread_cell::receipt::Receipt;
use thread_cell::session::Session;
use thread_machine::machine::Machine;

impl<T: SpelledData, K: Keeper + Drop, N: Section> Cluster<Node<T, K>, N>
where
    T::Op: Drop,
{
    /// The member of an identity makes a step for an input that takes no message.
    ///
    /// # Errors
    ///
    /// No running member has the identity, there is no more room, or memory was refused. Then no entry was added.
    pub fn ask(
        &self,
        rt: &impl Wait,
        session: &mut Session<Node<T, K>>,
        id: Id,
        input: Input<T>,
    ) -> Result<Receipt<Node<T, K>>, CallError>
        requires table { session.old.seen.table ≡ N.table }
        requires no_take { (other : ℕ) → messages_of other input ≡ [] }
        ensures table { session.new.seen.table ≡ N.table }
        ensures call { IsCall ⟦<Node<T, K> as Machine>⟧ N.ids id input session.old session.new result }
        ensures no_view { result ≢ Err CallError.NoSuchView }
    {
        let Some(site) = self.find(id) else {
            return Err(CallError::Gone);
        };
        match site.call(rt, &self.table, session, input) {
            Ok(receipt) => Ok(receipt),
            Err(error) => Err(stopped(error)),
        }
    }

    /// The member of an identity is given the view of a number.
    ///
    /// # Errors
    ///
    /// As [`Cluster::ask`]; and there is no view of the number, which is answered only of a running member.
    pub fn install(
        &self,
        rt: &impl Wait,
        session: &mut Session<Node<T, K>>,
        id: Id,
        number: u32,
    ) -> Result<Receipt<Node<T, K>>, CallError>
        requires { session.old.seen.table ≡ N.table }
        ensures table { session.new.seen.table ≡ N.table }
        ensures install { IsInstall ⟦<Node<T, K> as Machine>⟧ N.ids self.now.views id number session.old session.new result }
    {
        if !self.has(id) {
            return Err(CallError::Gone);
        }
        let Some(view) = self.views.get(number) else {
            return Err(CallError::NoSuchView);
        };
        match view.copy(self.alloc) {
            Ok(view) => self.ask(rt, session, id, Input::Install(view)),
            Err(_) => Err(CallError::Memory),
        }
    }
}
