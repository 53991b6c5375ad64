ghost use Rattle.std.specs.Prelude.{◌≡◌};
ghost use Rattle.thread_clients.specs.Calls.{IsCalled};

use crate::desk::Desk;
use crate::gate::Gate;
use data_lattice::SpelledData;
use member_keeper::Keeper;
use member_node::Node;
use model_kinds::Op;
use script_reading::{Ask, Command};
use std::sync::Wait;
use thread_cell::receipt::Receipt;
use thread_cell::session::Session;
use thread_cluster::section::Section;
use thread_cluster::{CallError, Cluster};
use thread_machine::machine::Machine;
use world_members::input_of;

impl<'a, T: SpelledData<Op = Op>, K: Keeper + Drop, N: Section, R: Wait, G: Gate> Desk<
    'a,
    Node<T, K>,
    N,
    R,
    G,
> {
    /// The member of a command is given what the command says.
    ///
    /// # Errors
    ///
    /// No running member has the identity, there is no view of the number, there is no more room, or memory was refused. Then no
    /// entry was added.
    pub(crate) fn call(
        &self,
        session: &mut Session<Node<T, K>>,
        command: &Command,
    ) -> Result<Receipt<Node<T, K>>, CallError>
        requires { session.old.seen.table ≡ N.table }
        ensures table { session.new.seen.table ≡ N.table }
        ensures called { IsCalled ⟦<Node<T, K> as Machine>⟧ N.ids self.now.cluster.now.views command.now session.old session.new result }
    {
        match &command.ask {
            Ask::Install { view } => self.cluster.install(self.rt, session, command.at, *view),
            ask => self
                .cluster
                .ask(self.rt, session, command.at, input_of(ask)),
        }
    }
}
