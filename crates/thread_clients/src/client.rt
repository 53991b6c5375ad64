ghost use Rattle.std.specs.Prelude.{◌≡◌, ◌<◌, [], true, false, vec_len, vec_capacity, IfOk, OnOk, OnErr};
ghost use Rattle.thread_cluster.specs.Knowing.{GoesOn, IsNowhere};
ghost use Rattle.script_reading.specs.declared.clients.Command.{Command};
ghost use Rattle.thread_clients.specs.Sessions.{Session};
ghost use Rattle.thread_clients.specs.Commands.{all_of, commands_of, has_turn};
ghost use Rattle.thread_clients.specs.Answers.{Settles, HasMade, IsLineOf, IsRefusalLine, AddsLine};
ghost use Rattle.thread_clients.specs.Paths.{IsPath, GoesFurther};
ghost use Rattle.thread_clients.specs.Stopping.{IsLeftOff, IsBegun, StopsWithin, WasStopped};

use crate::desk::Desk;
use crate::gate::Gate;
use crate::telling::{has_turn, sketches};
use base_bytes::{Items, Memory};
use data_lattice::{Replica, SpelledData};
use member_keeper::Keeper;
use member_node::{Node, Output, Post, Reply};
use model_kinds::Op;
use script_reading::{Client, Command, Repeated};
use std::alloc::Global;
use std::sync::Wait;
use thread_cell::receipt::Receipt;
use thread_cell::session::Session;
use thread_cluster::section::Section;
use thread_cluster::{CallError, Cluster};
use thread_machine::machine::Machine;
use world_members::{Answer, ClientLine, Ended, Head};

/// A command of a higher number is told by this one.
const MOST_NUMBER: usize = 4_294_967_295;

/// The lines of a client's commands, in order.
pub type Lines = Items<ClientLine>;

/// No lines, with the memory for those of commands.
///
/// # Errors
///
/// Memory was refused.
fn lines_for(alloc: Global, commands: &[Repeated]) -> Result<Vec<ClientLine>, Memory>
    ensures { IfOk result (λ lines. lines.items ≡ []) }
{
    let mut count: usize = 0;
    for repeated in commands {
        count = count.saturating_add(repeated.times as usize);
    }
    let mut lines = Vec::new(alloc);
    lines.reserve(count)?;
    Ok(lines)
}

/// Whether nothing was sent, and no turn follows.
fn is_quiet<T: Replica>(command: &Command, posts: &[Post<T>]) -> bool
    ensures { result ≡ true → (has_turn command.now.ask ≡ false) × (posts.now ≡ []) }
{
    !has_turn(command) && posts.is_empty()
}

/// Adds the line of a command that made no step.
///
/// # Errors
///
/// It was memory that was refused.
fn refused(
    alloc: Global,
    client: u32,
    command: &Command,
    error: CallError,
    lines: &mut Vec<ClientLine>,
) -> Result<(), Memory>
    requires { vec_len lines.old < vec_capacity lines.old }
    ensures { OnOk result (AddsLine (IsRefusalLine command.now error client) lines.old.items lines.new.items) }
{
    let answer = match error {
        CallError::Gone => Answer::Gone,
        CallError::NoSuchView => Answer::NoSuchView,
        CallError::HistoryFull => Answer::HistoryFull,
        CallError::Memory => return Err(Memory),
    };
    lines.push_reserved(ClientLine {
        client,
        head: Head::Asked {
            at: command.at,
            ask: command.ask.copied(),
        },
        answer,
        sent: Items::new(alloc),
        ended: None,
    });
    Ok(())
}

impl<'a, T: SpelledData<Op = Op>, K: Keeper + Drop, N: Section, R: Wait, G: Gate> Desk<
    'a,
    Node<T, K>,
    N,
    R,
    G,
> {
    /// What a client does after its call was answered: it waits for what it opened, and else makes a turn where something was
    /// sent. Answers how the operation ended that it opened.
    ///
    /// # Errors
    ///
    /// Memory was refused.
    fn settle(
        &self,
        session: &mut Session<Node<T, K>>,
        command: &Command,
        output: &Output<T>,
    ) -> Result<Option<Ended>, Memory>
        requires table { session.old.seen.table ≡ N.table }
        requires runs { ¬ IsNowhere N.ids command.now.at }
        ensures table { session.new.seen.table ≡ N.table }
        ensures ok { IfOk result (Settles ⟦<Node<T, K> as Machine>⟧ N.ids command.now output.now.reply output.now.posts session.old session.new) }
        ensures err { OnErr result (IsLeftOff ⟦<Node<T, K> as Machine>⟧ N.ids command.now.at output.now.reply session.old session.new) }
        ensures goes_on { GoesOn session.old session.new }
    {
        if let Reply::Pending(op) = &output.reply {
            return Ok(Some(self.end(session, command.at, *op)?));
        }
        if is_quiet(command, output.posts.as_slice()) {
            return Ok(None);
        }
        self.turn(session)?;
        Ok(None)
    }

    /// Adds the line of a command that was answered, once what it opened has ended.
    ///
    /// # Errors
    ///
    /// Memory was refused.
    fn answered(
        &self,
        session: &mut Session<Node<T, K>>,
        client: u32,
        command: &Command,
        output: Output<T>,
        lines: &mut Vec<ClientLine>,
    ) -> Result<(), Memory>
        requires table { session.old.seen.table ≡ N.table }
        requires runs { ¬ IsNowhere N.ids command.now.at }
        requires room { vec_len lines.old < vec_capacity lines.old }
        ensures table { session.new.seen.table ≡ N.table }
        ensures ok { OnOk result (AddsLine (IsLineOf ⟦<Node<T, K> as Machine>⟧ N.ids command.now output session.old session.new client) lines.old.items lines.new.items) }
        ensures err { OnErr result (IsLeftOff ⟦<Node<T, K> as Machine>⟧ N.ids command.now.at output.reply session.old session.new) }
        ensures goes_on { GoesOn session.old session.new }
    {
        let sent = sketches(self.alloc, output.posts.as_slice())?;
        let ended = self.settle(session, command, &output)?;
        lines.push_reserved(ClientLine {
            client,
            head: Head::Asked {
                at: command.at,
                ask: command.ask.copied(),
            },
            answer: Answer::Reply(output.reply),
            sent,
            ended,
        });
        Ok(())
    }

    /// One command of a client. Its line goes behind those that there are.
    ///
    /// # Errors
    ///
    /// Memory was refused. An entry that was made stands.
    fn run_command(
        &self,
        session: &mut Session<Node<T, K>>,
        client: u32,
        number: u32,
        command: &Command,
        lines: &mut Vec<ClientLine>,
    ) -> Result<(), Memory>
        requires table { session.old.seen.table ≡ N.table }
        requires room { vec_len lines.old < vec_capacity lines.old }
        ensures table { session.new.seen.table ≡ N.table }
        ensures ok { OnOk result (AddsLine (λ line. HasMade ⟦<Node<T, K> as Machine>⟧ N.ids self.now.cluster.now.views command.now session.old session.new line client) lines.old.items lines.new.items) }
        ensures err { OnErr result (IsBegun ⟦<Node<T, K> as Machine>⟧ N.ids self.now.cluster.now.views command.now session.old session.new) }
        ensures goes_on { GoesOn session.old session.new }
    {
        self.gate.before(client, number);
        let result = self.call(session, command);
        self.gate.after(client, number);
        match result {
            Ok(receipt) => {
                let Receipt { output, .. } = receipt;
                self.answered(session, client, command, output, lines)?;
                session.facts();
                Ok(())
            }
            Err(error) => {
                refused(self.alloc, client, command, error, lines)?;
                session.facts();
                Ok(())
            }
        }
    }

    /// A command as often as it says. The lines go behind those that there are.
    ///
    /// # Errors
    ///
    /// Memory was refused. The entries that were made stand.
    fn run_times(
        &self,
        session: &mut Session<Node<T, K>>,
        client: u32,
        repeated: &Repeated,
        lines: &mut Vec<ClientLine>,
    ) -> Result<(), Memory>
        requires { session.old.seen.table ≡ N.table }
        ensures table { session.new.seen.table ≡ N.table }
        ensures ok { OnOk result (GoesFurther ⟦<Node<T, K> as Machine>⟧ N.ids self.now.cluster.now.views client (all_of repeated.now) session.old session.new lines.old.items lines.new.items) }
        ensures err { OnErr result (StopsWithin ⟦<Node<T, K> as Machine>⟧ N.ids self.now.cluster.now.views client (all_of repeated.now) session.old session.new lines.old.items) }
        ensures goes_on { GoesOn session.old session.new }
    {
        for _time in 0..repeated.times {
            lines.reserve(1)?;
            let number = lines.len().min(MOST_NUMBER) as u32;
            self.run_command(session, client, number, &repeated.command, lines)?;
        }
        Ok(())
    }

    /// All commands of a client, in order, each as often as it says. Answers their lines.
    ///
    /// # Errors
    ///
    /// Memory was refused. The entries that were made stand.
    pub(crate) fn run_client(
        &self,
        session: &mut Session<Node<T, K>>,
        client: u32,
        commands: &Client,
    ) -> Result<Lines, Memory>
        requires { session.old.seen.table ≡ N.table }
        ensures table { session.new.seen.table ≡ N.table }
        ensures ok { IfOk result (λ lines. IsPath ⟦<Node<T, K> as Machine>⟧ N.ids self.now.cluster.now.views client session.old (commands_of commands.now) lines session.new) }
        ensures err { OnErr result (WasStopped ⟦<Node<T, K> as Machine>⟧ N.ids self.now.cluster.now.views client (commands_of commands.now) session.old session.new) }
        ensures goes_on { GoesOn session.old session.new }
    {
        let mut lines = lines_for(self.alloc, commands.as_slice())?;
        for repeated in commands.as_slice() {
            self.run_times(session, client, repeated, &mut lines)?;
        }
        Ok(Items::from_vec(lines))
    }
}
