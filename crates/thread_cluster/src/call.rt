ghost use Rattle.std.specs.Prelude.{◌≡◌, ℕ, [], Err, ◌↔◌, IfOk, OnErr};
ghost use Rattle.thread_cell.specs.declared.cell.CellError.{CellError};
ghost use Rattle.thread_cluster.specs.declared.call.Unmade.TheVariants as Unmade;
ghost use Rattle.thread_cluster.specs.declared.call.LookError.TheVariants as LookError;
ghost use Rattle.thread_cluster.specs.Knowing.{Sees, IsNowhere, IsReceipt, IsCauseOf, IsShownBy};

use crate::cluster::Cluster;
use crate::member::Member;
use crate::section::Section;
use base_vectors::Id;
use std::sync::Wait;
use thread_cell::cell::CellError;
use thread_cell::receipt::Receipt;
use thread_cell::session::Session;

/// Why a call was not made.
#[derive(Drop)]
pub enum Unmade<R> {
    /// No member has the identity.
    Gone,
    /// The member made no step.
    Stopped(CellError<R>),
}

/// Why a look shows nothing.
#[derive(Drop)]
pub enum LookError {
    /// No member has the identity.
    Gone,
    /// Memory was refused.
    Memory,
}

impl<M: Member, N: Section> Cluster<M, N> {
    /// The member of an identity makes a step for an input that takes no message.
    ///
    /// # Errors
    ///
    /// No member has the identity; or its history is full, it made no step, or memory was refused. No entry was added.
    pub fn call_at(
        &self,
        rt: &impl Wait,
        session: &mut Session<M>,
        id: Id,
        input: M::Input,
    ) -> Result<Receipt<M>, Unmade<M::Refusal>>
        requires table { session.old.seen.table ≡ N.table }
        requires no_take { (other : ℕ) → M.taken other input ≡ [] }
        ensures table { session.new.seen.table ≡ N.table }
        ensures ok { IfOk result (IsReceipt M.Machine N.ids id input session.old session.new) }
        ensures err { OnErr result (Sees session.old session.new) }
        ensures gone { result ≡ Err Unmade.Gone ↔ IsNowhere N.ids id }
        ensures cause { (error : CellError M.Refusal) → result ≡ Err (Unmade.Stopped error) → IsCauseOf M.Machine N.ids id input session.new error }
    {
        let Some(site) = self.find(id) else {
            return Err(Unmade::Gone);
        };
        match site.call(rt, &self.table, session, input) {
            Ok(receipt) => Ok(receipt),
            Err(error) => Err(Unmade::Stopped(error)),
        }
    }

    /// What the member of an identity shows of what is asked. The session has then seen what the member has.
    ///
    /// # Errors
    ///
    /// No member has the identity, or memory was refused.
    pub fn look_at(
        &self,
        rt: &impl Wait,
        session: &mut Session<M>,
        id: Id,
        question: &M::Question,
    ) -> Result<M::Answer, LookError>
        requires { session.old.seen.table ≡ N.table }
        ensures table { session.new.seen.table ≡ N.table }
        ensures ok { IfOk result (IsShownBy M.Machine N.ids id M.Shows question.now session.old session.new) }
        ensures sees { Sees session.old session.new }
        ensures gone { result ≡ Err LookError.Gone ↔ IsNowhere N.ids id }
    {
        let Some(site) = self.find(id) else {
            return Err(LookError::Gone);
        };
        match site.look(rt, &self.table, session, question) {
            Ok(answer) => Ok(answer),
            Err(_) => Err(LookError::Memory),
        }
    }
}
