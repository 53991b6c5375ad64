//! Calls of a member, one for each input of `step`. Each answers only what it can come to.

ghost use Rattle.std.specs.Prelude.{◌≡◌, [], None, IfOk, IfErr, OnErr, Err, ◌↔◌};
ghost use Rattle.member_node.specs.declared.input.Input.TheVariants as input;
ghost use Rattle.member_node.specs.declared.reply.Reply.TheVariants as reply;
ghost use Rattle.member_node.specs.declared.reply.StepError.TheVariants as StepError;
ghost use Rattle.member_node.specs.Calls.{told_by, updated_reply, got_reply, received_reply, installed_reply, gossiped_reply, pruned_reply, closed_reply};
ghost use Rattle.member_node.specs.Steps.{MakesStep, MayRefuse, IsUnchanged};

use crate::answers::{Answered, Closed, Gossiped, Got, Installed, Pruned, Received, Updated};
use crate::input::Input;
use crate::node::Node;
use crate::reply::StepError;
use base_bytes::Text;
use base_vectors::Id;
use data_lattice::SpelledData;
use member_keeper::Keeper;
use member_messages::{Message, Posts};
use member_quorum::Level;
use member_views::View;

impl<T: SpelledData, K: Keeper + Drop> Node<T, K>
where
    T::Op: Drop,
{
    /// Makes an own operation on a key, and has so many members have it.
    ///
    /// # Errors
    ///
    /// As those of `step`: the member has made as many steps as it may, or memory was refused, and the member is as before.
    /// An update that is refused by its key or its value is no error, but an answer.
    pub fn update(
        &mut self,
        key: Text,
        op: T::Op,
        level: Level,
    ) -> Result<Answered<T, Updated>, StepError>
        ensures step { IfOk result (λ answered. MakesStep T.SpelledData.own self.old (input.Update key op level) (told_by updated_reply answered) self.new) }
        ensures refusal { IfErr result (MayRefuse self.old) }
        ensures full { result ≡ Err StepError.HistoryFull ↔ (self.old.steps ≡ self.old.limit) }
        ensures unchanged { OnErr result (IsUnchanged self.old self.new) }
    {
        let output = self.step(&Input::Update { key, op, level })?;
        Ok(Answered::of(output))
    }

    /// Reads the value of a key, as it is when the entries of so many members are merged.
    ///
    /// # Errors
    ///
    /// As those of `step`: the member has made as many steps as it may, or memory was refused, and the member is as before.
    pub fn get(&mut self, key: Text, level: Level) -> Result<Answered<T, Got>, StepError>
        ensures step { IfOk result (λ answered. MakesStep T.SpelledData.own self.old (input.Get key level) (told_by got_reply answered) self.new) }
        ensures refusal { IfErr result (MayRefuse self.old) }
        ensures full { result ≡ Err StepError.HistoryFull ↔ (self.old.steps ≡ self.old.limit) }
        ensures unchanged { OnErr result (IsUnchanged self.old self.new) }
    {
        let output = self.step(&Input::Get { key, level })?;
        Ok(Answered::of(output))
    }

    /// Takes a message, which stays where it is.
    ///
    /// # Errors
    ///
    /// As those of `step`: the member has made as many steps as it may, or memory was refused, and the member is as before.
    pub fn receive(
        &mut self,
        from: Id,
        message: &Message<T>,
    ) -> Result<Answered<T, Received>, StepError>
        ensures step { IfOk result (λ answered. MakesStep T.SpelledData.own self.old (input.Take from message.now) (told_by received_reply answered) self.new) }
        ensures refusal { IfErr result (MayRefuse self.old) }
        ensures full { result ≡ Err StepError.HistoryFull ↔ (self.old.steps ≡ self.old.limit) }
        ensures unchanged { OnErr result (IsUnchanged self.old self.new) }
    {
        let output = self.take(from, message)?;
        Ok(Answered::of(output))
    }

    /// Sends each other member the own records that it was not sent.
    ///
    /// # Errors
    ///
    /// As those of `step`: the member has made as many steps as it may, or memory was refused, and the member is as before.
    pub fn flush(&mut self) -> Result<Posts<T>, StepError>
        ensures step { IfOk result (λ posts. MakesStep T.SpelledData.own self.old input.Flush (record { reply = reply.Done; posts = posts; finished = None }) self.new) }
        ensures refusal { IfErr result (MayRefuse self.old) }
        ensures full { result ≡ Err StepError.HistoryFull ↔ (self.old.steps ≡ self.old.limit) }
        ensures unchanged { OnErr result (IsUnchanged self.old self.new) }
    {
        let output = self.step(&Input::Flush)?;
        Ok(output.posts)
    }

    /// Tells another member of the view the digests of the entries that have records.
    ///
    /// # Errors
    ///
    /// As those of `step`: the member has made as many steps as it may, or memory was refused, and the member is as before.
    pub fn gossip(&mut self, to: Id) -> Result<Answered<T, Gossiped>, StepError>
        ensures step { IfOk result (λ answered. MakesStep T.SpelledData.own self.old (input.GossipTo to) (told_by gossiped_reply answered) self.new) }
        ensures refusal { IfErr result (MayRefuse self.old) }
        ensures full { result ≡ Err StepError.HistoryFull ↔ (self.old.steps ≡ self.old.limit) }
        ensures unchanged { OnErr result (IsUnchanged self.old self.new) }
    {
        let output = self.step(&Input::GossipTo(to))?;
        Ok(Answered::of(output))
    }

    /// Puts a view in the place of the member's own, if its number is greater.
    ///
    /// # Errors
    ///
    /// As those of `step`: the member has made as many steps as it may, or memory was refused, and the member is as before.
    pub fn install(&mut self, view: View) -> Result<Answered<T, Installed>, StepError>
        ensures step { IfOk result (λ answered. MakesStep T.SpelledData.own self.old (input.Install view) (told_by installed_reply answered) self.new) }
        ensures refusal { IfErr result (MayRefuse self.old) }
        ensures full { result ≡ Err StepError.HistoryFull ↔ (self.old.steps ≡ self.old.limit) }
        ensures unchanged { OnErr result (IsUnchanged self.old self.new) }
    {
        let output = self.step(&Input::Install(view))?;
        Ok(Answered::of(output))
    }

    /// Marks, or prunes, what is left of members that left, if the member leads its view.
    ///
    /// # Errors
    ///
    /// As those of `step`: the member has made as many steps as it may, or memory was refused, and the member is as before.
    pub fn prune(&mut self) -> Result<Answered<T, Pruned>, StepError>
        ensures step { IfOk result (λ answered. MakesStep T.SpelledData.own self.old input.PruneTick (told_by pruned_reply answered) self.new) }
        ensures refusal { IfErr result (MayRefuse self.old) }
        ensures full { result ≡ Err StepError.HistoryFull ↔ (self.old.steps ≡ self.old.limit) }
        ensures unchanged { OnErr result (IsUnchanged self.old self.new) }
    {
        let output = self.step(&Input::PruneTick)?;
        Ok(Answered::of(output))
    }

    /// Closes the open operation of this number, without a result.
    ///
    /// # Errors
    ///
    /// As those of `step`: the member has made as many steps as it may, or memory was refused, and the member is as before.
    pub fn timeout(&mut self, op: u64) -> Result<Answered<T, Closed>, StepError>
        ensures step { IfOk result (λ answered. MakesStep T.SpelledData.own self.old (input.Timeout op) (told_by closed_reply answered) self.new) }
        ensures refusal { IfErr result (MayRefuse self.old) }
        ensures full { result ≡ Err StepError.HistoryFull ↔ (self.old.steps ≡ self.old.limit) }
        ensures unchanged { OnErr result (IsUnchanged self.old self.new) }
    {
        let output = self.step(&Input::Timeout(op))?;
        Ok(Answered::of(output))
    }
}
