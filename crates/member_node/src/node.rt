ghost use Rattle.std.specs.Prelude.{◌≡◌, ◌≤◌, ◌<◌, ◌^◌, length, unwrap_or};
ghost use Rattle.member_node.specs.Own.{HasFewOwn, IsUnpruned, AreLogged, AreOfTheirKinds};
ghost use Rattle.member_node.specs.Keys.{AreDistinctKeys};
ghost use Rattle.member_node.specs.Operations.{known};

use crate::input::Input;
use crate::key::{KeyDecl, KeyState};
use crate::operations::{OperationChange, Operations};
use crate::places::Places;
use crate::plan::{Plan, Prepared, carry_out};
use crate::reply::{Fate, Output, StepError};
use crate::storing::{keep, stores};
use base_bytes::{Memory, Text};
use base_vectors::Id;
use data_envelope::Envelope;
use data_lattice::{Replica, SpelledData};
use member_keeper::Keeper;
use member_messages::Message;
use member_views::View;
use std::alloc::Global;
use thread_machine::machine::Machine;

/// So many steps a member makes at most, whatever it replies, unless it is given another limit.
pub const MOST_STEPS: usize = 16_384;

/// The highest limit that a member can be given: 2^54 steps.
pub const HIGHEST_LIMIT: usize = 18_014_398_509_481_984;

/// A member: its identity, the view that it has installed, what it holds of each declared key, the operations that it has
/// opened, and where it keeps what it holds of the durable keys.
#[derive(Drop)]
pub struct Node<T: Replica, K: Keeper> {
    pub(crate) alloc: Global,
    pub(crate) id: Id,
    pub(crate) view: View,
    pub(crate) keys: Vec<KeyState<T>>,
    pub(crate) places: Places,
    pub(crate) operations: Operations,
    pub(crate) steps: usize,
    pub(crate) limit: usize,
    pub(crate) keeper: K,
    ghost few_steps: { steps ≤ limit },
    ghost few_limit: { limit ≤ 2 ^ 54 },
    ghost few_operations: { length (known operations) ≤ steps },
    ghost few_own: { HasFewOwn id steps keys.items },
    ghost unpruned: { IsUnpruned id keys.items },
    ghost logged: { AreLogged T.kind_of id keys.items },
    ghost of_kinds: { AreOfTheirKinds T.kind_of keys.items },
    ghost distinct: { AreDistinctKeys keys.items },
}

impl<T: SpelledData, K: Keeper + Drop> Node<T, K> {
    ghost use Rattle.std.specs.Prelude.{true, map, find, position, IfOk, IfErr, OnErr, Err, ◌↔◌};
    ghost use Rattle.std.specs.Option.{option_copied, option_map};
    ghost use Rattle.std.specs.Str.{bytes_eq};
    ghost use Rattle.model_members.specs.View.{is_member};
    ghost use Rattle.member_node.specs.declared.reply.StepError.TheVariants as StepError;
    ghost use Rattle.member_node.specs.Keys.{AreDistinct};
    ghost use Rattle.member_node.specs.Members.{IsNewMember};
    ghost use Rattle.member_node.specs.Limits.{IsLimited};
    ghost use Rattle.member_node.specs.Replies.{program_steps};
    ghost use Rattle.member_node.specs.Steps.{MakesStep, MayRefuse, IsUnchanged};
    ghost use Rattle.member_node.specs.Answerable.{CanReply, CanEnd, RepliesPrepared};
    ghost use Rattle.member_node.specs.Planning.{IsSoundPlan};
    ghost use Rattle.member_node.specs.Operations.{CanChange};
    ghost use Rattle.member_node.specs.Carrying.{IsCommitted, IsCarried};
    ghost use Rattle.member_node.specs.Preparing.{IsSoundFor, MakesPrepared};
    ghost use Rattle.member_node.specs.declared.input.Input.TheVariants as input;

    /// A member without records, over a keeper that it does not call. The keys are held in the order in which they are given.
    ///
    /// # Errors
    ///
    /// Memory was refused, and the keeper comes back.
    pub fn new(
        alloc: Global,
        id: Id,
        view: View,
        keys: &[KeyDecl<T>],
        keeper: K,
    ) -> Result<Node<T, K>, (K, Memory)>
        requires member { is_member view id ≡ true }
        requires distinct { AreDistinct (map (λ decl. decl.key) keys.now) }
        ensures stands { IfOk result (IsNewMember keys.now id view) }
        ensures identity { IfOk result (λ node. node.id ≡ id) }
        ensures view { IfOk result (λ node. node.view ≡ view) }
        ensures keeper { IfOk result (λ node. node.keeper ≡ keeper) }
        ensures limit { IfOk result (λ node. node.limit ≡ program_steps) }
        ensures err { IfErr result (λ refused. refused.0 ≡ keeper) }
    {
        let Ok(keys) = KeyState::all_new(alloc, id, keys) else {
            return Err((keeper, Memory));
        };
        match Places::of(alloc, &keys) {
            Ok(places) => Ok(Node {
                alloc,
                id,
                view,
                keys,
                places,
                operations: Operations::new(alloc),
                steps: 0,
                limit: MOST_STEPS,
                keeper,
            }),
            Err(_) => Err((keeper, Memory)),
        }
    }

    /// The member with another limit: it makes at most so many steps in all, but no fewer than it has made, and at most
    /// `HIGHEST_LIMIT`.
    pub fn with_limit(self, limit: usize) -> Node<T, K>
        ensures { IsLimited self limit result }
    {
        let mut node = self;
        node.limit = limit.min(HIGHEST_LIMIT).max(node.steps);
        node
    }

    /// How many steps the member makes at most.
    pub fn limit(&self) -> usize
        ensures { result ≡ self.now.limit }
    {
        self.limit
    }

    /// How many steps the member has made.
    pub fn steps(&self) -> usize
        ensures { result ≡ self.now.steps }
    {
        self.steps
    }

    /// The identity.
    pub fn id(&self) -> Id
        ensures { result ≡ self.now.id }
    {
        self.id
    }

    /// The view that the member has installed.
    pub fn view(&self) -> &View
        ensures { result.now ≡ self.now.view }
    {
        &self.view
    }

    /// What the member holds of each declared key.
    pub fn keys(&self) -> &[KeyState<T>]
        ensures { result.now ≡ self.now.keys.items }
    {
        self.keys.as_slice()
    }

    /// What the member holds of a key, if it is declared.
    pub fn entry(&self, key: &Text) -> Option<&Envelope<T>>
        ensures { option_copied result ≡ option_map (λ state. state.entry) (find (λ state. bytes_eq state.name key.now) self.now.keys.items) }
    {
        match self.position(key) {
            Some(index) => Some(self.keys[index].entry.envelope()),
            None => None,
        }
    }

    /// Where the key stands.
    pub(crate) fn position(&self, key: &Text) -> Option<usize>
        ensures { result ≡ position (λ state. bytes_eq state.name key.now) self.now.keys.items }
    {
        self.places.place(&self.keys, key)
    }

    /// The keeper of a member that stops.
    pub fn into_keeper(self) -> K
        ensures { result ≡ self.keeper }
    {
        self.keeper
    }

    /// Makes a step for an input. What changed of durable keys is stored first; a keeper that fails does not undo the step.
    ///
    /// # Errors
    ///
    /// The member has made as many steps as it may, or memory was refused. It is then as before, but that the keeper may
    /// have been called; what this tells is as before.
    pub fn step(&mut self, input: &Input<T>) -> Result<Output<T>, StepError>
        ensures step { IfOk result (λ output. MakesStep T.SpelledData.own self.old input.now output self.new) }
        ensures reply { IfOk result (λ output. CanReply input.now output.reply) }
        ensures ends { IfOk result (λ output. CanEnd input.now output.finished) }
        ensures refusal { IfErr result (MayRefuse self.old) }
        ensures full { result ≡ Err StepError.HistoryFull ↔ (self.old.steps ≡ self.old.limit) }
        ensures unchanged { OnErr result (IsUnchanged self.old self.new) }
    {
        if self.steps >= self.limit {
            return Err(StepError::HistoryFull);
        }
        if let Some(became) = self.update_in_place(input)? {
            return Ok(became.output(self.alloc));
        }
        let prepared = self.prepare_with_digests(input)?;
        Ok(self.make(prepared)?)
    }

    /// Makes a step for a message, as `step` does for the input that takes it, but leaves the message where it is.
    ///
    /// # Errors
    ///
    /// As those of `step`.
    pub fn take(&mut self, from: Id, message: &Message<T>) -> Result<Output<T>, StepError>
        ensures step { IfOk result (λ output. MakesStep T.SpelledData.own self.old (input.Take from message.now) output self.new) }
        ensures reply { IfOk result (λ output. CanReply (input.Take from message.now) output.reply) }
        ensures refusal { IfErr result (MayRefuse self.old) }
        ensures full { result ≡ Err StepError.HistoryFull ↔ (self.old.steps ≡ self.old.limit) }
        ensures unchanged { OnErr result (IsUnchanged self.old self.new) }
    {
        if self.steps >= self.limit {
            return Err(StepError::HistoryFull);
        }
        let prepared = self.taken_with_digests(from, message)?;
        Ok(self.make(prepared)?)
    }

    /// Makes the step that was prepared.
    #[inline(always)]
    fn make(&mut self, prepared: Prepared<T>) -> Result<Output<T>, Memory>
        requires room { self.old.steps < self.old.limit }
        requires sound { IsSoundFor self.old prepared }
        ensures made { IfOk result (λ output. MakesPrepared T.SpelledData.own self.old prepared output self.new) }
        ensures replies { IfOk result (λ output. RepliesPrepared prepared output) }
        ensures unchanged { OnErr result (IsUnchanged self.old self.new) }
    {
        let Prepared {
            view,
            plan,
            operations,
            output,
        } = prepared;
        let fate = self.carry(view, plan, operations)?;
        Ok(output.after(fate))
    }

    /// Makes of the member what was planned, once what has to be stored was offered to the keeper.
    #[inline(always)]
    fn carry(
        &mut self,
        view: Option<View>,
        plan: Plan<T>,
        operations: OperationChange,
    ) -> Result<Fate, Memory>
        requires room { self.old.steps < self.old.limit }
        requires sound { IsSoundPlan T.Replica self.old.id self.old.steps self.old.keys.items plan }
        requires can { CanChange self.old.operations operations }
        ensures carried { IfOk result (λ fate. IsCarried T.SpelledData.own self.old view plan operations fate self.new) }
        ensures unchanged { OnErr result (IsUnchanged self.old self.new) }
        ensures later { K.faults self.old.keeper ≤ K.faults self.new.keeper }
    {
        let stores = stores(self.alloc, &self.keys, &plan)?;
        let fate = keep(&mut self.keeper, stores.as_slice())?;
        self.commit(view, plan, operations.after(fate));
        Ok(fate)
    }

    /// Makes of the member what was planned, which takes no memory.
    #[inline(always)]
    fn commit(&mut self, view: Option<View>, plan: Plan<T>, operations: OperationChange)
        requires room { self.old.steps < self.old.limit }
        requires sound { IsSoundPlan T.Replica self.old.id self.old.steps self.old.keys.items plan }
        requires can { CanChange self.old.operations operations }
        ensures { IsCommitted self.old view plan operations self.new }
    {
        carry_out(self.keys.as_mut_slice(), plan);
        self.operations.change(operations);
        install(&mut self.view, view);
        self.steps += 1;
    }
}

/// Puts another view in place of a view, if there is one.
fn install(view: &mut View, other: Option<View>)
    ensures { view.new ≡ unwrap_or other view.old }
{
    if let Some(other) = other {
        *view = other;
    }
}

impl<T: SpelledData, K: Keeper + Drop> Machine for Node<T, K>
where
    T::Op: Drop,
{
    type Input = Input<T>;

    type Fate = Fate;

    type Output = Output<T>;

    type Refusal = StepError;

    ghost use Rattle.member_node.specs.Steps.{IsStepOf, MayRefuse, IsUnchanged, is_failure};

    ghost Steps = { λ old input fate output new. IsStepOf T.SpelledData.own old input fate output new };

    ghost MayRefuse = { λ node input refusal. MayRefuse node refusal };

    ghost IsUnchanged = { λ old new. IsUnchanged old new };

    ghost faults = { λ node. K.faults node.keeper };

    ghost is_fault = { is_failure };

    fn step(&mut self, input: &Input<T>) -> Result<(Fate, Output<T>, Output<T>), StepError> {
        if self.steps >= self.limit {
            return Err(StepError::HistoryFull);
        }
        if let Some(became) = self.update_in_place(input)? {
            let output = became.output(self.alloc);
            return Ok((Fate::NoStore, output, became.output(self.alloc)));
        }
        let Prepared {
            view,
            plan,
            operations,
            output,
        } = self.prepare_with_digests(input)?;
        let copy = output.copy(self.alloc)?;
        let fate = self.carry(view, plan, operations)?;
        Ok((fate, output.after(fate), copy.after(fate)))
    }
}
