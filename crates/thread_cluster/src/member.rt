ghost use Rattle.std.specs.Prelude.{◌≡◌, ℕ, ◌-◌, ◌==◌, if◌then◌else◌, List, [], ◌∷◌, ◌++◌, length, drop, IfOk, OnOk};

use base_bytes::Memory;
use base_vectors::Id;
use std::alloc::Global;
use std::collections::VecDeque;
use thread_machine::machine::Machine;

/// A machine that posts messages to others of its kind, and takes theirs. Each has an identity.
pub trait Member: Machine {
    /// What is posted and taken.
    type Message: Drop;

    /// What a look asks.
    type Question;

    /// What a look answers.
    type Answer;

    // The messages that an output posts to an identity, in order.
    ghost posted: { ℕ → Self.Output → List Self.Message };

    // The message that an input takes of an identity, if it takes one.
    ghost taken: { ℕ → Self.Input → List Self.Message };

    // What a look may answer.
    ghost Shows: { Self → Self.Question → Self.Answer → Type 0 };

    /// The input that takes a message of an identity, and of no other.
    fn take(from: Id, message: Self::Message) -> Self::Input
        ensures { (id : ℕ) → taken id result ≡ (if id == from then message ∷ [] else []) };

    /// Whether an input takes a message of an identity.
    fn takes(input: &Self::Input, from: Id) -> bool
        ensures { length (taken from input.now) ≡ (if result then 1 else 0) };

    /// How many messages an output posts to an identity.
    fn count_posted(output: &Self::Output, to: Id) -> usize
        ensures { result ≡ length (posted to output.now) };

    /// Puts copies of the messages that an output posts to an identity behind these copies, but for the first ones:
    /// `skip` of them, as far as there are so many. Answers how many are still to be skipped.
    ///
    /// # Errors
    ///
    /// Memory was refused.
    fn copy_posted(
        output: &Self::Output,
        alloc: Global,
        to: Id,
        skip: usize,
        copies: &mut VecDeque<Self::Message>,
    ) -> Result<usize, Memory>
        ensures left { IfOk result (λ left. left ≡ skip - length (posted to output.now)) }
        ensures copies { OnOk result (copies.new.items ≡ copies.old.items ++ drop skip (posted to output.now)) };

    /// What the member shows of what is asked.
    ///
    /// # Errors
    ///
    /// Memory was refused.
    fn look(&self, question: &Self::Question) -> Result<Self::Answer, Memory>
        ensures { IfOk result (Shows self.now question.now) };
}
