ghost use Rattle.std.specs.Prelude.{◌≡◌, ℕ, Bool, IfOk, IfErr, OnErr};
ghost use Rattle.thread_machine.specs.Faults.{Stays, RoseAt};

/// What makes one step after another, each for an input.
///
/// A step may call something outside, which may fail: its fate says what became of that. What the machine tells of
/// the outside is part of what contracts see of it, and so of its steps.
pub trait Machine: Drop {
    /// What a step is made for.
    type Input: Drop;

    /// What became of the calls to the outside that a step made.
    type Fate: Drop;

    /// What a step answers.
    type Output: Drop;

    /// Why a step was not made.
    type Refusal: Drop;

    // What a step may do: the machine before it, the input, the fate, the output and the machine after it.
    ghost Steps: { Self → Self.Input → Self.Fate → Self.Output → Self → Type 0 };

    // Why a step may be refused at an input.
    ghost MayRefuse: { Self → Self.Input → Self.Refusal → Type 0 };

    // A refused step leaves the state, and all that is told of the outside.
    ghost IsUnchanged: { Self → Self → Type 0 };

    // How many calls to the outside failed, and which fates have such a call.
    ghost faults: { Self → ℕ };

    ghost is_fault: { Self.Fate → Bool };

    /// Makes a step. The two outputs are equal: one is for the history, the other for who called.
    ///
    /// # Errors
    ///
    /// No step was made, for a reason that the machine may have at this input.
    fn step(
        &mut self,
        input: &Self::Input,
    ) -> Result<(Self::Fate, Self::Output, Self::Output), Self::Refusal>
        ensures steps { IfOk result (λ made. Steps self.old input.now made.0 made.1 self.new) }
        ensures equal { IfOk result (λ made. made.2 ≡ made.1) }
        ensures fault { IfOk result (λ made. RoseAt (is_fault made.0) (faults self.old) (faults self.new)) }
        ensures refusal { IfErr result (MayRefuse self.old input.now) }
        ensures unchanged { OnErr result (IsUnchanged self.old self.new) }
        ensures later { OnErr result (Stays (faults self.old) (faults self.new)) };
}
