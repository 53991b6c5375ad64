ghost use Rattle.std.specs.Prelude.{List};
ghost use Rattle.thread_machine.specs.declared.entry.Entry.{Entry};
ghost use Rattle.thread_machine.specs.Replays.{EntriesAreSteps};

use crate::machine::Machine;

/// Each entry of a history is a step of the machine, from a replay of the entries before it.
pub fn entries_are_steps<M: Machine>()
    ensures { (start now : M) (history : List (Entry M M.Input M.Fate M.Output M.Refusal)) → EntriesAreSteps M.Machine start now history }
{}
