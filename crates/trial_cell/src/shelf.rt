ghost use Rattle.std.specs.Prelude.{◌≡◌, ℕ};
ghost use Rattle.thread_machine.specs.Faults.{RoseAt};

/// What became of a number that was to be kept.
#[derive(Clone, Copy, Debug, PartialEq, Eq)]
pub enum Fate {
    Kept,
    Lost,
}

/// Something outside that keeps the last number that it was given. One of its calls fails.
#[derive(Drop)]
pub struct Shelf {
    /// Contracts may speak of the number.
    pub tells: bool,
    pub number: u64,
    /// How many calls were made, and the number of the call that fails, from 0 on.
    pub calls: u64,
    pub fails_at: u64,
    pub faults: u64,
}

impl Shelf {
    ghost use Rattle.trial_cell.specs.Shelves.{Tells, is_lost, held_after};

    /// Keeps a number, or loses it and counts a fault.
    pub fn put(&mut self, number: u64) -> Fate
        ensures told { (held : ℕ) → Tells self.old held → Tells self.new (held_after result number held) }
        ensures fault { RoseAt (is_lost result) self.old.faults self.new.faults }
    {
        let call = self.calls;
        self.calls = call.saturating_add(1);
        if call == self.fails_at {
            self.faults = self.faults.saturating_add(1);
            return Fate::Lost;
        }
        self.number = number;
        Fate::Kept
    }
}
