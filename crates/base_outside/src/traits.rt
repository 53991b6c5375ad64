ghost use Rattle.std.specs.Prelude.{◌≡◌, ℕ, List, ◌<◌, ◌≤◌, length, IfOk};
ghost use Rattle.std.specs.Io.{ReadsAtMost};
ghost use Rattle.std.specs.Io.KnownBytes.{ReadConsumes, WriteAppends};
ghost use Rattle.std.specs.declared.option.Option.{Option};
ghost use Rattle.base_outside.specs.Causes.{HasCause};

use thiserror::Error;

/// The outside refused a call. It moved no byte, and its count of faults rose.
#[derive(Clone, Copy, Debug, PartialEq, Eq, Error)]
#[error("the call failed")]
pub struct Failed;

/// Where bytes come from.
///
/// It has the bytes left, which it may keep to itself, and a count of its faults.
pub trait Source {
    // The bytes left, where they are told.
    ghost left: { Self → Option (List ℕ) };
    // How many calls failed.
    ghost faults: { Self → ℕ };

    /// Reads the next bytes to the front of `into`, and answers how many. 0 is the end of the source.
    fn read(&mut self, into: &mut [u8]) -> Result<usize, Failed>
        requires { 0 < length into.old }
        ensures bound { ReadsAtMost result into.new }
        ensures bytes { ReadConsumes (left self.old) (left self.new) result into.new }
        ensures cause { HasCause (faults self.old) (faults self.new) result };
}

/// Where bytes go to.
///
/// It has the bytes written, which it may keep to itself, and a count of its faults.
pub trait Sink {
    // The bytes written, where they are told.
    ghost written: { Self → Option (List ℕ) };
    // How many calls failed.
    ghost faults: { Self → ℕ };

    /// Writes bytes from the front of `from` on, and answers how many: at least one.
    fn write(&mut self, from: &[u8]) -> Result<usize, Failed>
        requires { 0 < length from.now }
        ensures bound { IfOk result (λ n. (0 < n) × (n ≤ length from.now)) }
        ensures bytes { WriteAppends (written self.old) (written self.new) result from.now }
        ensures cause { HasCause (faults self.old) (faults self.new) result };
}
