ghost use Rattle.std.specs.Prelude.{◌≡◌, ◌≤◌, length, drop, IfOk};
ghost use Rattle.base_places.specs.Places.{GivesOn};

use base_bytes::{ReadError, Spelled};
use std::alloc::Global;

/// What is spelled at a place, and the place after it.
pub fn read_at<X: Spelled>(
    alloc: Global,
    from: &[u8],
    place: usize,
) -> Result<(X, usize), ReadError>
    requires { place ≤ length from.now }
    ensures within { IfOk result (λ x. x.1 ≤ length from.now) }
    ensures exact { GivesOn from.now (λ x. x) result (X.read_in (drop place from.now)) }
{
    X::read(alloc, from, place)
}
