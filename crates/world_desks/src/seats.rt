ghost use Rattle.std.specs.Prelude.{◌≡◌, ◌<◌, ◌==◌, length, position, IfSome};

use base_vectors::Id;
use member_desk::Desk;

/// A member's identity, and its subscriptions.
#[derive(Drop)]
pub(crate) struct Seat {
    pub(crate) id: Id,
    pub(crate) desk: Desk,
}

/// Where the desk of an identity stands.
pub(crate) fn place_of(seats: &[Seat], id: Id) -> Option<usize>
    ensures value { result ≡ position (λ seat. seat.id == id) seats.now }
    ensures within { IfSome result (λ index. index < length seats.now) }
{
    seats.iter().position(|seat| seat.id == id)
}
