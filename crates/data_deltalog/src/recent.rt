ghost use Rattle.std.specs.Prelude.{◌≡◌, ◌<◌, ◌≤◌, [], ◌∷◌, ◌++◌, length, Some, slice_get, IfOk, IsSome};
ghost use Rattle.std.specs.Option.{ForSome};
ghost use Rattle.std.specs.VecDeque.{deque_len, deque_capacity};
ghost use Rattle.data_deltalog.specs.Answers.{most_kept};
ghost use Rattle.data_deltalog.specs.Contents.{last_of};

use base_bytes::Memory;
use std::alloc::Global;
use std::collections::VecDeque;
use std::marker::Model;

/// A member keeps so many of its last own records of a key.
pub const MOST_KEPT: usize = 50;

/// Room for 51 items, or none.
#[derive(Drop)]
pub(crate) struct Room<X> {
    pub(crate) spare: Option<VecDeque<X>>,
    ghost roomy: { ForSome spare (λ q. (deque_len q ≡ 0) × (51 ≤ deque_capacity q)) },
}

/// The last 50 of the items that were pushed, oldest first. Contracts see the list of them.
///
/// Its first item brings the room for all of them.
#[derive(Drop)]
pub(crate) struct Recent<X> {
    items: VecDeque<X>,
}

impl<X> Model for Recent<X> {
    ghost use Rattle.std.specs.Prelude.{List, length, ◌≤◌, ◌<◌};
    ghost use Rattle.std.specs.VecDeque.{deque_len, deque_capacity};

    ghost Value = { List X };

    ghost view = { λ recent. recent.items.items };

    ghost invariant = { λ recent. (length recent.items.items ≤ 50) × (0 < length recent.items.items → 51 ≤ deque_capacity recent.items) };
}

impl<X> Recent<X> {
    /// No item.
    pub(crate) fn new(alloc: Global) -> Recent<X>
        ensures { result ≡ [] }
    {
        Recent {
            items: VecDeque::new(alloc),
        }
    }

    /// The room that the next item needs, which is only the first.
    pub(crate) fn room(&self) -> Result<Room<X>, Memory>
        ensures { IfOk result (λ room. length self.now ≡ 0 → IsSome room.spare) }
    {
        if self.items.len() > 0 {
            return Ok(Room { spare: None });
        }
        let spare = VecDeque::with_capacity(*self.items.allocator(), MOST_KEPT + 1)?;
        Ok(Room { spare: Some(spare) })
    }

    /// Adds an item, for which the list or the room has a place. The oldest goes where more than 50 would stand.
    pub(crate) fn push(&mut self, item: X, room: Room<X>)
    where
        X: Drop,
        requires { length self.old ≡ 0 → IsSome room.spare }
        ensures { self.new ≡ last_of most_kept (self.old ++ item ∷ []) }
    {
        take_room(&mut self.items, room.spare);
        self.items.push_back_reserved(item);
        if self.items.len() > MOST_KEPT {
            self.items.pop_front();
        }
    }

    /// How many items there are, at most 50.
    pub(crate) fn len(&self) -> usize
        ensures value { result ≡ length self.now }
        ensures range { result ≤ 50 }
    {
        self.items.len()
    }

    /// The item at an index, 0 for the oldest.
    pub(crate) fn at(&self, index: usize) -> &X
        requires { index < length self.now }
        ensures { slice_get self.now index ≡ Some result.now }
    {
        &self.items[index]
    }
}

/// Takes the room that no item stands in, where there is no item yet.
fn take_room<X>(items: &mut VecDeque<X>, spare: Option<VecDeque<X>>)
where
    X: Drop,
    requires few { length items.old.items ≤ 50 }
    requires held { 0 < length items.old.items → 51 ≤ deque_capacity items.old }
    requires room { length items.old.items ≡ 0 → IsSome spare }
    requires roomy { ForSome spare (λ q. (deque_len q ≡ 0) × (51 ≤ deque_capacity q)) }
    ensures same { items.new.items ≡ items.old.items }
    ensures place { 51 ≤ deque_capacity items.new }
{
    if let Some(spare) = spare {
        if items.len() == 0 {
            *items = spare;
        }
    }
}
