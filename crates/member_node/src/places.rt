ghost use Rattle.std.specs.Prelude.{◌≡◌, ◌<◌, ◌^◌, position, IfSome};
ghost use Rattle.std.specs.Str.{bytes_eq};
ghost use Rattle.member_node.specs.Keys.{AreDistinctKeys, IsKeyAt};

use crate::key::{KeyState, index_of};
use base_bytes::{Memory, Text};
use data_lattice::Replica;
use std::alloc::Global;
use std::marker::Model;

/// So many slots at most, which no memory has.
const MOST_SLOTS: usize = 1 << 62;

/// Where keys stand, by a hash of their names. It is a hint: what it names is compared with the key, and where it names nothing
/// the keys are walked. Contracts see nothing of it.
#[derive(Drop)]
pub(crate) struct Places {
    /// A power of two of them, at least twice as many as there were keys. One has the place of a key and one, or 0 for none. The
    /// key stands in the first that was free from the one of its hash on.
    slots: Vec<usize>,
}

impl Model for Places {
    ghost Value = { Unit {0} };

    ghost view = { λ _. tt };

    ghost invariant = { λ _. Unit {0} };
}

/// FNV-1a of a name, folded. Fowler, Noll and Vo gave it to the public domain.
fn hash(name: &Text) -> usize {
    let mut hash: u64 = 0xcbf2_9ce4_8422_2325;
    for byte in name.as_str().as_bytes() {
        hash = (hash ^ u64::from(*byte)).wrapping_mul(0x0100_0000_01b3);
    }
    (hash ^ (hash >> 32)) as usize
}

/// The slot that a number names, among a power of two of them.
fn slot(number: usize, slots: &[usize]) -> usize {
    number & slots.len().wrapping_sub(1)
}

/// Notes the place of a key.
fn note(slots: &mut [usize], name: &Text, place: usize)
    requires { place < 2 ^ 62 }
{
    let mut at = slot(hash(name), slots);
    for _ in 0..slots.len() {
        match slots.get(at) {
            Some(0) => {
                slots[at] = place + 1;
                return;
            }
            _ => at = slot(at.wrapping_add(1), slots),
        }
    }
}

impl Places {
    /// Of these keys.
    ///
    /// # Errors
    ///
    /// Memory was refused.
    pub(crate) fn of<T: Replica>(alloc: Global, keys: &[KeyState<T>]) -> Result<Places, Memory> {
        if keys.len() > MOST_SLOTS / 2 {
            return Err(Memory);
        }
        let count = (keys.len() * 2).next_power_of_two();
        let mut slots = vec![in alloc; 0; count]?;
        for (place, state) in keys.iter().enumerate() {
            note(&mut slots, &state.name, place);
        }
        Ok(Places { slots })
    }

    /// Notes where these keys stand now. Where memory is refused, what was noted stays.
    pub(crate) fn renew<T: Replica>(&mut self, alloc: Global, keys: &[KeyState<T>]) {
        if let Ok(places) = Places::of(alloc, keys) {
            *self = places;
        }
    }

    /// Where a key stands, if it was noted.
    fn noted<T: Replica>(&self, keys: &[KeyState<T>], key: &Text) -> Option<usize>
        ensures { IfSome result (IsKeyAt keys.now key.now) }
    {
        let mut at = slot(hash(key), &self.slots);
        for _ in 0..self.slots.len() {
            let place = self.slots.get(at)?.checked_sub(1)?;
            let state = keys.get(place)?;
            if state.name.as_str() == key.as_str() {
                return Some(place);
            }
            at = slot(at.wrapping_add(1), &self.slots);
        }
        None
    }

    /// Where a key stands.
    pub(crate) fn place<T: Replica>(&self, keys: &[KeyState<T>], key: &Text) -> Option<usize>
        requires distinct { AreDistinctKeys keys.now }
        ensures { result ≡ position (λ state. bytes_eq state.name key.now) keys.now }
    {
        match self.noted(keys, key) {
            Some(place) => Some(place),
            None => index_of(keys, key),
        }
    }
}
