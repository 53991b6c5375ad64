ghost use Rattle.std.specs.Prelude.{◌≡◌, ◌<◌, ◌↔◌, [], insert, vec_len, vec_capacity, IsTrue, IfOk, OnErr};
ghost use Rattle.model_history.specs.Texts.{text_lt};
ghost use Rattle.member_node.specs.Keys.{declared_by};
ghost use Rattle.member_node.specs.Declaring.{place_for, Declares};

use crate::key::{KeyDecl, KeyState};
use crate::node::Node;
use crate::places::Places;
use base_bytes::{Memory, Text};
use data_lattice::{Replica, SpelledData};
use member_keeper::Keeper;
use std::alloc::Global;

/// What became of a declaration.
#[derive(Clone, Copy, Debug, PartialEq, Eq)]
pub enum Declared {
    /// The key is declared now, and has no records.
    New,
    /// It was declared so before. What is held of it stays.
    Already,
    /// It was declared before with another kind, or durable where it is not now, or the other way round. Nothing changes.
    Otherwise,
}

/// Whether a text comes before another, by their bytes.
fn comes_before(text: &Text, other: &Text) -> bool
    ensures { result ≡ text_lt text.now other.now }
{
    text.as_str() < other.as_str()
}

/// Where a key of this name is to stand: before the first with a later name.
fn place_of<T: Replica>(keys: &[KeyState<T>], name: &Text) -> usize
    ensures { result ≡ place_for name.now keys.now }
{
    for (place, state) in keys.iter().enumerate() {
        if comes_before(name, &state.name) {
            return place;
        }
    }
    keys.len()
}

/// Puts a key before the first with a later name, into the room that is given for all of them, and notes where they stand.
fn put_key<T: Replica>(
    alloc: Global,
    keys: &mut Vec<KeyState<T>>,
    places: &mut Places,
    room: Vec<KeyState<T>>,
    state: KeyState<T>,
)
    requires empty { room.items ≡ [] }
    requires room { vec_len keys.old < vec_capacity room }
    ensures { keys.new.items ≡ insert keys.old.items (place_for state.name keys.old.items) state }
{
    let place = place_of(keys, &state.name);
    let mut roomy = room;
    roomy.append(keys).unwrap();
    roomy.insert(place, state).unwrap();
    places.renew(alloc, &roomy);
    *keys = roomy;
}

/// Whether two keys of one name are declared alike.
fn are_alike<T: Replica>(state: &KeyState<T>, other: &KeyState<T>) -> bool
    requires name { state.now.name ≡ other.now.name }
    requires kind { T.kind_of state.now.entry.value ≡ state.now.kind }
    requires other_kind { T.kind_of other.now.entry.value ≡ other.now.kind }
    ensures { IsTrue result ↔ (declared_by state.now ≡ declared_by other.now) }
{
    let kept_alike = state.durable == other.durable;
    let value = state.entry.envelope().value();
    kept_alike && value.same_kind(other.entry.envelope().value())
}

impl<T: SpelledData, K: Keeper + Drop> Node<T, K> {
    /// Declares a key, which then stands before the first with a later name. It is no step: the member has made as many as
    /// before, and calls no keeper.
    ///
    /// # Errors
    ///
    /// Memory was refused. The member is as before.
    pub fn declare(&mut self, decl: &KeyDecl<T>) -> Result<Declared, Memory>
        ensures declared { IfOk result (Declares self.old decl.now self.new) }
        ensures unchanged { OnErr result (self.new ≡ self.old) }
    {
        let state = KeyState::new(self.alloc, self.id, decl)?;
        if let Some(index) = self.position(&decl.key) {
            if are_alike(&self.keys[index], &state) {
                return Ok(Declared::Already);
            }
            return Ok(Declared::Otherwise);
        }
        let room = Vec::with_capacity(self.alloc, self.keys.len() + 1)?;
        put_key(self.alloc, &mut self.keys, &mut self.places, room, state);
        Ok(Declared::New)
    }
}
