ghost use Rattle.std.specs.Prelude.{◌≡◌, ℕ, ◌+◌, ◌<◌, List, [], ◌∷◌, ◌++◌, length, vec_len, vec_capacity};
ghost use Rattle.thread_cell.specs.Lists.{at};
ghost use Rattle.thread_cell.specs.Views.{IsLive, noted, place_left, place_given, client_left, client_given, met, extended};
ghost use Rattle.thread_cell.specs.Rule.{most, stands, Looked, Serves, IsNewCall};
ghost use Rattle.thread_cell.specs.Seats.{IsAtPlace, IsOfClient, Calls};
ghost use Rattle.thread_cell.specs.Endings.{Ends};
ghost use Rattle.thread_cell.specs.Beginnings.{Opens};

use crate::name::Name;
use crate::opening::Opening;
use crate::rule::{
    Arrive, Copied, Extend, FirstClient, FirstPlace, Known, Look, Meet, OneOrder, Place,
};
use atomic_table::Table;
use std::alloc::Global;
use std::marker::{Model, PhantomData};
use thread_machine::entry::Entry;
use thread_machine::machine::Machine;

/// How many words a table has: one at which seats look, and behind it one for each place, each 16 words from the last, so that
/// threads that change the words of different places share no line of a cache.
pub(crate) const WORDS: usize = 144;

/// The table at which cells and sessions have their seats. Contracts see what it began with.
#[derive(Drop)]
pub struct CellTable<M: Machine, N: Name> {
    table: Table<Entry<M>, Known<M>, Opening<M>, OneOrder, Global>,
    of: PhantomData<N>,
}

impl<M: Machine, N: Name> Model for CellTable<M, N> {
    ghost use Rattle.std.specs.Prelude.{◌≡◌};
    ghost use Rattle.thread_cell.specs.declared.opening.Opening.{Opening};

    ghost Value = { Opening M M.Input M.Fate M.Output M.Refusal };

    ghost view = { λ t. t.table.shared.key };

    ghost invariant = { λ t. (t.table.shared.table_id ≡ N.table) × (t.table.shared.table_id.words ≡ 144) × (t.table.shared.table_id.slots ≡ 0) };
}

impl<M: Machine, N: Name> CellTable<M, N> {
    pub(crate) fn new(
        table: Table<Entry<M>, Known<M>, Opening<M>, OneOrder, Global>,
    ) -> CellTable<M, N>
        requires { (table.shared.table_id ≡ N.table) × (table.shared.table_id.words ≡ 144) × (table.shared.table_id.slots ≡ 0) }
        ensures { result ≡ table.shared.key }
    {
        CellTable {
            table,
            of: PhantomData,
        }
    }

    // A seat that has seen nothing and stands for nothing. It knows what the table began with.
    pub(crate) fn seat(&self) -> Place<M>
        ensures { (result.table_id ≡ N.table) × Opens self.now [] [] result.me }
    {
        self.table.shared.load_new_seat::<Arrive>(0).1
    }

    // A copy of what the seat knows, which stands for nothing.
    pub(crate) fn copy(&self, seat: &mut Place<M>) -> Place<M>
        requires { seat.old.table_id ≡ N.table }
        ensures seat { (seat.new.table_id ≡ N.table) × (seat.new.me ≡ seat.old.me) }
        ensures copy { (result.table_id ≡ N.table) × (result.me ≡ (noted seat.old.me.0, [])) }
    {
        self.table.shared.split_seat::<Copied>(seat)
    }

    // The first place of the seat goes to a seat of its own.
    pub(crate) fn part_place(&self, seat: &mut Place<M>) -> Place<M>
        requires { seat.old.table_id ≡ N.table }
        ensures seat { (seat.new.table_id ≡ N.table) × (seat.new.me ≡ (place_left seat.old.me.0, seat.old.me.1)) }
        ensures part { (result.table_id ≡ N.table) × (result.me ≡ (place_given seat.old.me.0, [])) }
    {
        self.table.shared.split_seat::<FirstPlace>(seat)
    }

    // The first client of the seat goes to a seat of its own.
    pub(crate) fn part_client(&self, seat: &mut Place<M>) -> Place<M>
        requires { seat.old.table_id ≡ N.table }
        ensures seat { (seat.new.table_id ≡ N.table) × (seat.new.me ≡ (client_left seat.old.me.0, seat.old.me.1)) }
        ensures part { (result.table_id ≡ N.table) × (result.me ≡ (client_given seat.old.me.0, [])) }
    {
        self.table.shared.split_seat::<FirstClient>(seat)
    }

    // The seat takes over all that the other one knows and stands for.
    pub(crate) fn meet(&self, seat: &mut Place<M>, other: Place<M>)
        requires table { (seat.old.table_id ≡ N.table) × (other.table_id ≡ N.table) × (other.me.1 ≡ []) }
        requires live { IsLive seat.old.me.0 × IsLive other.me.0 }
        ensures seat { (seat.new.table_id ≡ N.table) × (seat.new.me ≡ (met seat.old.me.0 other.me.0, seat.old.me.1)) }
        ensures looked { Looked (met seat.old.me.0 other.me.0) }
    {
        self.table.shared.join_seat::<Meet>(seat, other);
        self.table.shared.load::<Look>(seat, 0);
    }

    // An entry more at a place, by the seat that stands for the place and for the entry's client.
    pub(crate) fn extend(&self, seat: &mut Place<M>, place: usize, count: u64, entry: &Entry<M>)
        requires table { seat.old.table_id ≡ N.table }
        requires place { (place < 8) × (0 < stands place seat.old.me.0) }
        requires count { (count ≡ length (at seat.old.me.0.known place)) × (count < most) }
        requires client { Serves entry.now.client seat.old.me.0 }
        ensures seat { (seat.new.table_id ≡ N.table) × (seat.new.me ≡ (extended place entry.now seat.old.me.0, seat.old.me.1)) }
        ensures is_new { IsNewCall place (length (at seat.old.me.0.known place)) seat.old.me.0 }
    {
        let word = 16 * place + 16;
        self.table
            .shared
            .compare_exchange_with::<Extend>(seat, word, count, count + 1, entry);
    }

    // An entry more at the place of one seat, made for the client of the other. Both then know what either knew, and the entry.
    pub(crate) fn call(
        &self,
        place: usize,
        count: u64,
        home: &mut Place<M>,
        guest: &mut Place<M>,
        entry: &Entry<M>,
    )
        requires tables { (home.old.table_id ≡ N.table) × (guest.old.table_id ≡ N.table) }
        requires home { (place < 8) × IsAtPlace place home.old.me.0 }
        requires guest { (calls : List (ℕ × ℕ)) × IsOfClient entry.now.client calls guest.old.me.0 }
        requires count { (count ≡ length (at home.old.me.0.known place)) × (count < most) }
        ensures tables { (home.new.table_id ≡ N.table) × (guest.new.table_id ≡ N.table) }
        ensures slots { (home.new.me.1 ≡ home.old.me.1) × (guest.new.me.1 ≡ guest.old.me.1) }
        ensures calls { Calls place entry.now home.old.me.0 guest.old.me.0 home.new.me.0 guest.new.me.0 }
    {
        let lent = self.part_client(guest);
        self.meet(home, lent);
        self.extend(home, place, count, entry);
        let returned = self.part_client(home);
        self.meet(guest, returned);
    }

    // The same, with the entry written into the history of the place, and the call into the client's own calls.
    pub(crate) fn enter(
        &self,
        place: usize,
        home: &mut Place<M>,
        history: &mut Vec<Entry<M>>,
        guest: &mut Place<M>,
        calls: &mut Vec<(usize, usize)>,
        entry: Entry<M>,
    )
        requires tables { (home.old.table_id ≡ N.table) × (guest.old.table_id ≡ N.table) }
        requires home { (place < 8) × IsAtPlace place home.old.me.0 }
        requires guest { (own : List (ℕ × ℕ)) × IsOfClient entry.client own guest.old.me.0 }
        requires whole { at home.old.me.0.known place ≡ history.old.items }
        requires few { length history.old.items < most }
        requires room { vec_len history.old < vec_capacity history.old }
        requires room_too { vec_len calls.old < vec_capacity calls.old }
        ensures tables { (home.new.table_id ≡ N.table) × (guest.new.table_id ≡ N.table) }
        ensures slots { (home.new.me.1 ≡ home.old.me.1) × (guest.new.me.1 ≡ guest.old.me.1) }
        ensures calls { Calls place entry home.old.me.0 guest.old.me.0 home.new.me.0 guest.new.me.0 }
        ensures history { history.new.items ≡ history.old.items ++ entry ∷ [] }
        ensures own { calls.new.items ≡ calls.old.items ++ (place, length history.old.items) ∷ [] }
    {
        let index = history.len();
        self.call(place, index as u64, home, guest, &entry);
        history.push_reserved(entry);
        calls.push_reserved((place, index));
    }

    // Closes the table with the seat that is left.
    pub(crate) fn close(self, seat: Place<M>)
        requires { seat.table_id ≡ N.table }
        ensures { Ends self seat.me.0 }
    {
        let CellTable { table, of: _ } = self;
        table.close_with(seat).free();
    }
}
