ghost use Rattle.std.specs.Prelude.{◌≡◌};

use crate::opening::Opening;
use crate::view::View;
use atomic_table::{Join, Play, Seat, Split, TableRule};
use thread_machine::entry::Entry;
use thread_machine::machine::Machine;

/// The one rule over the table.
pub struct OneOrder;

/// What a seat knows of machines and their entries.
pub type Known<M> = View<Entry<M>, Opening<M>>;

/// A seat at the table.
pub type Place<M> = Seat<Entry<M>, Known<M>>;

impl<M: Machine> TableRule<Entry<M>, View<Entry<M>, Opening<M>>, Opening<M>> for OneOrder {
    ghost use Rattle.thread_cell.specs.Rule.{IsKept};
    ghost use Rattle.thread_cell.specs.Views.{beginner};
    ghost use Rattle.thread_cell.specs.Entries.{client_of, places_of, clients_of};

    ghost holds = { λ key. IsKept client_of (places_of key) (clients_of key) key };

    ghost first = { λ key. beginner (places_of key) (clients_of key) key };
}

/// A look, at which nothing grows.
pub struct Look;

impl<E, K> Play<E, View<E, K>> for Look {
    ghost use Rattle.thread_cell.specs.Rule.{looks};

    ghost then = { looks };
}

/// An entry more at a place.
pub struct Extend;

impl<E, K> Play<E, View<E, K>> for Extend {
    ghost use Rattle.thread_cell.specs.Rule.{extends};

    ghost then = { extends };
}

/// A new seat.
pub struct Arrive;

impl<E, K> Play<E, View<E, K>> for Arrive {
    ghost use Rattle.thread_cell.specs.Rule.{arrives};

    ghost then = { arrives };
}

/// A copy that stands for nothing.
pub struct Copied;

impl<E, K> Split<View<E, K>> for Copied {
    ghost use Rattle.thread_cell.specs.Views.{noted};

    ghost left = { λ v. v };

    ghost right = { noted };
}

/// The first place goes to another seat.
pub struct FirstPlace;

impl<E, K> Split<View<E, K>> for FirstPlace {
    ghost use Rattle.thread_cell.specs.Views.{place_left, place_given};

    ghost left = { place_left };

    ghost right = { place_given };
}

/// The first client goes to another seat.
pub struct FirstClient;

impl<E, K> Split<View<E, K>> for FirstClient {
    ghost use Rattle.thread_cell.specs.Views.{client_left, client_given};

    ghost left = { client_left };

    ghost right = { client_given };
}

/// Two seats meet.
pub struct Meet;

impl<E, K> Join<View<E, K>> for Meet {
    ghost use Rattle.thread_cell.specs.Views.{met, nobody};

    ghost both = { met };

    ghost spent = { nobody };
}
