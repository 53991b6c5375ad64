use crate::rule::Place;
use std::marker::Model;
use thread_machine::machine::Machine;

/// A copy of what a cell or a session has seen, with its clock. It stands for no place and no client.
#[derive(Drop)]
pub struct Note<M: Machine> {
    pub(crate) seat: Place<M>,
    pub(crate) stamp: u64,
}

impl<M: Machine> Model for Note<M> {
    ghost use Rattle.thread_cell.specs.Values.{Sights, seen_by, IsNote};

    ghost Value = { Sights M M.Input M.Fate M.Output M.Refusal };

    ghost view = { λ n. seen_by n.seat.table_id n.seat.me.0 n.stamp };

    ghost invariant = { λ n. IsNote n.stamp n.seat.me };
}
