ghost use Rattle.std.specs.Prelude.{◌≡◌, ◌≤◌, [], vec_capacity};
ghost use Rattle.std.specs.List.{All};
ghost use Rattle.thread_cell.specs.Beginnings.{Opens, places_left, clients_left, begun_sessions};

use crate::name::Name;
use crate::rule::Place;
use crate::session::Session;
use crate::table::CellTable;
use std::alloc::Global;
use thread_machine::machine::Machine;

// A session for each client, with the right to stand for the client.
pub(crate) fn sessions_of<M: Machine, N: Name>(
    alloc: Global,
    table: &CellTable<M, N>,
    seat: &mut Place<M>,
    clients: u32,
    mut sessions: Vec<Session<M>>,
) -> Vec<Session<M>>
    requires table { seat.old.table_id ≡ N.table }
    requires seat { Opens table.now (places_left table.now 0) (clients_left clients 0) seat.old.me }
    requires empty { sessions.items ≡ [] }
    requires room { clients ≤ vec_capacity sessions }
    ensures sessions { result.items ≡ begun_sessions N.table table.now clients }
    ensures tables { All (λ s. s.seen.table ≡ N.table) result.items }
    ensures table { seat.new.table_id ≡ N.table }
    ensures seat { Opens table.now (places_left table.now 0) [] seat.new.me }
{
    for number in 0..clients {
        let seat = table.part_client(seat);
        sessions.push_reserved(Session {
            number,
            calls: Vec::new(alloc),
            stamp: 0,
            seat,
        });
    }
    sessions
}
