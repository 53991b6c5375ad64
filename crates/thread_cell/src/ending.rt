ghost use Rattle.std.specs.Prelude.{◌≡◌, ◌≤◌, [], Some, map, vec_len, vec_capacity};
ghost use Rattle.std.specs.List.{All};
ghost use Rattle.thread_cell.specs.Calls.{own_calls};
ghost use Rattle.thread_cell.specs.Values.{client_calls};
ghost use Rattle.thread_cell.specs.Closings.{Served};

use crate::calls::OwnCalls;
use crate::name::Name;
use crate::rule::Place;
use crate::session::Session;
use crate::table::CellTable;
use thread_machine::machine::Machine;

// The seat takes over the clients of all sessions. Gives their calls, in the order of the sessions.
pub(crate) fn take_sessions<M: Machine, N: Name>(
    table: &CellTable<M, N>,
    base: &mut Place<M>,
    mut sessions: Vec<Session<M>>,
    mut calls: Vec<OwnCalls>,
) -> Vec<OwnCalls>
    requires table { base.old.table_id ≡ N.table }
    requires tables { All (λ s. s.seen.table ≡ N.table) sessions.items }
    requires began { base.old.me.0.began ≡ Some table.now }
    requires served { Served [] base.old.me.0 }
    requires empty { calls.items ≡ [] }
    requires room { vec_len sessions ≤ vec_capacity calls }
    ensures table { base.new.table_id ≡ N.table }
    ensures began { base.new.me.0.began ≡ Some table.now }
    ensures served { Served sessions.items base.new.me.0 }
    ensures calls { map own_calls result.items ≡ map client_calls sessions.items }
{
    while let Some(session) = sessions.pop() {
        calls.push_reserved(session.into_calls(table, base));
    }
    calls.reverse();
    calls
}
