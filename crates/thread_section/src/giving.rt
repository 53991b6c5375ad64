ghost use Rattle.std.specs.Prelude.{◌≡◌, ℕ, ◌≤◌, Some, map, is_some, slice_get, vec_len};
ghost use Rattle.std.specs.List.{All};
ghost use Rattle.thread_machine.specs.Machines.{machine_at};
ghost use Rattle.thread_cell.specs.Closings.{IsWhole};
ghost use Rattle.member_node.specs.Members.{AreDistinct};
ghost use Rattle.world_places.specs.Parts.{ArePlaced};
ghost use Rattle.world_places.specs.Places.{item_at, first_keeper};
ghost use Rattle.thread_section.specs.Worlds.{HasRun, HaveRun, AreGivenBack};

use data_lattice::SpelledData;
use member_keeper::Keeper;
use member_node::{KeyDecl, Message, Node};
use member_views::ViewList;
use model_kinds::Op;
use thread_cell::cell::Cell;
use thread_cell::name::Name;
use thread_cell::session::Session;
use thread_cell::spot::Spot;
use thread_cell::table::CellTable;
use thread_cell::unnamed::Cells;
use thread_machine::machine::Machine;
use thread_machine::machines::Machines;
use world_members::{EmptySeats, Links, Parts, World};

/// What is left of a world without its views and its members.
#[derive(Drop)]
pub(crate) struct Rest<T: SpelledData<Op = Op>, K: Keeper + Drop> {
    pub(crate) links: Links<Message<T>>,
    pub(crate) keys: Vec<KeyDecl<T>>,
    pub(crate) seats: EmptySeats<T, K>,
}

/// The machine of a cell, if there is one. It made the entries of some history.
fn machine_of<M: Machine, N: Name, P: Spot>(
    table: &CellTable<M, N>,
    cell: Option<Cell<M, N, P>>,
    session: &mut Session<M>,
) -> Option<M>
    requires table { session.old.seen.table ≡ N.table }
    requires began { session.old.seen.began ≡ Some table.now }
    requires given { is_some cell ≡ is_some (machine_at table.now.machines P.PLACE) }
    ensures same { session.new ≡ session.old }
    ensures has_run { HasRun M.Machine (machine_at table.now.machines P.PLACE) result }
{
    let Some(mut cell) = cell else {
        return None;
    };
    let note = session.note(table);
    cell.meet(table, note);
    cell.facts();
    Some(cell.into_machine())
}

/// The machines of all cells.
fn machines_of<M: Machine, N: Name>(cells: Cells<M, N>, session: Session<M>) -> Machines<M>
    requires table { session.seen.table ≡ N.table }
    requires began { session.seen.began ≡ Some cells.table }
    requires whole { IsWhole cells }
    ensures { HaveRun M.Machine cells.table.machines result }
{
    let Cells {
        table,
        p0,
        p1,
        p2,
        p3,
        p4,
        p5,
        p6,
        p7,
    } = cells;
    let mut session = session;
    Machines {
        p0: machine_of(&table, p0, &mut session),
        p1: machine_of(&table, p1, &mut session),
        p2: machine_of(&table, p2, &mut session),
        p3: machine_of(&table, p3, &mut session),
        p4: machine_of(&table, p4, &mut session),
        p5: machine_of(&table, p5, &mut session),
        p6: machine_of(&table, p6, &mut session),
        p7: machine_of(&table, p7, &mut session),
    }
}

/// The parts of a world.
pub(crate) fn parts_of<T: SpelledData<Op = Op>, K: Keeper + Drop>(
    views: ViewList,
    members: Machines<Node<T, K>>,
    rest: Rest<T, K>,
) -> Parts<T, K>
    ensures views { result.views ≡ views }
    ensures members { result.members ≡ members }
    ensures rest { (result.links ≡ rest.links) × (result.keys ≡ rest.keys) × (result.seats ≡ rest.seats) }
{
    let Rest { links, keys, seats } = rest;
    Parts {
        views,
        members,
        links,
        keys,
        seats,
    }
}

/// The keepers of all places, in their order.
pub(crate) fn keepers_of<T: SpelledData<Op = Op>, K: Keeper + Drop>(
    views: ViewList,
    members: Machines<Node<T, K>>,
    rest: Rest<T, K>,
) -> Vec<K>
    requires keys { AreDistinct (map (λ decl. decl.key) rest.keys.items) }
    requires placed { ArePlaced views members rest.seats.spare.items }
    ensures { (place : ℕ) → slice_get result.items place ≡ first_keeper (machine_at members place) (item_at rest.seats.spare.items place) }
{
    World::from_parts(parts_of(views, members, rest)).into_keepers()
}

/// The keepers of all places, in their order, where clients stopped. One of them has its session yet.
pub(crate) fn give_back<T: SpelledData<Op = Op>, K: Keeper + Drop, N: Name>(
    views: ViewList,
    cells: Cells<Node<T, K>, N>,
    sessions: Vec<Session<Node<T, K>>>,
    rest: Rest<T, K>,
) -> Vec<K>
    requires some { 1 ≤ vec_len sessions }
    requires tables { All (λ s. s.seen.table ≡ N.table) sessions.items }
    requires began { All (λ s. s.seen.began ≡ Some cells.table) sessions.items }
    requires whole { IsWhole cells }
    requires keys { AreDistinct (map (λ decl. decl.key) rest.keys.items) }
    requires placed { ArePlaced views cells.table.machines rest.seats.spare.items }
    ensures { AreGivenBack views cells.table.machines rest result.items }
{
    let mut sessions = sessions;
    match sessions.pop() {
        Some(session) => keepers_of(views, machines_of(cells, session), rest),
        None => unreachable!(),
    }
}
