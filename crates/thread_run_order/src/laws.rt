ghost use Rattle.std.specs.Prelude.{◌≡◌, ℕ, List};
ghost use Rattle.thread_machine.specs.declared.entry.Entry.{Entry};
ghost use Rattle.std.specs.List.{AllByRecursion};
ghost use Rattle.thread_machine.specs.Machines.{machine_at};
ghost use Rattle.thread_cell.specs.Closings.{AreReplayed, CellsKnew};
ghost use Rattle.thread_cell.specs.Entries.{history_at};
ghost use Rattle.thread_cluster.specs.Opening.{AreWholeCells, AllHear};
ghost use Rattle.member_views.specs.Sound.{last_view};
ghost use Rattle.world_places.specs.Places.{item_at, identity_at};
ghost use Rattle.thread_run_order.specs.Orders.{HaveRunOrder};
ghost use Rattle.thread_run_order.specs.Section.{IsGiven, IsSection};
ghost use Rattle.thread_run_order.specs.Runs.{SectionsAreOneRun};
ghost use Rattle.thread_run_order.specs.Seeing.{CallsFollowAllSeen};

use data_lattice::SpelledData;
use member_keeper::Keeper;
use member_node::Node;
use model_kinds::Op;
use thread_cell::closing::Closed;
use thread_cell::unnamed::Cells;
use thread_cluster::member::Member;
use thread_cluster::section::Section;
use thread_machine::machine::Machine;
use world_members::World;

/// Histories whose stamps rise have a run order, where no place but the first ones has entries.
pub fn histories_have_a_run_order<M, I, F, O, R>()
    ensures { (histories : ℕ → List (Entry M I F O R)) (n : ℕ) → HaveRunOrder histories n }
{}

/// A call of a session stands after all that the session had seen: the entry of an answered call stands in run order, and of
/// each entry at or after it, whatever the session knew before the call stands earlier.
///
/// The session's stamp is what `Session::facts` tells of every session. What a session knows are beginnings of the histories
/// that `close` leaves, since it is what the session that `close` takes knows, or less.
pub fn calls_follow_what_was_seen<M: Machine>()
    ensures { CallsFollowAllSeen M.Machine }
{}

/// What closed cells leave is a section of the world whose members they began with, where each message is taken of a member
/// and each installed view is one of the list.
pub fn closed_cells_leave_a_section<T: SpelledData<Op = Op>, K: Keeper + Drop, N: Section>(
    world: &World<T, K>,
    cells: &Cells<Node<T, K>, N>,
    closed: &Closed<Node<T, K>>,
)
    requires starts { (place : ℕ) → machine_at cells.now.table.machines place ≡ item_at world.now.nodes.items place }
    requires identities { (place : ℕ) → N.ids place ≡ identity_at (last_view world.now.views) place }
    requires replayed { AreReplayed ⟦<Node<T, K> as Machine>⟧ cells.now.table.machines closed.now.machines closed.now.histories }
    requires knew { CellsKnew cells.now closed.now.histories }
    requires whole { AreWholeCells N.ids cells.now }
    requires hear { AllHear ⟦<Node<T, K> as Member>⟧.posted ⟦<Node<T, K> as Member>⟧.taken N.ids cells.now }
    requires given { (place : ℕ) → AllByRecursion (λ e. IsGiven (last_view world.now.views) world.now.views e.input) (history_at closed.now.histories place) }
    ensures { IsSection ⟦<Node<T, K> as Machine>⟧ world.now (history_at closed.now.histories) (machine_at closed.now.machines) }
{
    let _ = world.views().last();
}

/// What members did under their locks in a section of client threads, put together again, is one run of the model: the
/// entries of all places in run order have model entries, one for one, which are histories in run order from the world that
/// the section began with. A world with the members that the histories lead to, and with their posts on its links, means where
/// the script is after them. And whatever replays a beginning of a member's history stands for the model's member after as many
/// entries: so a client that looked at a member saw the model's, too.
pub fn a_section_is_one_run<T: SpelledData<Op = Op>, K: Keeper + Drop>(world: &World<T, K>)
    ensures { SectionsAreOneRun T.SpelledData.own ⟦<Node<T, K> as Machine>⟧ world.now }
{
    let _ = world.views().last();
}
