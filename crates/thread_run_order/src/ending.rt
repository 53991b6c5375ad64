ghost use Rattle.std.specs.Prelude.{◌≡◌, ℕ, map, IfOk, IfErr, OnOk, option_map};
ghost use Rattle.std.specs.List.{AllByRecursion};
ghost use Rattle.thread_machine.specs.Machines.{machine_at};
ghost use Rattle.thread_cell.specs.Entries.{history_at};
ghost use Rattle.model_kinds.specs.declared.operation.Op as operation;
ghost use Rattle.member_views.specs.Sound.{last_view};
ghost use Rattle.member_node.specs.Members.{AreDistinct};
ghost use Rattle.world_members.specs.declared.world.World as worlds;
ghost use Rattle.world_places.specs.Parts.{ArePlaced};
ghost use Rattle.world_places.specs.Places.{keepers_of};
ghost use Rattle.thread_run_order.specs.Section.{IsGiven, IsLeft};
ghost use Rattle.thread_run_order.specs.Finishing.{AreBrought, IsLeftOf, members_in};

use crate::passing::pass_all;
use crate::posting::post_members;
use base_bytes::Memory;
use data_lattice::SpelledData;
use member_keeper::Keeper;
use member_node::{Message, Node};
use member_views::View;
use model_kinds::Op;
use thread_cell::histories::Histories;
use thread_machine::machines::Machines;
use world_members::{Links, Parts, World};

/// Passes what the members of a view took of each other, and puts what they posted at the ends of their links.
fn bring<T: SpelledData<Op = Op>, K: Keeper + Drop>(
    links: &mut Links<Message<T>>,
    view: &View,
    members: &Machines<Node<T, K>>,
    histories: Histories<Node<T, K>>,
) -> Result<(), Memory>
    ensures { OnOk result (AreBrought view.now (λ place. option_map (λ node. node.id) (machine_at members.now place)) (history_at histories) links.old links.new) }
{
    pass_all(links, view, &histories)?;
    post_members(links, members, histories)
}

/// The world after a section: its members stand at their places, what they posted stands at the ends of their links, and
/// what they took is passed where no message was pending before.
///
/// # Errors
///
/// Memory was refused. The keepers come back, in the order of their places.
pub fn finish<T: SpelledData<Op = Op>, K: Keeper + Drop>(
    parts: Parts<T, K>,
    histories: Histories<Node<T, K>>,
) -> Result<World<T, K>, Vec<K>>
    requires distinct { AreDistinct (map (λ decl. decl.key) parts.keys.items) }
    requires placed { ArePlaced parts.views parts.members parts.seats.spare.items }
    requires given { (place : ℕ) → AllByRecursion (λ e. IsGiven (last_view parts.views) parts.views e.input) (history_at histories place) }
    ensures ok { IfOk result (IsLeftOf parts (history_at histories)) }
    ensures err { IfErr result (λ keepers. keepers.items ≡ keepers_of (members_in parts.members) parts.seats.spare.items) }
{
    let Parts {
        views,
        members,
        links,
        keys,
        seats,
    } = parts;
    let mut links = links;
    let outcome = bring(&mut links, views.last(), &members, histories);
    let world = World::from_parts(Parts {
        views,
        members,
        links,
        keys,
        seats,
    });
    match outcome {
        Ok(()) => Ok(world),
        Err(_) => Err(world.into_keepers()),
    }
}
