ghost use Rattle.std.specs.Prelude.{◌≡◌, length, map, MatchResult};
ghost use Rattle.thread_cluster.specs.Opening.{AreWholeCells, AllHear};
ghost use Rattle.member_node.specs.Members.{AreDistinct};
ghost use Rattle.script_reading.specs.WellFormed.{AreClients};
ghost use Rattle.member_views.specs.Sound.{AreViews, last_view};
ghost use Rattle.world_places.specs.Parts.{ArePlaced};
ghost use Rattle.world_places.specs.Places.{identity_at};
ghost use Rattle.world_members.specs.Threads.{PlaysSection, GivesBack};
ghost use Rattle.thread_section.specs.Clients.{HaveDone};
ghost use Rattle.thread_section.specs.Worlds.{IsPlayed};

use crate::giving::{Rest, give_back, keepers_of, parts_of};
use crate::lines::{Lines, joined, parted};
use crate::places::identities;
use data_lattice::SpelledData;
use member_keeper::Keeper;
use member_node::Node;
use member_views::ViewList;
use model_kinds::Op;
use script_reading::Client;
use std::alloc::Global;
use std::marker::Brand;
use std::sync::Wait;
use std::thread::Threads;
use thread_cell::closing::{Closed, close};
use thread_cell::session::Session;
use thread_cell::unnamed::{Cells, Unnamed};
use thread_clients::{Gate, run_clients};
use thread_cluster::Cluster;
use thread_cluster::member::Member;
use thread_cluster::section::Section as Place;
use thread_machine::machine::Machine;
use thread_run_order::finish;
use world_members::{Parts, Section, World};

/// The world after clients that made all of their commands, and their lines.
///
/// # Errors
///
/// Memory was refused. The keepers of all places come back, in their order.
fn ended<T: SpelledData<Op = Op>, K: Keeper + Drop, N: Place>(
    alloc: Global,
    views: ViewList,
    cells: Cells<Node<T, K>, N>,
    clients: &[Client],
    sessions: Vec<Session<Node<T, K>>>,
    lines: Vec<Lines>,
    rest: Rest<T, K>,
) -> Result<Section<T, K>, Vec<K>>
    requires sound { AreViews views }
    requires ids { N.ids ≡ identity_at (last_view views) }
    requires whole { AreWholeCells N.ids cells }
    requires hear { AllHear ⟦<Node<T, K> as Member>⟧.posted ⟦<Node<T, K> as Member>⟧.taken N.ids cells }
    requires clients { AreClients clients.now }
    requires count { cells.table.clients ≡ length clients.now }
    requires done { HaveDone ⟦<Node<T, K> as Machine>⟧ N.ids views N.table cells.table 0 clients.now sessions.items lines.items }
    requires keys { AreDistinct (map (λ decl. decl.key) rest.keys.items) }
    requires placed { ArePlaced views cells.table.machines rest.seats.spare.items }
    ensures { IsPlayed T.SpelledData.own clients.now views cells.table.machines rest result }
{
    let lines = match joined(alloc, lines) {
        Ok(lines) => lines,
        Err(_) => return Err(give_back(views, cells, sessions, rest)),
    };
    match close(alloc, cells, sessions) {
        Ok(closed) => {
            let Closed {
                machines,
                histories,
                calls: _,
            } = closed;
            match finish(parts_of(views, machines, rest), histories) {
                Ok(world) => Ok(Section { world, lines }),
                Err(keepers) => Err(keepers),
            }
        }
        Err((cells, sessions, _)) => Err(give_back(views, cells, sessions, rest)),
    }
}

/// Clients beside each other at the members of a table, under a name.
///
/// # Errors
///
/// Memory was refused. The keepers of all places come back, in their order.
fn play_named<
    T: SpelledData<Op = Op> + Send,
    K: Keeper + Drop + Send,
    N: Place + Send + Sync,
    R: Threads + Wait + Sync,
    G: Gate + Sync,
>(
    rt: &R,
    alloc: Global,
    gate: &G,
    unnamed: Unnamed<Node<T, K>>,
    views: ViewList,
    rest: Rest<T, K>,
    clients: &[Client],
) -> Result<Section<T, K>, Vec<K>>
where
    T::Kind: Send,
    T::Delta: Send,
    requires table { unnamed.table ≡ N.table }
    requires ids { N.ids ≡ identity_at (last_view views) }
    requires clients { AreClients clients.now }
    requires count { unnamed.opening.clients ≡ length clients.now }
    requires keys { AreDistinct (map (λ decl. decl.key) rest.keys.items) }
    requires placed { ArePlaced views unnamed.opening.machines rest.seats.spare.items }
    ensures { IsPlayed T.SpelledData.own clients.now views unnamed.opening.machines rest result }
{
    let ids = identities(views.last());
    let (cells, sessions) = unnamed.named::<N>();
    let mut room = Vec::new(alloc);
    let mut lines = Vec::new(alloc);
    let count = sessions.len();
    if room.reserve(count).is_err() || lines.reserve(count).is_err() {
        return Err(give_back(views, cells, sessions, rest));
    }
    let cluster = Cluster::new(alloc, views, cells, ids);
    match run_clients(rt, alloc, gate, &cluster, clients, sessions) {
        Ok(played) => {
            let (views, cells) = cluster.into_cells();
            let (sessions, lines) = parted(played, room, lines);
            ended(alloc, views, cells, clients, sessions, lines, rest)
        }
        Err((sessions, _)) => {
            let (views, cells) = cluster.into_cells();
            Err(give_back(views, cells, sessions, rest))
        }
    }
}

/// The same at a table that has no name yet.
///
/// # Errors
///
/// Memory was refused. The keepers of all places come back, in their order.
fn play_unnamed<
    T: SpelledData<Op = Op> + Send,
    K: Keeper + Drop + Send,
    R: Threads + Wait + Sync,
    G: Gate + Sync,
>(
    rt: &R,
    alloc: Global,
    gate: &G,
    unnamed: Unnamed<Node<T, K>>,
    views: ViewList,
    rest: Rest<T, K>,
    clients: &[Client],
) -> Result<Section<T, K>, Vec<K>>
where
    T::Kind: Send,
    T::Delta: Send,
    requires clients { AreClients clients.now }
    requires count { unnamed.opening.clients ≡ length clients.now }
    requires keys { AreDistinct (map (λ decl. decl.key) rest.keys.items) }
    requires placed { ArePlaced views unnamed.opening.machines rest.seats.spare.items }
    ensures { IsPlayed T.SpelledData.own clients.now views unnamed.opening.machines rest result }
{
    play_named::<T, K, Brand, R, G>(rt, alloc, gate, unnamed, views, rest, clients)
}

/// Lets clients work at once at the members of a world, in a thread each as far as threads can be had, until each has made
/// all its commands. Answers the world after them, and their lines: those of the first client, then those of the next.
///
/// # Errors
///
/// Memory was refused. The keepers of all places come back, in their order.
pub fn play_section<
    T: SpelledData<Op = Op> + Send,
    K: Keeper + Drop + Send,
    R: Threads + Wait + Sync,
    G: Gate + Sync,
>(
    rt: &R,
    alloc: Global,
    gate: &G,
    world: World<T, K>,
    clients: &[Client],
) -> Result<Section<T, K>, Vec<K>>
where
    T::Kind: Send,
    T::Delta: Send,
    requires { AreClients clients.now }
    ensures { MatchResult result (λ section. PlaysSection T.SpelledData.own clients.now world section.world section.lines) (λ keepers. GivesBack world keepers.items) }
{
    let Parts {
        views,
        members,
        links,
        keys,
        seats,
    } = world.into_parts();
    let rest = Rest { links, keys, seats };
    match Unnamed::new(alloc, members, clients.len() as u32) {
        Ok(unnamed) => play_unnamed(rt, alloc, gate, unnamed, views, rest, clients),
        Err((members, _)) => Err(keepers_of(views, members, rest)),
    }
}
