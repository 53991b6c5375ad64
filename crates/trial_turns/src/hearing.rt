ghost use Rattle.std.specs.Prelude.{◌≡◌};
ghost use Rattle.member_views.specs.Sound.{last_view};
ghost use Rattle.world_places.specs.Parts.{ArePlaced};
ghost use Rattle.world_places.specs.Places.{identity_at};

use base_bytes::Text;
use base_vectors::Id;
use data_lattice::SpelledData;
use member_keeper::Keeper;
use member_node::{Input, Node};
use member_quorum::Level;
use member_views::ViewList;
use model_kinds::Op;
use std::alloc::Global;
use std::marker::Brand;
use std::sync::Wait;
use std::sync::ledger::{Blank, Ledger};
use thread_cell::reading::Steps;
use thread_cell::session::Session;
use thread_cell::unnamed::Unnamed;
use thread_cluster::Cluster;
use thread_cluster::section::Section;
use thread_section::places::identities;
use world_members::{EmptySeats, Parts, World};

/// A member counts one more and flushes it. Whether it made both steps.
fn counted_and_flushed<T: SpelledData<Op = Op>, K: Keeper + Drop, N: Section>(
    rt: &impl Wait,
    cluster: &Cluster<Node<T, K>, N>,
    session: &mut Session<Node<T, K>>,
    at: Id,
    key: &Text,
) -> bool
    requires { session.old.seen.table ≡ N.table }
    ensures { session.new.seen.table ≡ N.table }
{
    let update = Input::Update {
        key: key.copied(),
        op: Op::Increment(1),
        level: Level::Local,
    };
    if cluster.ask(rt, session, at, update).is_err() {
        return false;
    }
    cluster.ask(rt, session, at, Input::Flush).is_ok()
}

/// The same so many times.
fn all_flushed<T: SpelledData<Op = Op>, K: Keeper + Drop, N: Section>(
    rt: &impl Wait,
    cluster: &Cluster<Node<T, K>, N>,
    session: &mut Session<Node<T, K>>,
    at: Id,
    key: &Text,
    times: u32,
) -> bool
    requires { session.old.seen.table ≡ N.table }
    ensures { session.new.seen.table ≡ N.table }
{
    let mut all = true;
    for _time in 0..times {
        all = counted_and_flushed(rt, cluster, session, at, key) && all;
    }
    all
}

/// What two turns take, one after the other.
fn two_turns<T: SpelledData<Op = Op>, K: Keeper + Drop, N: Section, L: Ledger>(
    rt: &impl Wait,
    cluster: &Cluster<Node<T, K>, N>,
    session: &mut Session<Node<T, K>>,
    blank: Blank,
) -> Option<(u32, u32)>
    requires table { session.old.seen.table ≡ N.table }
    requires name { blank.name ≡ L.name }
    requires parts { blank.parts ≡ L.parts }
    requires one { blank.parts ≡ 1 }
{
    let mut steps = Steps::<L>::new(blank);
    let first = cluster.turn_counted(rt, session, &mut steps).ok()?;
    let second = cluster.turn_counted(rt, session, &mut steps).ok()?;
    Some((first, second))
}

/// The same, with a ledger of its own, after so many flushes of a member.
fn turns_after<T: SpelledData<Op = Op>, K: Keeper + Drop, N: Section>(
    rt: &impl Wait,
    cluster: &Cluster<Node<T, K>, N>,
    session: &mut Session<Node<T, K>>,
    at: Id,
    key: &Text,
    times: u32,
) -> Option<(u32, u32)>
    requires { session.old.seen.table ≡ N.table }
{
    if !all_flushed(rt, cluster, session, at, key, times) {
        return None;
    }
    two_turns::<T, K, N, Brand>(rt, cluster, session, Blank::new(1))
}

/// The same at a table under a name.
fn turns_named<T: SpelledData<Op = Op>, K: Keeper + Drop, N: Section>(
    rt: &impl Wait,
    alloc: Global,
    unnamed: Unnamed<Node<T, K>>,
    views: ViewList,
    seats: &EmptySeats<T, K>,
    key: &Text,
    times: u32,
) -> Option<(u32, u32)>
    requires table { unnamed.table ≡ N.table }
    requires ids { N.ids ≡ identity_at (last_view views) }
    requires placed { ArePlaced views unnamed.opening.machines seats.now.spare.items }
{
    let _seats = seats;
    let ids = identities(views.last());
    let at = views.last().leader();
    let (cells, mut sessions) = unnamed.named::<N>();
    let cluster = Cluster::new(alloc, views, cells, ids);
    match sessions.pop() {
        Some(session) => {
            let mut session = session;
            turns_after(rt, &cluster, &mut session, at, key, times)
        }
        None => None,
    }
}

/// What two turns take, one after the other, at the members of a world of which the leader counts and flushes so many times.
pub fn turns<T: SpelledData<Op = Op>, K: Keeper + Drop, R: Wait>(
    rt: &R,
    alloc: Global,
    world: World<T, K>,
    key: &Text,
    times: u32,
) -> Option<(u32, u32)> {
    let Parts {
        views,
        members,
        links: _,
        keys: _,
        seats,
    } = world.into_parts();
    match Unnamed::new(alloc, members, 1) {
        Ok(unnamed) => { turns_named::<T, K, Brand>(rt, alloc, unnamed, views, &seats, key, times) }
        Err(_) => None,
    }
}
