use crate::cluster::Cluster;
use data_lattice::Replica;
use data_value::Data;
use model_kinds::{Kind, Op};
use std::alloc::Global;
use std::test::Fail;
use trial_parts::{Random, operation};

const HISTORIES: u64 = 60;

const MEMBERS: u8 = 4;

const STEPS: u32 = 40;

/// A member makes an update at random.
fn update<T: Replica<Kind = Kind, Op = Op>>(
    alloc: Global,
    cluster: &mut Cluster<T>,
    kind: Kind,
    random: &mut Random,
    at: usize,
) -> Result<(), Fail> {
    let op = operation(kind, random)?;
    cluster.update(at, op)
}

/// A member shows what is meant.
fn check<T: Replica<Kind = Kind, Op = Op>>(cluster: &Cluster<T>, at: usize) -> Result<(), Fail> {
    if cluster.shows_what_is_meant(at)? {
        Ok(())
    } else {
        Err("another value is meant".into())
    }
}

/// An update, a merge, a group, or a prune where more than two members are left.
fn act<T: Replica<Kind = Kind, Op = Op>>(
    alloc: Global,
    cluster: &mut Cluster<T>,
    kind: Kind,
    random: &mut Random,
    view: u32,
    at: usize,
    other: usize,
) -> Result<(), Fail> {
    match random.below(16) {
        0..=5 => update(alloc, cluster, kind, random, at),
        6..=8 => cluster.merge(at, other),
        9..=14 => cluster.take_group(at, other, random),
        _ if cluster.len() > 2 && other < cluster.len().saturating_sub(1) => cluster.prune(
            at, other, view,
        ),
        _ => Ok(()),
    }
}

/// One step at random, after which a member shows what is meant.
fn step<T: Replica<Kind = Kind, Op = Op>>(
    alloc: Global,
    cluster: &mut Cluster<T>,
    kind: Kind,
    random: &mut Random,
    view: u32,
) -> Result<(), Fail> {
    let count = cluster.len() as u64;
    if count == 0 {
        return Err("no member".into());
    }
    let at = random.below(count) as usize;
    let other = random.below(count) as usize;
    act(alloc, cluster, kind, random, view, at, other)?;
    check(cluster, at.min(cluster.len().saturating_sub(1)))
}

/// Plays the steps of one history. In the end all members show what is meant.
fn play_steps<T: Replica<Kind = Kind, Op = Op>>(
    alloc: Global,
    cluster: &mut Cluster<T>,
    kind: Kind,
    random: &mut Random,
) -> Result<(), Fail> {
    for view in 1..=STEPS {
        step(alloc, cluster, kind, random, view)?;
    }
    for at in 0..cluster.len() {
        check(cluster, at)?;
    }
    Ok(())
}

/// Plays one history, and answers how many groups were taken and how many identities were pruned.
fn play<T: Replica<Kind = Kind, Op = Op>>(
    alloc: Global,
    kind: Kind,
    seed: u64,
) -> Result<(u64, u64), Fail> {
    let mut cluster: Cluster<T> = Cluster::new(alloc, kind, MEMBERS)?;
    play_steps(alloc, &mut cluster, kind, &mut Random::new(seed))?;
    Ok((cluster.groups(), cluster.prunes()))
}

/// Plays all histories of a kind. Each shows what is meant; one in two prunes at least, and on the average each takes two groups
/// or more.
fn play_all(alloc: Global, kind: Kind) -> Result<(), Fail> {
    let mut groups: u64 = 0;
    let mut prunes: u64 = 0;
    for seed in 1..=HISTORIES {
        let (taken, pruned) = play::<Data>(alloc, kind, seed)?;
        groups = groups.saturating_add(taken);
        prunes = prunes.saturating_add(pruned);
    }
    if prunes < HISTORIES / 2 || groups < 2 * HISTORIES {
        return Err("few groups or prunes".into());
    }
    Ok(())
}

#[test]
fn growing_counters_show_what_is_meant(rt: HostRuntime) -> Result<(), Fail> {
    play_all(rt.alloc(), Kind::GCounter)
}

#[test]
fn counters_that_move_both_ways_show_what_is_meant(rt: HostRuntime) -> Result<(), Fail> {
    play_all(rt.alloc(), Kind::PnCounter)
}

#[test]
fn growing_sets_show_what_is_meant(rt: HostRuntime) -> Result<(), Fail> {
    play_all(rt.alloc(), Kind::GSet)
}

#[test]
fn sets_with_removes_show_what_is_meant(rt: HostRuntime) -> Result<(), Fail> {
    play_all(rt.alloc(), Kind::OrSet)
}

#[test]
fn flags_show_what_is_meant(rt: HostRuntime) -> Result<(), Fail> {
    play_all(rt.alloc(), Kind::Flag)
}

#[test]
fn registers_show_what_is_meant(rt: HostRuntime) -> Result<(), Fail> {
    play_all(rt.alloc(), Kind::LwwRegister)
}
