//! Members that update, send, take, leave, install and prune at random.

use crate::company::Company;
use data_lattice::SpelledData;
use data_value::Data;
use model_kinds::{Kind, Op};
use std::alloc::Global;
use std::test::Fail;
use trial_parts::{Random, operation};

/// So many are played of each kind.
const HISTORIES: u64 = 4;

const MEMBERS: u8 = 4;

const STEPS: u64 = 200;

/// A member makes a step at random, or a message comes to one.
fn step<T: SpelledData<Kind = Kind, Op = Op>>(
    alloc: Global,
    company: &mut Company<T>,
    kind: Kind,
    random: &mut Random,
) -> Result<(), Fail> {
    let count = company.len() as u64;
    if count == 0 {
        return Err("no member".into());
    }
    let at = random.below(count) as usize;
    match random.below(32) {
        0..=3 => company.update(at, operation(kind, random)?),
        4 => company.flush(at),
        5..=6 => company.gossip(at, random.below(count) as usize),
        7..=12 => exchange(company, at, random.below(count) as usize),
        13..=17 => company.install(at, random),
        18..=21 => company.tick(0),
        22 if count > 2 => company.leave(at),
        _ => deliver(company, random),
    }
}

/// One of the messages on their way comes to its receiver, mostly one of the first, and sometimes not for the last time.
fn deliver<T: SpelledData<Kind = Kind, Op = Op>>(
    company: &mut Company<T>,
    random: &mut Random,
) -> Result<(), Fail> {
    let messages = company.on_their_way() as u64;
    if messages == 0 {
        return Ok(());
    }
    let early = random.below(messages) + 1;
    let which = random.below(early) as usize;
    company.deliver(which, random.below(8) == 0)
}

/// A member tells another its digests, and the last messages come at once: these, what is answered, and the answer to that.
fn exchange<T: SpelledData<Kind = Kind, Op = Op>>(
    company: &mut Company<T>,
    at: usize,
    to: usize,
) -> Result<(), Fail> {
    company.gossip(at, to)?;
    for _ in 0_u8..3 {
        if let Some(which) = company.on_their_way().checked_sub(1) {
            company.deliver(which, false)?;
        }
    }
    Ok(())
}

/// Each member knows what it has taken, and shows what that means.
fn check<T: SpelledData<Kind = Kind, Op = Op>>(company: &Company<T>) -> Result<(), Fail> {
    for at in 0..company.len() {
        if !company.shows_what_is_meant(at)? {
            return Err("another value is meant".into());
        }
    }
    Ok(())
}

/// Plays the steps of one history, and answers how many prunes were performed.
fn play<T: SpelledData<Kind = Kind, Op = Op>>(
    alloc: Global,
    kind: Kind,
    random: &mut Random,
) -> Result<u64, Fail> {
    let mut company: Company<T> = Company::new(alloc, kind, MEMBERS)?;
    for number in 0..STEPS {
        step(alloc, &mut company, kind, random)?;
        if number % 8 == 0 {
            check(&company)?;
        }
    }
    check(&company)?;
    Ok(company.prunes())
}

/// Plays all histories of a kind, of which one in two prunes at least, on the average.
fn play_all(alloc: Global, kind: Kind, random: &mut Random) -> Result<(), Fail> {
    let mut prunes: u64 = 0;
    for _ in 0..HISTORIES {
        prunes = prunes.saturating_add(play::<Data>(alloc, kind, random)?);
    }
    if prunes < HISTORIES / 2 {
        return Err("few prunes".into());
    }
    Ok(())
}

#[test]
fn members_show_what_is_meant(rt: HostRuntime) -> Result<(), Fail> {
    let kinds = [
        Kind::GCounter,
        Kind::PnCounter,
        Kind::GSet,
        Kind::OrSet,
        Kind::Flag,
        Kind::LwwRegister,
    ];
    let mut random = Random::new(3);
    for kind in kinds {
        play_all(rt.alloc(), kind, &mut random)?;
    }
    Ok(())
}
