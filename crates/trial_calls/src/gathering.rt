//! A keeper that gathers stores, over the keeper in memory.

use crate::keepers::{Call, check_answers, check_entries, check_load, entries};
use crate::same::same;
use base_bytes::Items;
use member_keeper::{KeeperError, MemoryKeeper};
use member_write_behind::{Answered, StoreCall, WriteBehind};
use std::test::Fail;

#[test]
fn stores_wait_and_are_handed_on_together(rt: HostRuntime) -> Result<(), Fail> {
    let alloc = rt.alloc();
    let inner = MemoryKeeper::new(alloc, Vec::new(alloc));
    let mut keeper = WriteBehind::new(alloc, inner, 3);
    let rows = [
        (Call::Store(&[("a", 1)]), Ok(())),
        (Call::Store(&[("a", 2)]), Ok(())),
        (Call::Store(&[("b", 3)]), Ok(())),
        (Call::Store(&[("a", 4)]), Ok(())),
    ];
    check_answers(alloc, &mut keeper, &rows)?;
    check_load(&mut keeper, &[("a", 4), ("b", 3)])?;
    check_entries(keeper.stop().entries(), &[("a", 2), ("b", 3)])
}

#[test]
fn a_refused_store_is_dropped_and_older_ones_wait_on(rt: HostRuntime) -> Result<(), Fail> {
    let alloc = rt.alloc();
    let inner = MemoryKeeper::new(alloc, Vec::from_slice(alloc, &[0])?);
    let mut keeper = WriteBehind::new(alloc, inner, 3);
    let rows = [
        (Call::Store(&[("a", 1)]), Ok(())),
        (Call::Store(&[("a", 2)]), Ok(())),
        (Call::Store(&[("b", 3)]), Err(KeeperError::Failed)),
    ];
    check_answers(alloc, &mut keeper, &rows)?;
    check_load(&mut keeper, &[("a", 2)])?;
    check_answers(alloc, &mut keeper, &[(Call::Store(&[("a", 4)]), Ok(()))])?;
    check_entries(keeper.stop().entries(), &[("a", 4)])
}

#[test]
fn calls_are_answered_in_their_order(rt: HostRuntime) -> Result<(), Fail> {
    let alloc = rt.alloc();
    let inner = MemoryKeeper::new(alloc, Vec::from_slice(alloc, &[1])?);
    let mut keeper = WriteBehind::new(alloc, inner, 2);
    let calls = [
        StoreCall::Store(Items::from_vec(entries(alloc, &[("a", 1)])?)),
        StoreCall::Flush,
        StoreCall::Clear,
        StoreCall::Store(Items::from_vec(entries(alloc, &[("a", 2), ("b", 3)])?)),
    ];
    let answers = keeper.run_stores(&calls)?;
    let wanted = [Answered::Ok, Answered::Ok, Answered::Failed, Answered::Ok];
    same(&answers.as_slice(), &wanted.as_slice(), "what was answered")?;
    check_entries(keeper.stop().entries(), &[("a", 1)])
}
