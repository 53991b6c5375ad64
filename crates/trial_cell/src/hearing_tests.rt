ghost use Rattle.std.specs.Prelude.{◌≡◌, length, IfOk};

use base_bytes::Text;
use data_value::Data;
use member_keeper::MemoryKeeper;
use member_node::KeyDecl;
use model_kinds::Kind;
use std::alloc::Global;
use std::test::*;
use trial_turns::hearing::turns;
use world_members::World;

/// Eight keepers in memory.
fn keepers(alloc: Global) -> Result<Vec<MemoryKeeper>, Fail>
    ensures { IfOk result (λ keepers. length keepers.items ≡ 8) }
{
    let mut keepers = Vec::new(alloc);
    for _place in 0..8_u32 {
        keepers.push(MemoryKeeper::new(alloc, Vec::new(alloc)))?;
    }
    Ok(keepers)
}

/// Two members with one counter.
fn two_members(alloc: Global, key: Text) -> Result<World<Data, MemoryKeeper>, Fail> {
    let mut keys = Vec::new(alloc);
    keys.push(KeyDecl {
        key,
        kind: Kind::GCounter,
        durable: false,
    })?;
    match World::start(alloc, 2, keys, keepers(alloc)?) {
        Ok(world) => Ok(world),
        Err(_) => Err("no world".into()),
    }
}

/// A hundred flushes are heard by one turn, and none by the next.
#[test]
fn a_turn_hears_what_was_flushed(rt: HostRuntime) -> Result<(), Fail> {
    let alloc = rt.alloc();
    let key = Text::new("n")?;
    let world = two_members(alloc, key.copied())?;
    assert_eq!(rt; turns(&rt, alloc, world, &key, 100), Some((100, 0)));
    Ok(())
}

/// So are three hundred.
#[test]
fn a_turn_hears_three_hundred_flushes(rt: HostRuntime) -> Result<(), Fail> {
    let alloc = rt.alloc();
    let key = Text::new("n")?;
    let world = two_members(alloc, key.copied())?;
    assert_eq!(rt; turns(&rt, alloc, world, &key, 300), Some((300, 0)));
    Ok(())
}
