//! A member waits under its lock until another client's call at another member has come back; and a gate that is told of
//! each call.

use crate::flag::{Flag, Meeting, holding_keepers};
use data_value::Data;
use report_lines::{Ending, report_with_clients};
use script_reading::{Clients, read_script};
use std::process::Abort;
use std::sync::atomic::{AtomicU64, Ordering};
use std::test::*;
use thread_clients::Gate;

/// Lets client 1 call once the keeper has begun to store, and tells the keeper when its call came back.
#[derive(Drop)]
struct HoldingGate {
    begun: Flag,
    came_back: Flag,
}

impl Gate for HoldingGate {
    fn before(&self, client: u32, _call: u32) {
        if client == 1 {
            let _begun = self.begun.wait();
        }
    }

    fn after(&self, client: u32, _call: u32) {
        if client == 1 {
            self.came_back.set();
        }
    }
}

const SCRIPT: &str =
    r#"{"members":2,"keys":[{"key":"d","kind":"gcounter","durable":true}],"steps":[{"do":"threads","clients":[
[{"do":"update","at":0,"key":"d","op":"increment","by":1}],[{"do":"get","at":1,"key":"d"}]]}]}"#;

const REPORT: &str =
    "1 client 0 update 0 d done\n1 client 1 get 1 d not found\nfinal view 0\nmember 0 place 0 view 0\n\
d 1 known 0:1 marks -\nmember 1 place 1 view 0\nd - known - marks -\n";

#[test]
fn a_member_waits_for_another_client(rt: HostRuntime) -> Result<(), Fail> {
    let alloc = rt.alloc();
    let gate = HoldingGate {
        begun: Flag::new(alloc)?,
        came_back: Flag::new(alloc)?,
    };
    let held = Meeting {
        begun: gate.begun.again()?,
        awaited: gate.came_back.again()?,
    };
    let keepers = holding_keepers(alloc, Some(held), None)?;
    let script = read_script(alloc, Clients::Allowed, SCRIPT.as_bytes()).map_err(|_| "no script")?;
    let played = report_with_clients::<Data, _, _, _>(&rt, alloc, &gate, &script, keepers);
    assert!(&rt; matches!(&played.ending, Ending::Told(text) if text.as_str() == REPORT));
    Ok(())
}

/// Counts what it is told of each of two clients: two words for a call, in order.
#[derive(Drop)]
struct CountingGate {
    first: AtomicU64,
    other: AtomicU64,
}

impl CountingGate {
    /// One word more of a client, if it is the one that is due. After a wrong one no other is.
    fn count(&self, client: u32, due: u64) {
        let told = if client == 0 {
            &self.first
        } else {
            &self.other
        };
        if told.load(Ordering::SeqCst) == due {
            told.store(due.saturating_add(1), Ordering::SeqCst);
        } else {
            told.store(u64::MAX, Ordering::SeqCst);
        }
    }
}

impl Gate for CountingGate {
    fn before(&self, client: u32, call: u32) {
        self.count(client, u64::from(call) * 2);
    }

    fn after(&self, client: u32, call: u32) {
        self.count(client, u64::from(call) * 2 + 1);
    }
}

const REPEATED: &str =
    r#"{"members":2,"keys":[{"key":"n","kind":"gcounter"}],"steps":[{"do":"threads","clients":[
[{"do":"get","at":0,"key":"n","times":3},{"do":"get","at":5,"key":"n"}],[{"do":"get","at":1,"key":"n","times":2}]]}]}"#;

#[test]
fn a_gate_is_told_before_and_after_each_call(rt: HostRuntime) -> Result<(), Fail> {
    let alloc = rt.alloc();
    let gate = CountingGate {
        first: AtomicU64::new(0),
        other: AtomicU64::new(0),
    };
    let script = read_script(alloc, Clients::Allowed, REPEATED.as_bytes()).map_err(
        |_| "no script",
    )?;
    let keepers = holding_keepers(alloc, None, None)?;
    let _played = report_with_clients::<Data, _, _, _>(&rt, alloc, &gate, &script, keepers);
    assert_eq!(&rt; gate.first.load(Ordering::SeqCst), 8);
    assert_eq!(&rt; gate.other.load(Ordering::SeqCst), 4);
    Ok(())
}
