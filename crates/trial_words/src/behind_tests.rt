//! Scripts whose stores are written behind.

ghost use Rattle.std.specs.Prelude.{◌≡◌, ◌≤◌, length};

use member_keeper::{Keeper, MemoryKeeper};
use sha1::Sha1;
use std::alloc::Global;
use std::process::Abort;
use std::test::Fail;
use top_call::{Outcome, Status, replicate_plain};
use trial_rows::{called, keepers, streams, words};

const THREE: &str = r#"{"members":1,"keys":[{"key":"d","kind":"gcounter","durable":true}],"steps":[
    {"do":"update","at":0,"key":"d","op":"increment","by":1},
    {"do":"update","at":0,"key":"d","op":"increment","by":2},
    {"do":"update","at":0,"key":"d","op":"increment","by":3}]}"#;

const THREE_REPORT: &str = r#"1 update 0 d done
2 update 0 d done
3 update 0 d done
final view 0
member 0 place 0 view 0
d 6 known 0:3 marks -
"#;

const CLIENTS: &str = r#"{"members":1,"keys":[{"key":"n","kind":"gcounter"}],"steps":[
    {"do":"threads","clients":[[{"do":"get","at":0,"key":"n"}]]}]}"#;

/// What is answered, the text that was written, and the keepers.
#[derive(Drop)]
struct Answered<D> {
    status: Status,
    text: String,
    keepers: Vec<D>,
}

/// What the words of a line answer of a script over these keepers.
fn called_for<D: Keeper + Drop>(
    alloc: Global,
    line: &str,
    script: &str,
    keepers: Vec<D>,
) -> Result<Answered<D>, Fail>
    requires { length keepers.items ≡ 8 }
{
    let words = words(alloc, line)?;
    let (mut source, mut sink) = streams(alloc, script.as_bytes(), &[], &[])?;
    let Outcome { status, keepers } = replicate_plain(
        alloc,
        &words,
        &mut source,
        &mut sink,
        keepers,
    );
    let text = String::from_utf8(Vec::from_slice(alloc, sink.bytes())?)?;
    Ok(Answered {
        status,
        text,
        keepers,
    })
}

/// What is stored of a growing counter, of how many records each identity has and of their sums.
fn stored(alloc: Global, counts: &[(u8, u64, u64)]) -> Result<Vec<u8>, Fail> {
    let count = (counts.len() % 256) as u8;
    let mut bytes = Vec::from_slice(alloc, &[2, 1, 0, count])?;
    for (id, records, _sum) in counts {
        bytes.push(*id)?;
        bytes.extend_from_slice(&records.to_be_bytes())?;
    }
    bytes.push(count)?;
    for (id, _records, sum) in counts {
        bytes.push(*id)?;
        bytes.extend_from_slice(&sum.to_be_bytes())?;
    }
    let seal = Sha1::digest(&bytes);
    bytes.extend_from_slice(&seal)?;
    Ok(bytes)
}

/// The keeper of place 0 has what is stored of this counter at `d`, and nothing else.
fn check_kept<R: Abort>(
    rt: &R,
    alloc: Global,
    keepers: &[MemoryKeeper],
    counts: &[(u8, u64, u64)],
) -> Result<(), Fail> {
    let Some(keeper) = keepers.first() else {
        return Err("no keeper".into());
    };
    let entries = keeper.entries();
    assert_eq!(rt; entries.len(), 1);
    let stored = stored(alloc, counts)?;
    for entry in entries {
        assert_eq!(rt; entry.key.as_str(), "d");
        assert!(rt; entry.bytes.as_slice() == stored.as_slice());
    }
    Ok(())
}

#[test]
fn the_last_stores_are_handed_on_at_the_end(rt: HostRuntime) -> Result<(), Fail> {
    let alloc = rt.alloc();
    // The clear is call 0, the first two stores together are call 1, and the flush at the end is call 2.
    let rows: [(&[u64], (u8, u64, u64)); 2] = [(&[], (0, 3, 6)), (&[2], (0, 2, 3))];
    for (failing, count) in rows {
        let answer = called_for(alloc, "behind 2", THREE, keepers(alloc, 0, failing)?)?;
        assert_eq!(rt; answer.status, Status::Done);
        assert_eq!(rt; answer.text.as_str(), THREE_REPORT);
        check_kept(&rt, alloc, &answer.keepers, &[count])?;
    }
    Ok(())
}

#[test]
fn a_call_with_a_runtime_writes_behind_too(rt: HostRuntime) -> Result<(), Fail> {
    let alloc = rt.alloc();
    let (status, sink) = called(&rt, alloc, "behind 64", THREE, keepers(alloc, 0, &[])?)?;
    assert_eq!(rt; status, Status::Done);
    assert!(rt; sink.bytes() == THREE_REPORT.as_bytes());
    let refused = called(&rt, alloc, "behind 2", CLIENTS, keepers(alloc, 0, &[])?)?;
    assert_eq!(rt; refused.0, Status::NotAScript);
    assert_eq!(rt;
        refused.1.bytes(),
        b"not a script: step 1 rule 14\n".as_slice()
    );
    Ok(())
}

/// A script of twenty updates of a durable key, with restarts behind the eighth and the fifteenth.
fn twenty(alloc: Global) -> Result<String, Fail> {
    let mut text = String::from_str(
        alloc,
        r#"{"members":1,"keys":[{"key":"d","kind":"gcounter","durable":true}],"steps":["#,
    )?;
    for step in 1..23_u8 {
        let id = identity(step);
        if step == 9 || step == 17 {
            write!(text, "{{\"do\":\"restart\",\"id\":{}}},", id)?;
        } else {
            write!(
                text,
                "{{\"do\":\"update\",\"at\":{},\"key\":\"d\",\"op\":\"increment\",\"by\":1}}",
                id
            )?;
            if step < 22 {
                text.push_str(",")?;
            }
        }
    }
    text.push_str("]}")?;
    Ok(text)
}

/// Who is asked in a step of it.
fn identity(step: u8) -> u8
    ensures { result ≤ 2 }
{
    if step < 10 {
        0
    } else if step < 18 {
        1
    } else {
        2
    }
}

/// The line of a step that went well, or of one whose store failed.
fn push_done(text: &mut String, step: u8, failed: u8) -> Result<(), Fail> {
    let id = identity(step);
    if step == 9 || step == 17 {
        write!(
            text,
            "{step} restart {} id {} view {}\n",
            id,
            id + 1,
            id + 1
        )?;
    } else if step == failed {
        write!(text, "{step} update {} d store failed\n", id)?;
    } else {
        write!(text, "{step} update {} d done\n", id)?;
    }
    Ok(())
}

/// The line of a step behind a restart that failed.
fn push_gone(text: &mut String, step: u8) -> Result<(), Fail> {
    let id = identity(step);
    if step == 17 {
        write!(text, "{step} restart {} gone\n", id)?;
    } else {
        write!(text, "{step} update {} d gone\n", id)?;
    }
    Ok(())
}

/// The report of that script where the store or the load of a step failed, with this line of the key.
fn twenty_report(alloc: Global, failed: u8, line: &str) -> Result<String, Fail> {
    let mut text = String::new(alloc);
    let loads = failed == 9 || failed == 17;
    for step in 1..23_u8 {
        if loads && step == failed {
            write!(text, "{step} restart {} load failed\n", identity(step))?;
        } else if loads && step > failed {
            push_gone(&mut text, step)?;
        } else {
            push_done(&mut text, step, failed)?;
        }
    }
    let last = if loads { identity(failed) } else { 2 };
    write!(
        text,
        "final view {last}\nmember {last} place 0 view {last}\n{line}\n"
    )?;
    Ok(text)
}

/// A call that fails, the step at which it is made (none: the flush at the end), the line of the key, and what is kept.
type Twenty<'a> = (u64, u8, &'a str, &'a [(u8, u64, u64)]);

const ALL: &str = "d 20 known 0:8 1:7 2:5 marks -";

// Three stores are handed on together: with those of steps 3, 6, 10, 13, 16 and 20, unless one fails, with the next then. Loads are made at 9 and 17.
const TWENTY: &[Twenty] = &[
    (1, 3, ALL, &[(0, 8, 8), (1, 7, 7), (2, 5, 5)]),
    (2, 6, ALL, &[(0, 8, 8), (1, 7, 7), (2, 5, 5)]),
    (3, 9, "d 8 known 0:8 marks -", &[(0, 8, 8)]),
    (4, 10, ALL, &[(0, 8, 8), (1, 7, 7), (2, 5, 5)]),
    (5, 13, ALL, &[(0, 8, 8), (1, 7, 7), (2, 5, 5)]),
    (
        6,
        16,
        "d 19 known 0:8 1:6 2:5 marks -",
        &[(0, 8, 8), (1, 6, 6), (2, 5, 5)],
    ),
    (7, 17, "d 15 known 0:8 1:7 marks -", &[(0, 8, 8), (1, 7, 7)]),
    (8, 20, ALL, &[(0, 8, 8), (1, 7, 7), (2, 5, 5)]),
    (9, 0, ALL, &[(0, 8, 8), (1, 7, 7), (2, 3, 3)]),
    (10, 0, ALL, &[(0, 8, 8), (1, 7, 7), (2, 5, 5)]),
];

#[test]
fn each_call_of_the_keeper_inside_fails(rt: HostRuntime) -> Result<(), Fail> {
    let alloc = rt.alloc();
    let script = twenty(alloc)?;
    for (call, failed, line, counts) in TWENTY {
        let keepers = keepers(alloc, 0, &[*call])?;
        let answer = called_for(alloc, "behind 3", script.as_str(), keepers)?;
        assert_eq!(rt; answer.status, Status::Done, "at {call}");
        let report = twenty_report(alloc, *failed, line)?;
        assert_eq!(rt; answer.text.as_str(), report.as_str(), "at {call}");
        check_kept(&rt, alloc, &answer.keepers, counts)?;
    }
    Ok(())
}

#[test]
fn a_keeper_inside_fails_to_be_cleared(rt: HostRuntime) -> Result<(), Fail> {
    let alloc = rt.alloc();
    let answer = called_for(alloc, "behind 3", THREE, keepers(alloc, 1, &[0])?)?;
    assert_eq!(rt; answer.status, Status::ClearFailed);
    assert_eq!(rt; answer.text.as_str(), "store failed at 1\n");
    assert_eq!(rt; answer.keepers.len(), 8);
    Ok(())
}
