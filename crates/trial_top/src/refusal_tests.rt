//! What is refused: texts that are no script, and sources, sinks and keepers that fail.

use crate::checking::{check, compare};
use crate::kinds_tests::EMPTY;
use base_outside::{MemorySink, MemorySource};
use std::alloc::Global;
use std::test::Fail;
use top_call::Status;
use trial_rows::{MANY, Section, Streams, answered, build, keepers, printed, streams};

// A text that breaks each rule, and what is printed. In the last of rule 4 and the first of rule 7 a later step breaks a rule of a lower number or a higher.
const BROKEN: &[(&str, &str)] = &[
    (r#"[]"#, "not a script: step 0 rule 1\n"),
    (r#"{"members":1}"#, "not a script: step 0 rule 1\n"),
    (
        r#"{"members":1,"keys":[{"key":"n","kind":"gcounter"}],"steps":[],"more":0}"#,
        "not a script: step 0 rule 1\n",
    ),
    (
        r#"{"members":0,"keys":[{"key":"n","kind":"gcounter"}],"steps":[]}"#,
        "not a script: step 0 rule 2\n",
    ),
    (
        r#"{"members":9,"keys":[{"key":"n","kind":"gcounter"}],"steps":[]}"#,
        "not a script: step 0 rule 2\n",
    ),
    (
        r#"{"members":1.0,"keys":[],"steps":[]}"#,
        "not a script: step 0 rule 2\n",
    ),
    (
        r#"{"members":1,"keys":[],"steps":[{"do":"fly"}]}"#,
        "not a script: step 0 rule 3\n",
    ),
    (
        r#"{"members":1,"keys":[{"key":"n","kind":"map"}],"steps":[]}"#,
        "not a script: step 0 rule 3\n",
    ),
    (
        r#"{"members":1,"keys":[{"key":"N","kind":"flag"}],"steps":[]}"#,
        "not a script: step 0 rule 3\n",
    ),
    (
        r#"{"members":1,"keys":[{"key":"aaaaaaaaaaaaaaaaaaaaaaaaaaaaaaaaa","kind":"flag"}],"steps":[]}"#,
        "not a script: step 0 rule 3\n",
    ),
    (
        r#"{"members":1,"keys":[{"key":"n","kind":"flag"},{"key":"n","kind":"gset"}],"steps":[]}"#,
        "not a script: step 0 rule 3\n",
    ),
    (
        r#"{"members":1,"keys":[{"key":"n","kind":"flag","durable":null}],"steps":[]}"#,
        "not a script: step 0 rule 3\n",
    ),
    (
        r#"{"members":1,"keys":[{"key":"n","kind":"flag"}],"steps":{}}"#,
        "not a script: step 0 rule 4\n",
    ),
    (
        r#"{"members":1,"keys":[{"key":"n","kind":"flag"}],"steps":[{"do":"fly"},7]}"#,
        "not a script: step 0 rule 4\n",
    ),
    (
        r#"{"members":1,"keys":[{"key":"n","kind":"gcounter"}],"steps":[{"do":"round"},{"do":"round"},{"do":"round"},{"do":"fly"}]}"#,
        "not a script: step 4 rule 5\n",
    ),
    (
        r#"{"members":1,"keys":[{"key":"n","kind":"gcounter"}],"steps":[{"at":0}]}"#,
        "not a script: step 1 rule 5\n",
    ),
    (
        r#"{"members":1,"keys":[{"key":"n","kind":"gcounter"}],"steps":[{"do":"update","at":0,"key":"n","op":"clear"}]}"#,
        "not a script: step 1 rule 5\n",
    ),
    (
        r#"{"members":1,"keys":[{"key":"n","kind":"gcounter"}],"steps":[{"do":"flush"}]}"#,
        "not a script: step 1 rule 6\n",
    ),
    (
        r#"{"members":1,"keys":[{"key":"n","kind":"gcounter"}],"steps":[{"do":"settle","at":0}]}"#,
        "not a script: step 1 rule 6\n",
    ),
    (
        r#"{"members":1,"keys":[{"key":"n","kind":"gcounter"}],"steps":[{"do":"settle"},{"do":"round","times":2}]}"#,
        "not a script: step 2 rule 6\n",
    ),
    (
        r#"{"members":1,"keys":[{"key":"n","kind":"gcounter"}],"steps":[{"do":"flush","at":255},{"do":"fly"}]}"#,
        "not a script: step 1 rule 7\n",
    ),
    (
        r#"{"members":1,"keys":[{"key":"n","kind":"gcounter"}],"steps":[{"do":"flush","at":-0}]}"#,
        "not a script: step 1 rule 7\n",
    ),
    (
        r#"{"members":1,"keys":[{"key":"n","kind":"gcounter"}],"steps":[{"do":"join","place":8}]}"#,
        "not a script: step 1 rule 7\n",
    ),
    (
        r#"{"members":1,"keys":[{"key":"n","kind":"gcounter"}],"steps":[{"do":"deliver","from":0,"to":0,"index":4294967296}]}"#,
        "not a script: step 1 rule 7\n",
    ),
    (
        r#"{"members":1,"keys":[{"key":"n","kind":"gcounter"}],"steps":[{"do":"get","at":0,"key":"n n"}]}"#,
        "not a script: step 1 rule 8\n",
    ),
    (
        r#"{"members":1,"keys":[{"key":"n","kind":"gcounter"}],"steps":[{"do":"update","at":0,"key":"n","op":"add","element":1}]}"#,
        "not a script: step 1 rule 9\n",
    ),
    (
        r#"{"members":1,"keys":[{"key":"n","kind":"gcounter"}],"steps":[{"do":"update","at":0,"key":"n","op":"increment","by":1.5}]}"#,
        "not a script: step 1 rule 10\n",
    ),
    (
        r#"{"members":1,"keys":[{"key":"n","kind":"gcounter"}],"steps":[{"do":"update","at":0,"key":"n","op":"increment","by":0}]}"#,
        "not a script: step 1 rule 10\n",
    ),
    (
        r#"{"members":1,"keys":[{"key":"n","kind":"gcounter"}],"steps":[{"do":"update","at":0,"key":"n","op":"decrement","by":9223372036854775808}]}"#,
        "not a script: step 1 rule 10\n",
    ),
    (
        r#"{"members":1,"keys":[{"key":"n","kind":"gcounter"}],"steps":[{"do":"update","at":0,"key":"n","op":"assign","text":"a","now":9223372036854775808}]}"#,
        "not a script: step 1 rule 10\n",
    ),
    (
        r#"{"members":1,"keys":[{"key":"n","kind":"gcounter"}],"steps":[{"do":"update","at":0,"key":"n","op":"add","element":"xxxxxxxxxxxxxxxxxxxxxxxxxxxxxxxxxxxxxxxxxxxxxxxxxxxxxxxxxxxxxxxxx"}]}"#,
        "not a script: step 1 rule 11\n",
    ),
    (
        r#"{"members":1,"keys":[{"key":"n","kind":"gcounter"}],"steps":[{"do":"get","at":0,"key":"n","level":null}]}"#,
        "not a script: step 1 rule 12\n",
    ),
    (
        r#"{"members":1,"keys":[{"key":"n","kind":"gcounter"}],"steps":[{"do":"get","at":0,"key":"n","level":{"to":65}}]}"#,
        "not a script: step 1 rule 12\n",
    ),
    (
        r#"{"members":1,"keys":[{"key":"n","kind":"gcounter"}],"steps":[{"do":"get","at":0,"key":"n","level":{"majority":65}}]}"#,
        "not a script: step 1 rule 12\n",
    ),
    (
        r#"{"members":1,"keys":[{"key":"n","kind":"gcounter"}],"steps":[{"do":"threads"}]}"#,
        "not a script: step 1 rule 6\n",
    ),
    (
        r#"{"members":1,"keys":[{"key":"n","kind":"gcounter"}],"steps":[{"do":"threads","clients":[[{"do":"flush","at":255}]]}]}"#,
        "not a script: step 1 rule 13\n",
    ),
    (
        r#"{"members":1,"keys":[{"key":"n","kind":"gcounter"}],"steps":[{"do":"threads","clients":[[{"do":"flush","at":0,"times":1024},{"do":"flush","at":0}]]}]}"#,
        "not a script: step 1 rule 13\n",
    ),
    (
        r#"{"members":1,"keys":[{"key":"n","kind":"gcounter"}],"steps":[{"do":"threads","clients":[[{"do":"flush","at":0}],[{"do":"flush","at":0}],[{"do":"flush","at":0}],[{"do":"flush","at":0}],[{"do":"flush","at":0}],[{"do":"flush","at":0}],[{"do":"flush","at":0}],[{"do":"flush","at":0}],[{"do":"flush","at":0}]]}]}"#,
        "not a script: step 1 rule 13\n",
    ),
    (
        r#"{"members":1,"keys":[{"key":"n","kind":"gcounter"}],"steps":[{"do":"threads","clients":[[{"do":"flush","at":0}]]}]}"#,
        "not a script: step 1 rule 14\n",
    ),
];

// Each number and text of a step at its limit.
const AT_THE_LIMITS: &str =
    r#"{"members":8,"keys":[{"key":"abcdefghijklmnopqrstuvwxyz012345","kind":"gset"}],"steps":[
    {"do":"update","at":254,"key":"abcdefghijklmnopqrstuvwxyz012345","op":"add","element":"x"},
    {"do":"update","at":0,"key":"abcdefghijklmnopqrstuvwxyz012345","op":"add","element":"xxxxxxxxxxxxxxxxxxxxxxxxxxxxxxxxxxxxxxxxxxxxxxxxxxxxxxxxxxxxxxxx"},
    {"do":"get","at":0,"key":"abcdefghijklmnopqrstuvwxyz012345","level":{"to":64}},
    {"do":"get","at":0,"key":"abcdefghijklmnopqrstuvwxyz012345","level":{"majority":64}},
    {"do":"deliver","from":254,"to":0,"index":4294967295},
    {"do":"install","at":0,"view":4294967295},
    {"do":"timeout","at":0,"op":4294967295},
    {"do":"join","place":7},
    {"do":"lose","from":254,"to":254}]}"#;

const AT_THE_LIMITS_REPORT: &str = r#"1 update 254 abcdefghijklmnopqrstuvwxyz012345 gone
2 update 0 abcdefghijklmnopqrstuvwxyz012345 done
3 get 0 abcdefghijklmnopqrstuvwxyz012345 too few
4 get 0 abcdefghijklmnopqrstuvwxyz012345 pending 0 sent 1:read 2:read 3:read 4:read 5:read 6:read 7:read
5 deliver 254>0 4294967295 no such message
6 install 0 view 4294967295 no such view
7 timeout 0 4294967295 no such op
8 join 7 place taken
9 lose 254>254 0 no such message
final view 0
member 0 place 0 view 0
abcdefghijklmnopqrstuvwxyz012345 {"xxxxxxxxxxxxxxxxxxxxxxxxxxxxxxxxxxxxxxxxxxxxxxxxxxxxxxxxxxxxxxxx"} known 0:1 marks -
member 1 place 1 view 0
abcdefghijklmnopqrstuvwxyz012345 - known - marks -
member 2 place 2 view 0
abcdefghijklmnopqrstuvwxyz012345 - known - marks -
member 3 place 3 view 0
abcdefghijklmnopqrstuvwxyz012345 - known - marks -
member 4 place 4 view 0
abcdefghijklmnopqrstuvwxyz012345 - known - marks -
member 5 place 5 view 0
abcdefghijklmnopqrstuvwxyz012345 - known - marks -
member 6 place 6 view 0
abcdefghijklmnopqrstuvwxyz012345 - known - marks -
member 7 place 7 view 0
abcdefghijklmnopqrstuvwxyz012345 - known - marks -
"#;

// A script, and what is printed where one byte of it is raised by one: `j` is no JSON text, `d` is done, and a number is the rule that is broken.
const SCRIPT: &str =
    r#"{"members":1,"keys":[{"key":"n","kind":"flag"}],"steps":[{"do":"flush","at":0}]}"#;

const RAISED: &[u8; 80] =
    b"jj1111111jjdjj1111jjjjj333jjjdjjj3333jjj3333jjjjj11111jjjjj55jjj55555jjj66jjdjjj";

#[test]
fn tells_the_first_broken_rule(rt: HostRuntime) -> Result<(), Fail> {
    let alloc = rt.alloc();
    for (script, text) in BROKEN {
        let answer = printed(alloc, script, keepers(alloc, 0, &[])?)?;
        check(&rt, &answer, Status::NotAScript, text.as_bytes(), *script);
    }
    Ok(())
}

#[test]
fn takes_what_is_at_the_limits(rt: HostRuntime) -> Result<(), Fail> {
    let none: &[u64] = &[];
    compare(
        &rt,
        rt.alloc(),
        0,
        &[(AT_THE_LIMITS, none, AT_THE_LIMITS_REPORT)],
    )
}

/// A script of so many flags and so many rounds.
fn flags_and_rounds(alloc: Global, keys: u64, steps: u64) -> Result<String, Fail> {
    build(
        alloc,
        &[
            (1, r#"{"members":1,"keys":["#, &[]),
            (
                keys.saturating_sub(1),
                r#"{"key":"k#","kind":"flag"},"#,
                &[(1, 1, 1, MANY)],
            ),
            (1, r#"{"key":"k","kind":"flag"}],"steps":["#, &[]),
            (steps.saturating_sub(1), r#"{"do":"round"},"#, &[]),
            (1, r#"{"do":"round"}]}"#, &[]),
        ],
    )
}

#[test]
fn bounds_keys_and_steps(rt: HostRuntime) -> Result<(), Fail> {
    let alloc = rt.alloc();
    let most = flags_and_rounds(alloc, 16, 4096)?;
    let (told, _) = printed(alloc, most.as_str(), keepers(alloc, 0, &[])?)?;
    assert_eq!(rt; told, Status::Done);
    let rows = [
        (17, 4096, "not a script: step 0 rule 3\n"),
        (16, 4097, "not a script: step 0 rule 4\n"),
    ];
    for (keys, steps, text) in rows {
        let script = flags_and_rounds(alloc, keys, steps)?;
        let answer = printed(alloc, script.as_str(), keepers(alloc, 0, &[])?)?;
        check(&rt, &answer, Status::NotAScript, text.as_bytes(), keys);
    }
    Ok(())
}

/// The last step that a script may have is none.
const LAST_BROKEN: &[Section] = &[
    (
        1,
        r#"{"members":1,"keys":[{"key":"n","kind":"flag"}],"steps":["#,
        &[],
    ),
    (4095, r#"{"do":"round"},"#, &[]),
    (1, r#"{"do":"fly"}]}"#, &[]),
];

#[test]
fn tells_the_rule_that_the_last_step_breaks(rt: HostRuntime) -> Result<(), Fail> {
    let alloc = rt.alloc();
    let script = build(alloc, LAST_BROKEN)?;
    let answer = printed(alloc, script.as_str(), keepers(alloc, 0, &[])?)?;
    let text = b"not a script: step 4096 rule 5\n";
    check(&rt, &answer, Status::NotAScript, text, "the last step");
    Ok(())
}

// A letter for the status, and for a script that breaks a rule the rule's last digit.
fn letter(status: Status, text: &[u8]) -> u8 {
    match status {
        Status::Done => b'd',
        Status::NotJson if text == b"not json\n".as_slice() => b'j',
        Status::NotAScript => match text {
            [.., rule, b'\n'] => *rule,
            _ => b'-',
        },
        _ => b'-',
    }
}

// What a text prints, as a letter.
fn told(alloc: Global, bytes: &[u8]) -> Result<u8, Fail> {
    let streams = streams(alloc, bytes, &[], &[])?;
    let (status, sink) = answered(alloc, "plain", streams, keepers(alloc, 0, &[])?)?;
    Ok(letter(status, sink.bytes()))
}

// What a text prints of which a byte was raised by one.
fn told_of_raised(alloc: Global, script: &[u8], at: usize) -> Result<u8, Fail> {
    let mut raised = Vec::from_slice(alloc, script)?;
    if let Some(byte) = raised.get_mut(at) {
        *byte = byte.saturating_add(1);
    }
    told(alloc, &raised)
}

#[test]
fn reads_cut_and_raised_texts(rt: HostRuntime) -> Result<(), Fail> {
    let alloc = rt.alloc();
    let script = SCRIPT.as_bytes();
    assert_eq!(rt; told(alloc, script)?, b'd');
    for (at, outcome) in RAISED.iter().enumerate() {
        assert_eq!(rt;
            told_of_raised(alloc, script, at)?,
            *outcome,
            "raised at {at}"
        );
        let cut = &script[..at.min(script.len())];
        assert_eq!(rt; told(alloc, cut)?, b'j', "cut at {at}");
    }
    Ok(())
}

/// A source of so many spaces, in pieces of 4,096, and a sink.
fn spaces(alloc: Global, length: usize) -> Result<Streams, Fail> {
    let (_, sink) = streams(alloc, b"", &[], &[])?;
    let spaces = vec![in alloc; b' '; length]?;
    Ok((
        MemorySource::new(alloc, spaces, 4096, Vec::new(alloc)),
        sink,
    ))
}

/// Words, how many spaces are read, and what is answered and printed.
const LENGTHS: &[(&str, usize, Status, &str)] = &[
    ("plain", 8_388_608, Status::NotJson, "not json\n"),
    ("plain", 8_388_609, Status::TooLong, "too long\n"),
    (
        "upgrade",
        8_388_608,
        Status::NotAnEnvelope,
        "not an envelope: place 0\n",
    ),
    ("upgrade", 8_388_609, Status::TooLong, "too long\n"),
];

#[test]
fn bounds_what_is_read(rt: HostRuntime) -> Result<(), Fail> {
    let alloc = rt.alloc();
    for (line, length, outcome, text) in LENGTHS {
        let streams = spaces(alloc, *length)?;
        let answer = answered(alloc, line, streams, keepers(alloc, 0, &[])?)?;
        check(&rt, &answer, *outcome, text.as_bytes(), *length);
    }
    Ok(())
}

/// A source of a script, and a sink that takes pieces of eight bytes, whose calls of these numbers fail.
fn streams_of_eight(
    alloc: Global,
    script: &str,
    reads: &[u64],
    writes: &[u64],
) -> Result<Streams, Fail> {
    let (source, _) = streams(alloc, script.as_bytes(), reads, &[])?;
    let writes = Vec::from_slice(alloc, writes)?;
    Ok((source, MemorySink::new(alloc, 8, writes)))
}

/// Words, a script, the calls of the source, of the sink and of the first keeper that fail, and what is answered and printed.
type Cause = (
    &'static str,
    &'static str,
    &'static [u64],
    &'static [u64],
    &'static [u64],
    Status,
    &'static str,
);

const CAUSES: &[Cause] = &[
    (
        "plain",
        "{\"members\":1",
        &[],
        &[],
        &[],
        Status::NotJson,
        "not json\n",
    ),
    ("plain", "", &[], &[], &[], Status::NotJson, "not json\n"),
    (
        "plain",
        EMPTY,
        &[],
        &[1],
        &[],
        Status::WriteFailed,
        "final vi",
    ),
    ("gen 1", EMPTY, &[], &[0], &[], Status::WriteFailed, ""),
    (
        "sum 1",
        EMPTY,
        &[],
        &[1],
        &[],
        Status::WriteFailed,
        "final vi",
    ),
    ("gen 0", EMPTY, &[0], &[], &[], Status::Usage, "bad words\n"),
    (
        "gen 0",
        EMPTY,
        &[],
        &[1],
        &[],
        Status::WriteFailed,
        "bad word",
    ),
    ("plain", EMPTY, &[0], &[], &[], Status::ReadFailed, ""),
    (
        "plain",
        EMPTY,
        &[],
        &[],
        &[0],
        Status::ClearFailed,
        "store failed at 0\n",
    ),
    (
        "sum 1",
        EMPTY,
        &[],
        &[],
        &[0],
        Status::ClearFailed,
        "store failed at 0\n",
    ),
];

#[test]
fn answers_by_cause(rt: HostRuntime) -> Result<(), Fail> {
    let alloc = rt.alloc();
    for (line, script, reads, writes, clears, outcome, text) in CAUSES {
        let streams = streams_of_eight(alloc, script, reads, writes)?;
        let answer = answered(alloc, line, streams, keepers(alloc, 0, clears)?)?;
        check(&rt, &answer, *outcome, text.as_bytes(), *line);
    }
    Ok(())
}
