//! The words, and what `gen` and `sum` write.

use crate::checking::check;
use std::alloc::Global;
use std::test::Fail;
use top_call::Status;
use trial_rows::{Answer, MANY, Number, answered, build, keepers, streams};

const BAD_WORDS: &[&str] = &[
    "",
    "plain ",
    "plain extra",
    "plain x",
    "plain plain",
    "Plain",
    "run",
    "--help",
    "--version",
    "gen",
    "gen 0",
    "gen 4095",
    "gen 01",
    "gen 0001",
    "gen +1",
    "gen -1",
    "gen  1",
    "gen 1 1",
    "gen 1x",
    "gen one",
    "gen 4294967297",
    "1 gen",
    "sum",
    "sum 0",
    "sum 4095",
    "sum 08",
    "sum +8",
    "behind",
    "behind 0",
    "behind 65",
    "behind 01",
    "behind +2",
    "behind 2 2",
    "2 behind",
    "Upgrade",
    "upgrade 1",
    "upgrade upgrade",
];

const GENERATED: &str =
    r#"{"keys":[{"key":"bal","kind":"pncounter"},{"durable":true,"key":"cart","kind":"orset"},{"key":"hits","kind":"gcounter"},{"key":"note","kind":"lwwregister"}],"members":5,"steps":[{"at":1,"by":1,"do":"update","key":"hits","op":"increment"},{"do":"remove","id":4},{"do":"settle"}]}
"#;

const SUM_OF_ONE: &str = r#"final view 1
member 0 place 0 view 1
bal - known - marks -
cart - known - marks -
hits 1 known 1:1 marks -
note - known - marks -
member 1 place 1 view 1
bal - known - marks -
cart - known - marks -
hits 1 known 1:1 marks -
note - known - marks -
member 2 place 2 view 1
bal - known - marks -
cart - known - marks -
hits 1 known 1:1 marks -
note - known - marks -
member 3 place 3 view 1
bal - known - marks -
cart - known - marks -
hits 1 known 1:1 marks -
note - known - marks -
"#;

const SUM_OF_EIGHT: &str = r#"final view 1
member 0 place 0 view 1
bal -3 known 3:1 marks -
cart {"item-2"} known 0:1 2:1 marks -
hits 1 known 1:1 marks -
note "n8" known 3:1 marks -
member 1 place 1 view 1
bal -3 known 3:1 marks -
cart {"item-2"} known 0:1 2:1 marks -
hits 1 known 1:1 marks -
note "n8" known 3:1 marks -
member 2 place 2 view 1
bal -3 known 3:1 marks -
cart {"item-2"} known 0:1 2:1 marks -
hits 1 known 1:1 marks -
note "n8" known 3:1 marks -
member 3 place 3 view 1
bal -3 known 3:1 marks -
cart {"item-2"} known 0:1 2:1 marks -
hits 1 known 1:1 marks -
note "n8" known 3:1 marks -
"#;

// Neither the source nor a keeper is called: each would fail.
#[test]
fn refuses_other_words(rt: HostRuntime) -> Result<(), Fail> {
    let alloc = rt.alloc();
    for line in BAD_WORDS {
        let answer = answer(alloc, line, &[0])?;
        check(&rt, &answer, Status::Usage, b"bad words\n", *line);
    }
    Ok(())
}

// What words answer, where the source fails at its first call, and a keeper at the calls named.
fn answer(alloc: Global, line: &str, failing: &[u64]) -> Result<Answer, Fail> {
    let streams = streams(alloc, b"{}", &[0], &[])?;
    answered(alloc, line, streams, keepers(alloc, 0, failing)?)
}

// What words write that read nothing.
fn written(alloc: Global, line: &str) -> Result<String, Fail> {
    let (status, sink) = answer(alloc, line, &[])?;
    if status == Status::Done {
        Ok(String::from_utf8(Vec::from_slice(alloc, sink.bytes())?)?)
    } else {
        Ok(format!(in alloc; "status {status:?}")?)
    }
}

#[test]
fn generates_and_sums(rt: HostRuntime) -> Result<(), Fail> {
    let rows = [
        ("gen 1", GENERATED),
        ("sum 1", SUM_OF_ONE),
        ("sum 8", SUM_OF_EIGHT),
    ];
    for (line, text) in rows {
        let written = written(rt.alloc(), line)?;
        assert_eq!(rt; written.as_str(), text, "at {line}");
    }
    Ok(())
}

/// A number that stays as it is.
fn fixed(number: u64) -> Number {
    (number, 0, 1, 1)
}

/// Step `i` of a generated script, by the remainder of `i` by 8, and a comma.
fn generated_step(alloc: Global, i: u64) -> Result<String, Fail> {
    let at = fixed(i % 5);
    let by = fixed(i);
    let (step, numbers) = match i % 8 {
        1 => (
            r#"{"at":#,"by":#,"do":"update","key":"hits","op":"increment"},"#,
            [at, by, by],
        ),
        2 => (
            r#"{"at":#,"do":"update","element":"item-#","key":"cart","op":"add"},"#,
            [at, fixed(i % 40), by],
        ),
        3 => (
            r#"{"at":#,"by":#,"do":"update","key":"bal","op":"decrement"},"#,
            [at, by, by],
        ),
        4 => (r#"{"at":#,"do":"flush"},"#, [at, by, by]),
        5 => (
            r#"{"at":#,"do":"update","element":"item-#","key":"cart","op":"remove"},"#,
            [
                at,
                fixed((i % 40).saturating_mul(7).saturating_add(7) % 40),
                by,
            ],
        ),
        6 => (
            r#"{"at":#,"do":"gossip","to":#},"#,
            [at, fixed((i % 5).saturating_add(1) % 5), by],
        ),
        7 => (r#"{"do":"round"},"#, [at, by, by]),
        _ => (
            r#"{"at":#,"do":"update","key":"note","now":#,"op":"assign","text":"n#"},"#,
            [at, by, by],
        ),
    };
    build(alloc, &[(1, step, &numbers)])
}

const GENERATED_HEAD: &str =
    r#"{"keys":[{"key":"bal","kind":"pncounter"},{"durable":true,"key":"cart","kind":"orset"},{"key":"hits","kind":"gcounter"},{"key":"note","kind":"lwwregister"}],"members":5,"steps":["#;

const GENERATED_END: &str = "{\"do\":\"remove\",\"id\":4},{\"do\":\"settle\"}]}\n";

/// The generated script of so many steps.
fn generated(alloc: Global, steps: u64) -> Result<String, Fail> {
    let mut text = String::from_str(alloc, GENERATED_HEAD)?;
    for before in 0..steps {
        let step = generated_step(alloc, before.saturating_add(1))?;
        text.push_str(step.as_str())?;
    }
    text.push_str(GENERATED_END)?;
    Ok(text)
}

#[test]
fn generates_the_largest(rt: HostRuntime) -> Result<(), Fail> {
    let alloc = rt.alloc();
    for steps in [9, 4094] {
        let line = format!(in alloc; "gen {steps}")?;
        let written = written(alloc, line.as_str())?;
        let wanted = generated(alloc, steps)?;
        assert!(rt; written.as_str() == wanted.as_str(), "at {line}");
    }
    Ok(())
}

/// What four members have, each of them the same lines.
fn four_times(alloc: Global, keys: &str) -> Result<String, Fail> {
    let member = format!(in alloc; "member # place # view 1\n{keys}")?;
    let numbers = [(0, 1, 1, MANY), (0, 1, 1, MANY)];
    build(
        alloc,
        &[(1, "final view 1\n", &[]), (4, member.as_str(), &numbers)],
    )
}

// The largest generated script: two runs write the same, and all members have the same of each key.
#[test]
fn sums_the_largest(rt: HostRuntime) -> Result<(), Fail> {
    let alloc = rt.alloc();
    let text = written(alloc, "sum 4094")?;
    let again = written(alloc, "sum 4094")?;
    assert!(rt; text.as_str() == again.as_str());
    let first = text.as_str().split("member ").nth(1).unwrap_or("");
    let keys = first.strip_prefix("0 place 0 view 1\n").unwrap_or("");
    assert_eq!(rt; keys.lines().count(), 4);
    let same = four_times(alloc, keys)?;
    assert!(rt; text.as_str() == same.as_str());
    Ok(())
}
