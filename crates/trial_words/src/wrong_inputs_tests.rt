//! Inputs that a person got wrong, with both outputs of the program on each.

use script_hints::{hint, slip};
use script_reading::Clients;
use std::alloc::Global;
use std::process::Abort;
use std::test::Fail;
use top_call::Status;
use trial_rows::{answered, keepers, streams};

/// An input, what is written of it to standard output, and the line on standard error, without its end.
#[derive(Clone, Copy)]
struct Input {
    text: &'static str,
    written: &'static str,
    told: &'static str,
}

/// The line for a person on bytes of which `plain` ended so.
fn told(alloc: Global, status: Status, bytes: &[u8]) -> Option<String> {
    if status == Status::Done {
        slip(alloc, bytes)
    } else {
        hint(alloc, Clients::Refused, bytes)
    }
}

/// Compares what `plain` writes of these bytes, and what is told of them.
fn compare_bytes<R: Abort>(
    rt: &R,
    alloc: Global,
    bytes: &[u8],
    written: &str,
    line: &str,
) -> Result<(), Fail> {
    let streams = streams(alloc, bytes, &[], &[])?;
    let (status, sink) = answered(alloc, "plain", streams, keepers(alloc, 0, &[])?)?;
    assert!(rt; sink.bytes() == written.as_bytes(), "{line}");
    let told = told(alloc, status, bytes).ok_or("no line")?;
    assert_eq!(rt; told.as_str(), line);
    Ok(())
}

/// Compares both outputs of `plain` on each input.
fn compare<R: Abort>(rt: &R, alloc: Global, inputs: &[Input]) -> Result<(), Fail> {
    for input in inputs {
        compare_bytes(rt, alloc, input.text.as_bytes(), input.written, input.told)?;
    }
    Ok(())
}

// Texts that are no JSON.
const NO_JSON: &[Input] = &[
    Input {
        text: r#"{"members":2,"keys":[{"key":"n","kind":"gcounter"},{"key":"s","kind":"orset"},{"key":"r","kind":"lwwregister"}],"steps":[{"do":"flush","at":0}
"#,
        written: "not json\n",
        told: "not json: EOF while parsing at line 2 column 0, where the text ends with something still open",
    },
    Input {
        text: r#"{
 "members":2,
 "keys":[{"key":"n","kind":"gcounter"},{"key":"s","kind":"orset"},{"key":"r","kind":"lwwregister"}],
 "steps":[
  {"do":"flush","at":0},
 ]
}
"#,
        written: "not json\n",
        told: "not json: invalid JSON at line 6 column 2, where ] stands behind a comma",
    },
    Input {
        text: r#"{
 // members
 "members":2,"keys":[{"key":"n","kind":"gcounter"},{"key":"s","kind":"orset"},{"key":"r","kind":"lwwregister"}],"steps":[]}
"#,
        written: "not json\n",
        told: "not json: invalid JSON at line 2 column 2, where / stands",
    },
    Input {
        text: "\u{feff}{\"members\":2,\"keys\":[{\"key\":\"n\",\"kind\":\"gcounter\"},{\"key\":\"s\",\"kind\":\"orset\"},{\"key\":\"r\",\"kind\":\"lwwregister\"}],\"steps\":[]}",
        written: "not json\n",
        told: "not json: invalid JSON at line 1 column 1, where a byte order mark stands",
    },
    Input {
        text: "{'members':2}",
        written: "not json\n",
        told: "not json: invalid JSON at line 1 column 2, where ' stands",
    },
    Input {
        text: "",
        written: "not json\n",
        told: "not json: EOF while parsing at line 1 column 0, since the text is empty",
    },
    Input {
        text: r#"{"members":2,"keys":[{"key":"n","kind":"gcounter"},{"key":"s","kind":"orset"},{"key":"r","kind":"lwwregister"}],"steps":[{"do":"flush","at":0},
{"do":"flush","at":0},
{"do":"update","at":0,"key":"n","op":"increment","by":1e999},
{"do":"flush","at":0}]}
"#,
        written: "not json\n",
        told: "not json: number out of range at line 3 column 60, where } stands behind a number",
    },
];

// What breaks a rule of the script as a whole, or of its keys.
const WHOLES: &[Input] = &[
    Input {
        text: r#"{"member":2,"keys":[{"key":"n","kind":"gcounter"},{"key":"s","kind":"orset"},{"key":"r","kind":"lwwregister"}],"steps":[]}"#,
        written: "not a script: step 0 rule 1\n",
        told: r#"not a script: "member" is no name of a script, and "members" is missing (rule 1)"#,
    },
    Input {
        text: r#"{"members":2,"keys":[{"key":"n","kind":"gcounter"},{"key":"s","kind":"orset"},{"key":"r","kind":"lwwregister"}],"steps":[],"comment":"x"}"#,
        written: "not a script: step 0 rule 1\n",
        told: r#"not a script: "comment" is no name of a script (rule 1)"#,
    },
    Input {
        text: r#"{"$schema":"docs/script.schema.json","members":2,"keys":[{"key":"n","kind":"gcounter"},{"key":"s","kind":"orset"},{"key":"r","kind":"lwwregister"}],"steps":[]}"#,
        written: "not a script: step 0 rule 1\n",
        told: r#"not a script: "$schema" is no name of a script (rule 1)"#,
    },
    Input {
        text: r#"{"members":"2","keys":[{"key":"n","kind":"gcounter"},{"key":"s","kind":"orset"},{"key":"r","kind":"lwwregister"}],"steps":[]}"#,
        written: "not a script: step 0 rule 2\n",
        told: r#"not a script: "members" is "2", not a whole number from 1 to 8 (rule 2)"#,
    },
    Input {
        text: r#"{"members":9,"keys":[{"key":"n","kind":"gcounter"},{"key":"s","kind":"orset"},{"key":"r","kind":"lwwregister"}],"steps":[]}"#,
        written: "not a script: step 0 rule 2\n",
        told: r#"not a script: "members" is 9, not a whole number from 1 to 8 (rule 2)"#,
    },
    Input {
        text: r#"{"members":2,"keys":[{"key":"a","kind":"gcounter"},{"key":"b","kind":"ormap"}],"steps":[]}"#,
        written: "not a script: step 0 rule 3\n",
        told: r#"not a script: key 2: "kind" is "ormap", not gcounter, pncounter, gset, flag, lwwregister or orset (rule 3)"#,
    },
    Input {
        text: r#"{"members":2,"keys":[{"key":"a","kind":"GCounter"}],"steps":[]}"#,
        written: "not a script: step 0 rule 3\n",
        told: r#"not a script: key 1: "kind" is "GCounter", not gcounter, pncounter, gset, flag, lwwregister or orset (rule 3)"#,
    },
    Input {
        text: r#"{"members":2,"keys":[{"key":"cartAnn","kind":"orset"}],"steps":[]}"#,
        written: "not a script: step 0 rule 3\n",
        told: r#"not a script: key 1: the name "cartAnn" has a character other than a-z, 0-9, _ and - (rule 3)"#,
    },
    Input {
        text: r#"{"members":2,"keys":[{"key":"a","kind":"orset"},{"key":"a","kind":"gset"}],"steps":[]}"#,
        written: "not a script: step 0 rule 3\n",
        told: r#"not a script: key 2: the name "a" is that of key 1 (rule 3)"#,
    },
    Input {
        text: r#"{"members":2,"keys":[{"key":"kkkkkkkkkkkkkkkkkkkkkkkkkkkkkkkkkkkkkkkkkkkkkkkkkkkkkkkkkkkkkkkkk","kind":"orset"}],"steps":[]}"#,
        written: "not a script: step 0 rule 3\n",
        told: "not a script: key 1: the name has 65 bytes, not 1 to 32 (rule 3)",
    },
    Input {
        text: r#"{"members":2,"keys":[{"key":"k0","kind":"gset"},{"key":"k1","kind":"gset"},{"key":"k2","kind":"gset"},{"key":"k3","kind":"gset"},{"key":"k4","kind":"gset"},{"key":"k5","kind":"gset"},{"key":"k6","kind":"gset"},{"key":"k7","kind":"gset"},{"key":"k8","kind":"gset"},{"key":"k9","kind":"gset"},{"key":"k10","kind":"gset"},{"key":"k11","kind":"gset"},{"key":"k12","kind":"gset"},{"key":"k13","kind":"gset"},{"key":"k14","kind":"gset"},{"key":"k15","kind":"gset"},{"key":"k16","kind":"gset"}],"steps":[]}"#,
        written: "not a script: step 0 rule 3\n",
        told: r#"not a script: "keys" has 17 items, not 1 to 16 (rule 3)"#,
    },
    Input {
        text: r#"{"members":2,"keys":[{"key":"a","kind":"orset","durable":"yes"}],"steps":[]}"#,
        written: "not a script: step 0 rule 3\n",
        told: r#"not a script: key 1: "durable" is "yes", not true or false (rule 3)"#,
    },
    Input {
        text: r#"{"members":2,"keys":[{"key":"n","kind":"gcounter"},{"key":"s","kind":"orset"},{"key":"r","kind":"lwwregister"}],"steps":[{"do":"flush","at":0},
{"do":"flush","at":0},
"flush",
{"do":"flush","at":0}]}
"#,
        written: "not a script: step 0 rule 4\n",
        told: r#"not a script: step 3 is "flush", not an object (rule 4)"#,
    },
];

// What breaks a rule of the names of steps.
const NAMES: &[Input] = &[
    Input {
        text: r#"{"members":2,"keys":[{"key":"n","kind":"gcounter"},{"key":"s","kind":"orset"},{"key":"r","kind":"lwwregister"}],"steps":[{"do":"flush","at":0},
{"do":"flush","at":0},
{"do":"updat","at":0,"key":"n","op":"increment","by":1},
{"do":"flush","at":0}]}
"#,
        written: "not a script: step 3 rule 5\n",
        told: r#"not a script: step 3: "do" is "updat", not update, get, flush, gossip, deliver, lose, round, tick, timeout, remove, join, restart, install, settle or threads (rule 5)"#,
    },
    Input {
        text: r#"{"members":2,"keys":[{"key":"n","kind":"gcounter"},{"key":"s","kind":"orset"},{"key":"r","kind":"lwwregister"}],"steps":[{"do":"flush","at":0},
{"do":"flush","at":0},
{"do":"update","at":0,"key":"n","op":"inc","by":1},
{"do":"flush","at":0}]}
"#,
        written: "not a script: step 3 rule 5\n",
        told: r#"not a script: step 3: "op" is "inc", not increment, decrement, add, remove, enable, assign or delete (rule 5)"#,
    },
    Input {
        text: r#"{"members":2,"keys":[{"key":"n","kind":"gcounter"},{"key":"s","kind":"orset"},{"key":"r","kind":"lwwregister"}],"steps":[{"do":"flush","at":0},
{"do":"flush","at":0},
{"do":"update","at":0,"key":"n","op":"disable"},
{"do":"flush","at":0}]}
"#,
        written: "not a script: step 3 rule 5\n",
        told: r#"not a script: step 3: "op" is "disable", not increment, decrement, add, remove, enable, assign or delete (rule 5)"#,
    },
    Input {
        text: r#"{"members":2,"keys":[{"key":"n","kind":"gcounter"},{"key":"s","kind":"orset"},{"key":"r","kind":"lwwregister"}],"steps":[{"do":"flush","at":0},
{"do":"flush","at":0},
{"do":"update","at":0,"key":"n","op":"increment"},
{"do":"flush","at":0}]}
"#,
        written: "not a script: step 3 rule 6\n",
        told: r#"not a script: step 3: "by" is missing (rule 6)"#,
    },
    Input {
        text: r#"{"members":2,"keys":[{"key":"n","kind":"gcounter"},{"key":"s","kind":"orset"},{"key":"r","kind":"lwwregister"}],"steps":[{"do":"flush","at":0},
{"do":"flush","at":0},
{"do":"update","at":0,"key":"n","op":"increment","amount":1},
{"do":"flush","at":0}]}
"#,
        written: "not a script: step 3 rule 6\n",
        told: r#"not a script: step 3: "amount" is no name of an update with "increment", and "by" is missing (rule 6)"#,
    },
    Input {
        text: r#"{"members":2,"keys":[{"key":"n","kind":"gcounter"},{"key":"s","kind":"orset"},{"key":"r","kind":"lwwregister"}],"steps":[{"do":"flush","at":0},
{"do":"flush","at":0},
{"do":"flush","at":0,"level":"all"},
{"do":"flush","at":0}]}
"#,
        written: "not a script: step 3 rule 6\n",
        told: r#"not a script: step 3: "level" is no name of a flush (rule 6)"#,
    },
    Input {
        text: r#"{"members":2,"keys":[{"key":"n","kind":"gcounter"},{"key":"s","kind":"orset"},{"key":"r","kind":"lwwregister"}],"steps":[{"do":"flush","at":0},
{"do":"flush","at":0},
{"do":"flush","at":0,"times":2},
{"do":"flush","at":0}]}
"#,
        written: "not a script: step 3 rule 6\n",
        told: r#"not a script: step 3: "times" is no name of a flush (rule 6)"#,
    },
    Input {
        text: r#"{"members":2,"keys":[{"key":"n","kind":"gcounter"},{"key":"s","kind":"orset"},{"key":"r","kind":"lwwregister"}],"steps":[{"do":"flush","at":0},
{"do":"flush","at":0},
{"do":"flush","at":0,"note":"x"},
{"do":"flush","at":0}]}
"#,
        written: "not a script: step 3 rule 6\n",
        told: r#"not a script: step 3: "note" is no name of a flush (rule 6)"#,
    },
    Input {
        text: r#"{"members":2,"keys":[{"key":"n","kind":"gcounter"},{"key":"s","kind":"orset"},{"key":"r","kind":"lwwregister"}],"steps":[{"do":"flush","at":0},
{"do":"flush","at":0},
{"do":"update","at":0,"key":"s","op":"add","text":"x"},
{"do":"flush","at":0}]}
"#,
        written: "not a script: step 3 rule 6\n",
        told: r#"not a script: step 3: "text" is no name of an update with "add", and "element" is missing (rule 6)"#,
    },
    Input {
        text: r#"{"members":2,"keys":[{"key":"n","kind":"gcounter"},{"key":"s","kind":"orset"},{"key":"r","kind":"lwwregister"}],"steps":[{"do":"flush","at":0},
{"do":"flush","at":0},
{"do":"update","at":0,"key":"r","op":"assign","text":"x"},
{"do":"flush","at":0}]}
"#,
        written: "not a script: step 3 rule 6\n",
        told: r#"not a script: step 3: "now" is missing (rule 6)"#,
    },
    Input {
        text: r#"{"members":2,"keys":[{"key":"n","kind":"gcounter"},{"key":"s","kind":"orset"},{"key":"r","kind":"lwwregister"}],"steps":[{"do":"flush","at":0},
{"do":"flush","at":0},
{"do":"join","id":2},
{"do":"flush","at":0}]}
"#,
        written: "not a script: step 3 rule 6\n",
        told: r#"not a script: step 3: "id" is no name of a join, and "place" is missing (rule 6)"#,
    },
    Input {
        text: r#"{"members":2,"keys":[{"key":"n","kind":"gcounter"},{"key":"s","kind":"orset"},{"key":"r","kind":"lwwregister"}],"steps":[{"do":"flush","at":0},
{"do":"flush","at":0},
{"do":"install","view":1},
{"do":"flush","at":0}]}
"#,
        written: "not a script: step 3 rule 6\n",
        told: r#"not a script: step 3: "at" is missing (rule 6)"#,
    },
];

// What breaks a rule of the values of steps.
const VALUES: &[Input] = &[
    Input {
        text: r#"{"members":2,"keys":[{"key":"n","kind":"gcounter"},{"key":"s","kind":"orset"},{"key":"r","kind":"lwwregister"}],"steps":[{"do":"flush","at":0},
{"do":"flush","at":0},
{"do":"update","at":0,"key":"n","op":"increment","by":"1"},
{"do":"flush","at":0}]}
"#,
        written: "not a script: step 3 rule 10\n",
        told: r#"not a script: step 3: "by" is "1", not a whole number from 1 to 2^63 - 1 (rule 10)"#,
    },
    Input {
        text: r#"{"members":2,"keys":[{"key":"n","kind":"gcounter"},{"key":"s","kind":"orset"},{"key":"r","kind":"lwwregister"}],"steps":[{"do":"flush","at":0},
{"do":"flush","at":0},
{"do":"update","at":0,"key":"n","op":"increment","by":0},
{"do":"flush","at":0}]}
"#,
        written: "not a script: step 3 rule 10\n",
        told: r#"not a script: step 3: "by" is 0, not a whole number from 1 to 2^63 - 1 (rule 10)"#,
    },
    Input {
        text: r#"{"members":2,"keys":[{"key":"n","kind":"gcounter"},{"key":"s","kind":"orset"},{"key":"r","kind":"lwwregister"}],"steps":[{"do":"flush","at":0},
{"do":"flush","at":0},
{"do":"update","at":0,"key":"n","op":"increment","by":-1},
{"do":"flush","at":0}]}
"#,
        written: "not a script: step 3 rule 10\n",
        told: r#"not a script: step 3: "by" is -1, not a whole number from 1 to 2^63 - 1 (rule 10)"#,
    },
    Input {
        text: r#"{"members":2,"keys":[{"key":"n","kind":"gcounter"},{"key":"s","kind":"orset"},{"key":"r","kind":"lwwregister"}],"steps":[{"do":"flush","at":0},
{"do":"flush","at":0},
{"do":"update","at":0,"key":"n","op":"increment","by":9223372036854775808},
{"do":"flush","at":0}]}
"#,
        written: "not a script: step 3 rule 10\n",
        told: r#"not a script: step 3: "by" is 9223372036854775808, not a whole number from 1 to 2^63 - 1 (rule 10)"#,
    },
    Input {
        text: r#"{"members":2,"keys":[{"key":"n","kind":"gcounter"},{"key":"s","kind":"orset"},{"key":"r","kind":"lwwregister"}],"steps":[{"do":"flush","at":0},
{"do":"flush","at":0},
{"do":"update","at":0,"key":"n","op":"increment","by":18446744073709551616},
{"do":"flush","at":0}]}
"#,
        written: "not a script: step 3 rule 10\n",
        told: r#"not a script: step 3: "by" is 1.8446744073709552e+19, not a whole number from 1 to 2^63 - 1 (rule 10)"#,
    },
    Input {
        text: r#"{"members":2,"keys":[{"key":"n","kind":"gcounter"},{"key":"s","kind":"orset"},{"key":"r","kind":"lwwregister"}],"steps":[{"do":"flush","at":0},
{"do":"flush","at":0},
{"do":"update","at":0,"key":"n","op":"increment","by":1.0},
{"do":"flush","at":0}]}
"#,
        written: "not a script: step 3 rule 10\n",
        told: r#"not a script: step 3: "by" is 1.0, not a whole number from 1 to 2^63 - 1 (rule 10)"#,
    },
    Input {
        text: r#"{"members":2,"keys":[{"key":"n","kind":"gcounter"},{"key":"s","kind":"orset"},{"key":"r","kind":"lwwregister"}],"steps":[{"do":"flush","at":0},
{"do":"flush","at":0},
{"do":"update","at":0,"key":"s","op":"add","element":"xxxxxxxxxxxxxxxxxxxxxxxxxxxxxxxxxxxxxxxxxxxxxxxxxxxxxxxxxxxxxxxxx"},
{"do":"flush","at":0}]}
"#,
        written: "not a script: step 3 rule 11\n",
        told: r#"not a script: step 3: "element" has 65 bytes, more than 64 (rule 11)"#,
    },
    Input {
        text: r#"{"members":2,"keys":[{"key":"n","kind":"gcounter"},{"key":"s","kind":"orset"},{"key":"r","kind":"lwwregister"}],"steps":[{"do":"flush","at":0},
{"do":"flush","at":0},
{"do":"update","at":0,"key":"s","op":"add","element":7},
{"do":"flush","at":0}]}
"#,
        written: "not a script: step 3 rule 9\n",
        told: r#"not a script: step 3: "element" is 7, not a text (rule 9)"#,
    },
    Input {
        text: r#"{"members":2,"keys":[{"key":"n","kind":"gcounter"},{"key":"s","kind":"orset"},{"key":"r","kind":"lwwregister"}],"steps":[{"do":"flush","at":0},
{"do":"flush","at":0},
{"do":"get","at":0,"key":"kkkkkkkkkkkkkkkkkkkkkkkkkkkkkkkkkkkkkkkkkkkkkkkkkkkkkkkkkkkkkkkkk"},
{"do":"flush","at":0}]}
"#,
        written: "not a script: step 3 rule 8\n",
        told: "not a script: step 3: the key name has 65 bytes, not 1 to 32 (rule 8)",
    },
    Input {
        text: r#"{"members":2,"keys":[{"key":"n","kind":"gcounter"},{"key":"s","kind":"orset"},{"key":"r","kind":"lwwregister"}],"steps":[{"do":"flush","at":0},
{"do":"flush","at":0},
{"do":"get","at":0,"key":"N"},
{"do":"flush","at":0}]}
"#,
        written: "not a script: step 3 rule 8\n",
        told: r#"not a script: step 3: the key name "N" has a character other than a-z, 0-9, _ and - (rule 8)"#,
    },
    Input {
        text: r#"{"members":2,"keys":[{"key":"n","kind":"gcounter"},{"key":"s","kind":"orset"},{"key":"r","kind":"lwwregister"}],"steps":[{"do":"flush","at":0},
{"do":"flush","at":0},
{"do":"flush","at":"0"},
{"do":"flush","at":0}]}
"#,
        written: "not a script: step 3 rule 7\n",
        told: r#"not a script: step 3: "at" is "0", not a whole number from 0 to 254 (rule 7)"#,
    },
    Input {
        text: r#"{"members":2,"keys":[{"key":"n","kind":"gcounter"},{"key":"s","kind":"orset"},{"key":"r","kind":"lwwregister"}],"steps":[{"do":"flush","at":0},
{"do":"flush","at":0},
{"do":"flush","at":255},
{"do":"flush","at":0}]}
"#,
        written: "not a script: step 3 rule 7\n",
        told: r#"not a script: step 3: "at" is 255, not a whole number from 0 to 254 (rule 7)"#,
    },
    Input {
        text: r#"{"members":2,"keys":[{"key":"n","kind":"gcounter"},{"key":"s","kind":"orset"},{"key":"r","kind":"lwwregister"}],"steps":[{"do":"flush","at":0},
{"do":"flush","at":0},
{"do":"get","at":0,"key":"n","level":"quorum"},
{"do":"flush","at":0}]}
"#,
        written: "not a script: step 3 rule 12\n",
        told: r#"not a script: step 3: "level" is "quorum", not local, majority, all, {"majority":c} or {"to":n} (rule 12)"#,
    },
    Input {
        text: r#"{"members":2,"keys":[{"key":"n","kind":"gcounter"},{"key":"s","kind":"orset"},{"key":"r","kind":"lwwregister"}],"steps":[{"do":"flush","at":0},
{"do":"flush","at":0},
{"do":"get","at":0,"key":"n","level":{"to":0}},
{"do":"flush","at":0}]}
"#,
        written: "not a script: step 3 rule 12\n",
        told: r#"not a script: step 3: "to" of "level" is 0, not a whole number from 1 to 64 (rule 12)"#,
    },
    Input {
        text: r#"{"members":2,"keys":[{"key":"n","kind":"gcounter"},{"key":"s","kind":"orset"},{"key":"r","kind":"lwwregister"}],"steps":[{"do":"flush","at":0},
{"do":"flush","at":0},
{"do":"deliver","from":0,"to":1,"index":null},
{"do":"flush","at":0}]}
"#,
        written: "not a script: step 3 rule 7\n",
        told: r#"not a script: step 3: "index" is null, not a whole number from 0 to 2^32 - 1 (rule 7)"#,
    },
    Input {
        text: r#"{"members":2,"keys":[{"key":"n","kind":"gcounter"},{"key":"s","kind":"orset"},{"key":"r","kind":"lwwregister"}],"steps":[{"do":"flush","at":0},
{"do":"flush","at":0},
{"do":"update","at":"x","key":"N","op":"increment","by":0},
{"do":"flush","at":0}]}
"#,
        written: "not a script: step 3 rule 7\n",
        told: r#"not a script: step 3: "at" is "x", not a whole number from 0 to 254 (rule 7)"#,
    },
    Input {
        text: r#"{"members":2,"keys":[{"key":"n","kind":"gcounter"},{"key":"s","kind":"orset"},{"key":"r","kind":"lwwregister"}],"steps":[{"do":"flush","at":0},
{"do":"flush","at":0},
{"do":"join","place":9},
{"do":"flush","at":0}]}
"#,
        written: "not a script: step 3 rule 7\n",
        told: r#"not a script: step 3: "place" is 9, not a whole number from 0 to 7 (rule 7)"#,
    },
];

// What breaks a rule of clients.
const CLIENTS: &[Input] = &[
    Input {
        text: r#"{"members":2,"keys":[{"key":"n","kind":"gcounter"},{"key":"s","kind":"orset"},{"key":"r","kind":"lwwregister"}],"steps":[{"do":"flush","at":0},
{"do":"flush","at":0},
{"do":"threads","clients":[[{"do":"flush","at":0}]]},
{"do":"flush","at":0}]}
"#,
        written: "not a script: step 3 rule 14\n",
        told: r#"not a script: step 3: only the word "run" plays a step with clients (rule 14)"#,
    },
    Input {
        text: r#"{"members":2,"keys":[{"key":"n","kind":"gcounter"},{"key":"s","kind":"orset"},{"key":"r","kind":"lwwregister"}],"steps":[{"do":"flush","at":0},
{"do":"flush","at":0},
{"do":"threads","clients":[[{"do":"flush","at":0}],[{"do":"flush","at":0},{"do":"update","at":0,"key":"n","op":"increment","by":1,"tmes":2}]]},
{"do":"flush","at":0}]}
"#,
        written: "not a script: step 3 rule 13\n",
        told: r#"not a script: step 3, client 1, command 2: "tmes" is no name of an update with "increment" (rule 13: rule 6)"#,
    },
    Input {
        text: r#"{"members":2,"keys":[{"key":"n","kind":"gcounter"},{"key":"s","kind":"orset"},{"key":"r","kind":"lwwregister"}],"steps":[{"do":"flush","at":0},
{"do":"flush","at":0},
{"do":"threads","clients":[[{"do":"flush","at":0,"times":1025}]]},
{"do":"flush","at":0}]}
"#,
        written: "not a script: step 3 rule 13\n",
        told: r#"not a script: step 3, client 0, command 1: "times" is 1025, not a whole number from 1 to 1024 (rule 13)"#,
    },
];

// What breaks no rule.
const SLIPS: &[Input] = &[
    Input {
        text: r#"{"members":2,"keys":[{"key":"n","kind":"gcounter"},{"key":"s","kind":"orset"},{"key":"r","kind":"lwwregister"}],"steps":[{"do":"flush","at":0},
{"do":"flush","at":0},
{"do":"get","at":0,"key":"nn"},
{"do":"flush","at":0}]}
"#,
        written: "1 flush 0 done
2 flush 0 done
3 get 0 nn unknown key
4 flush 0 done
final view 0
member 0 place 0 view 0
n - known - marks -
r - known - marks -
s - known - marks -
member 1 place 1 view 0
n - known - marks -
r - known - marks -
s - known - marks -
",
        told: r#"played, but look at step 3: "key" is "nn", which is not declared"#,
    },
    Input {
        text: r#"{"members":2,"keys":[{"key":"n","kind":"gcounter"},{"key":"s","kind":"orset"},{"key":"r","kind":"lwwregister"}],"steps":[{"do":"flush","at":0},
{"do":"flush","at":0},
{"do":"flush","at":5},
{"do":"flush","at":0}]}
"#,
        written: "1 flush 0 done
2 flush 0 done
3 flush 5 gone
4 flush 0 done
final view 0
member 0 place 0 view 0
n - known - marks -
r - known - marks -
s - known - marks -
member 1 place 1 view 0
n - known - marks -
r - known - marks -
s - known - marks -
",
        told: r#"played, but look at step 3: "at" is 5, and the last member so far is 1"#,
    },
    Input {
        text: r#"{"members":2,"keys":[{"key":"n","kind":"gcounter"},{"key":"s","kind":"orset"},{"key":"r","kind":"lwwregister"}],"steps":[{"do":"flush","at":0},
{"do":"flush","at":0},
{"do":"update","at":0,"key":"n","op":"add","element":"x"},
{"do":"flush","at":0}]}
"#,
        written: "1 flush 0 done
2 flush 0 done
3 update 0 n wrong kind
4 flush 0 done
final view 0
member 0 place 0 view 0
n - known - marks -
r - known - marks -
s - known - marks -
member 1 place 1 view 0
n - known - marks -
r - known - marks -
s - known - marks -
",
        told: r#"played, but look at step 3: "op" is "add", and the kind of "n" is gcounter"#,
    },
    Input {
        text: r#"{"members":2,"keys":[{"key":"n","kind":"gcounter"},{"key":"s","kind":"orset"},{"key":"r","kind":"lwwregister"}],"steps":[{"do":"flush","at":0},
{"do":"flush","at":0},
{"do":"deliver","from":0,"to":0},
{"do":"flush","at":0}]}
"#,
        written: "1 flush 0 done
2 flush 0 done
3 deliver 0>0 0 no such message
4 flush 0 done
final view 0
member 0 place 0 view 0
n - known - marks -
r - known - marks -
s - known - marks -
member 1 place 1 view 0
n - known - marks -
r - known - marks -
s - known - marks -
",
        told: r#"played, but look at step 3: "to" is 0, which is the sender"#,
    },
    Input {
        text: r#"{"members":2,"keys":[{"key":"n","kind":"gcounter"},{"key":"s","kind":"orset"},{"key":"r","kind":"lwwregister"}],"steps":[{"do":"flush","at":0},
{"do":"flush","at":0},
{"do":"gossip","at":0,"to":0},
{"do":"flush","at":0}]}
"#,
        written: "1 flush 0 done
2 flush 0 done
3 gossip 0 0 not a peer
4 flush 0 done
final view 0
member 0 place 0 view 0
n - known - marks -
r - known - marks -
s - known - marks -
member 1 place 1 view 0
n - known - marks -
r - known - marks -
s - known - marks -
",
        told: r#"played, but look at step 3: "to" is 0, which is the sender"#,
    },
];

#[test]
fn tells_a_person_of_no_json(rt: HostRuntime) -> Result<(), Fail> {
    compare(&rt, rt.alloc(), NO_JSON)
}

#[test]
fn tells_a_person_of_scripts_as_a_whole(rt: HostRuntime) -> Result<(), Fail> {
    compare(&rt, rt.alloc(), WHOLES)
}

#[test]
fn tells_a_person_of_names_of_steps(rt: HostRuntime) -> Result<(), Fail> {
    compare(&rt, rt.alloc(), NAMES)
}

#[test]
fn tells_a_person_of_values_of_steps(rt: HostRuntime) -> Result<(), Fail> {
    compare(&rt, rt.alloc(), VALUES)
}

#[test]
fn tells_a_person_of_clients(rt: HostRuntime) -> Result<(), Fail> {
    compare(&rt, rt.alloc(), CLIENTS)
}

#[test]
fn tells_a_person_of_slips(rt: HostRuntime) -> Result<(), Fail> {
    compare(&rt, rt.alloc(), SLIPS)
}

// An element in Latin-1.
#[test]
fn tells_a_person_of_another_encoding(rt: HostRuntime) -> Result<(), Fail> {
    let text =
        b"{\"members\":2,\"keys\":[{\"key\":\"n\",\"kind\":\"gcounter\"},{\"key\":\"s\",\"kind\":\"orset\"},{\"key\":\"r\",\"kind\":\"lwwregister\"}],\"steps\":[{\"do\":\"update\",\"at\":0,\"key\":\"s\",\"op\":\"add\",\"element\":\"caf\xe9\"}]}";
    let told = "not json: invalid JSON at line 1 column 179, where a byte stands that is not UTF-8";
    compare_bytes(&rt, rt.alloc(), text, "not json\n", told)
}
