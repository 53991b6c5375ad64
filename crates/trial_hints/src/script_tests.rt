//! Hints for texts that are no JSON, for scripts as a whole and for their keys.

use crate::rows::{KEYS, SCRIPT, compare};
use script_hints::hint;
use script_reading::Clients;
use std::test::Fail;

const TEXTS: &str = r#"{"members":1e999}
not json: number out of range at line 1 column 17, where } stands behind a number
{"members":1,}
not json: invalid JSON at line 1 column 14, where } stands behind a comma
{"members":
not json: EOF while parsing at line 1 column 11, where the text ends with something still open
{'members':1}
not json: invalid JSON at line 1 column 2, where ' stands
{"members":“1”}
not json: invalid JSON at line 1 column 12, where a character beyond ASCII stands
{"members":1 "keys":[]}
not json: invalid JSON at line 1 column 14, where " stands
{"members":"\ud800"}
not json: invalid JSON at line 1 column 12, where a text begins that has an escape or a character which JSON does not allow
{"members":1]
not json: invalid JSON at line 1 column 13, where ] stands behind a number
{"members":tru}
not json: invalid JSON at line 1 column 12, where t stands
[[[[[[[[[[[[[[[[[[[[[[[[[[[[[[[[[[[[[[[[[[[[[[[[[[[[[[[[[[[[[[[[[[[[[[[[[[[[[[[[[[[[[[[[[[[[[[[[[[[[[[[[[[[[[[[[[[[[[[[[[[[[[[[[]
not json: invalid JSON at line 1 column 129, where brackets are nested deeper than 127
[1]
not a script: the script is [1], not an object (rule 1)
{}
not a script: "members" is missing (rule 1)
{"members":1,"keys":[],"Steps":[]}
not a script: "Steps" is no name of a script, and "steps" is missing (rule 1)
{"members":1,"keys":[],"steps":[],"b":0,"a":0}
not a script: "a" is no name of a script (rule 1)
{"members":1,"keys":[],"steps":[],"a \"name\"\nof more than 24 bytes":0}
not a script: "a \"name\"\nof more tha... is no name of a script (rule 1)
{"members":9,"keys":[],"steps":[]}
not a script: "members" is 9, not a whole number from 1 to 8 (rule 2)
{"members":1,"keys":{"n":"gcounter","m":"pncounter"},"steps":[]}
not a script: "keys" is {"m":"pncounter","n":"gc..., not a list (rule 3)
{"members":1,"keys":[],"steps":[]}
not a script: "keys" has 0 items, not 1 to 16 (rule 3)
{"members":1,"keys":[{"key":"n","kind":"flag"}],"steps":{}}
not a script: "steps" is {}, not a list (rule 4)
{"members":1,"keys":[{"key":"n","kind":"flag"}],"steps":[{},{},null]}
not a script: step 3 is null, not an object (rule 4)"#;

const DECLARED: &str = r#""n"
key 1 is "n", not an object (rule 3)
{"kind":"flag"}
key 1: "key" is missing (rule 3)
{"key":"n","kind":"flag"},{"name":"m","kind":"flag"}
key 2: "name" is no name of a key, and "key" is missing (rule 3)
{"key":"n","kind":"flag","level":"all"}
key 1: "level" is no name of a key (rule 3)
{"key":7,"kind":"flag"}
key 1: "key" is 7, not a text (rule 3)
{"key":"","kind":"flag"}
key 1: the name has 0 bytes, not 1 to 32 (rule 3)
{"key":"abcdefghijklmnopqrstuvwxyz0123456","kind":"flag"}
key 1: the name has 33 bytes, not 1 to 32 (rule 3)
{"key":"cartAnn","kind":"flag"}
key 1: the name "cartAnn" has a character other than a-z, 0-9, _ and - (rule 3)
{"key":"n","kind":"flag"},{"key":"m","kind":"flag"},{"key":"n","kind":"map"}
key 3: the name "n" is that of key 1 (rule 3)
{"key":"n","kind":"GCounter"}
key 1: "kind" is "GCounter", not gcounter, pncounter, gset, flag, lwwregister or orset (rule 3)
{"key":"n","kind":null}
key 1: "kind" is null, not gcounter, pncounter, gset, flag, lwwregister or orset (rule 3)
{"key":"n","kind":"flag","durable":null}
key 1: "durable" is null, not true or false (rule 3)"#;

#[test]
fn tells_of_scripts(rt: HostRuntime) -> Result<(), Fail> {
    compare(&rt, rt.alloc(), Clients::Allowed, SCRIPT, TEXTS)
}

#[test]
fn tells_of_keys(rt: HostRuntime) -> Result<(), Fail> {
    compare(&rt, rt.alloc(), Clients::Refused, KEYS, DECLARED)
}

// Of what is a script nothing is told. Bytes that are no UTF-8, and lines, are counted.
#[test]
fn tells_of_bytes(rt: HostRuntime) -> Result<(), Fail> {
    let alloc = rt.alloc();
    let script = br#"{"members":1,"keys":[{"key":"n","kind":"flag"}],"steps":[]}"#;
    assert!(rt; hint(alloc, Clients::Refused, script).is_none());
    for (bytes, told) in [
        (
            b"".as_slice(),
            "not json: EOF while parsing at line 1 column 0, since the text is empty",
        ),
        (
            b"[\n\n \xff]",
            "not json: invalid JSON at line 3 column 2, where a byte stands that is not UTF-8",
        ),
    ] {
        let hint = hint(alloc, Clients::Refused, bytes).ok_or("no hint")?;
        assert_eq!(rt; hint.as_str(), told);
    }
    Ok(())
}
