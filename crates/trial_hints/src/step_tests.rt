//! Hints for steps.

use crate::rows::{STEPS, compare};
use script_reading::Clients;
use std::test::Fail;

const FORMS: &str = r#"{}
1: "do" is missing (rule 5)
{"do":"round"},{"do":7}
2: "do" is 7, not update, get, flush, gossip, deliver, lose, round, tick, timeout, remove, join, restart, install, settle or threads (rule 5)
{"do":"fly"}
1: "do" is "fly", not update, get, flush, gossip, deliver, lose, round, tick, timeout, remove, join, restart, install, settle or threads (rule 5)
{"do":"update","at":255}
1: "op" is missing (rule 5)
{"do":"update","op":"disable"}
1: "op" is "disable", not increment, decrement, add, remove, enable, assign or delete (rule 5)
{"do":"update","op":"increment","at":0,"key":"n"}
1: "by" is missing (rule 6)
{"do":"update","op":"increment","at":0,"key":"n","amount":1}
1: "amount" is no name of an update with "increment", and "by" is missing (rule 6)
{"do":"update","op":"decrement","at":0,"key":"n","by":1,"times":2}
1: "times" is no name of an update with "decrement" (rule 6)
{"do":"update","op":"add","at":0,"key":"n","text":"a"}
1: "text" is no name of an update with "add", and "element" is missing (rule 6)
{"do":"update","op":"remove","at":0,"key":"n","id":0}
1: "id" is no name of an update with "remove", and "element" is missing (rule 6)
{"do":"update","op":"enable","key":"n","on":true}
1: "on" is no name of an update with "enable", and "at" is missing (rule 6)
{"do":"update","op":"assign","at":0,"key":"n","text":"a","clock":1}
1: "clock" is no name of an update with "assign", and "now" is missing (rule 6)
{"do":"update","op":"delete","at":0,"key":"n","element":"a"}
1: "element" is no name of an update with "delete" (rule 6)
{"do":"get","at":0,"to":1}
1: "to" is no name of a get, and "key" is missing (rule 6)
{"do":"flush"}
1: "at" is missing (rule 6)
{"do":"flush","at":0,"level":"all"}
1: "level" is no name of a flush (rule 6)
{"do":"gossip","at":0,"from":1}
1: "from" is no name of a gossip, and "to" is missing (rule 6)
{"do":"deliver","at":0,"to":1,"index":0}
1: "at" is no name of a deliver, and "from" is missing (rule 6)
{"do":"lose","from":0,"to":1,"index":0}
1: "index" is no name of a lose (rule 6)
{"do":"round","at":0}
1: "at" is no name of a round (rule 6)
{"do":"tick","key":"n"}
1: "key" is no name of a tick, and "at" is missing (rule 6)
{"do":"timeout","at":0,"by":1}
1: "by" is no name of a timeout, and "op" is missing (rule 6)
{"do":"remove","at":0}
1: "at" is no name of a remove, and "id" is missing (rule 6)
{"do":"join","id":0}
1: "id" is no name of a join, and "place" is missing (rule 6)
{"do":"restart","place":0}
1: "place" is no name of a restart, and "id" is missing (rule 6)
{"do":"install","at":0,"number":1}
1: "number" is no name of an install, and "view" is missing (rule 6)
{"do":"settle","note":""}
1: "note" is no name of a settle (rule 6)
{"do":"threads","client":[]}
1: "client" is no name of a threads step, and "clients" is missing (rule 6)"#;

const VALUES: &str = r#"{"do":"flush","at":255}
1: "at" is 255, not a whole number from 0 to 254 (rule 7)
{"do":"get","at":"0","key":"N","level":"most"}
1: "at" is "0", not a whole number from 0 to 254 (rule 7)
{"do":"gossip","at":0,"to":-1}
1: "to" is -1, not a whole number from 0 to 254 (rule 7)
{"do":"lose","from":0.5,"to":255}
1: "from" is 0.5, not a whole number from 0 to 254 (rule 7)
{"do":"remove","id":null}
1: "id" is null, not a whole number from 0 to 254 (rule 7)
{"do":"join","place":8}
1: "place" is 8, not a whole number from 0 to 7 (rule 7)
{"do":"deliver","from":0,"to":1,"index":4294967296}
1: "index" is 4294967296, not a whole number from 0 to 2^32 - 1 (rule 7)
{"do":"install","at":0,"view":[1,2]}
1: "view" is [1,2], not a whole number from 0 to 2^32 - 1 (rule 7)
{"do":"timeout","at":0,"op":"increment"}
1: "op" is "increment", not a whole number from 0 to 2^32 - 1 (rule 7)
{"do":"get","at":0,"key":{"n":1}}
1: "key" is {"n":1}, not a text (rule 8)
{"do":"get","at":0,"key":""}
1: the key name has 0 bytes, not 1 to 32 (rule 8)
{"do":"get","at":0,"key":"n m"}
1: the key name "n m" has a character other than a-z, 0-9, _ and - (rule 8)
{"do":"update","op":"add","at":0,"key":"n","element":false}
1: "element" is false, not a text (rule 9)
{"do":"update","op":"assign","at":0,"key":"n","text":7,"now":-1}
1: "text" is 7, not a text (rule 9)
{"do":"update","op":"increment","at":0,"key":"n","by":0,"level":"most"}
1: "by" is 0, not a whole number from 1 to 2^63 - 1 (rule 10)
{"do":"update","op":"decrement","at":0,"key":"n","by":9223372036854775808}
1: "by" is 9223372036854775808, not a whole number from 1 to 2^63 - 1 (rule 10)
{"do":"update","op":"assign","at":0,"key":"n","text":"a","now":1.0}
1: "now" is 1.0, not a whole number from 0 to 2^63 - 1 (rule 10)
{"do":"update","op":"remove","at":0,"key":"n","element":"éééééééééééééééééééééééééééééééé2"}
1: "element" has 65 bytes, more than 64 (rule 11)
{"do":"update","op":"assign","at":0,"key":"n","text":"0123456789012345678901234567890123456789012345678901234567890123456","now":1}
1: "text" has 67 bytes, more than 64 (rule 11)
{"do":"get","at":0,"key":"n","level":"quorum"}
1: "level" is "quorum", not local, majority, all, {"majority":c} or {"to":n} (rule 12)
{"do":"get","at":0,"key":"n","level":null}
1: "level" is null, not local, majority, all, {"majority":c} or {"to":n} (rule 12)
{"do":"get","at":0,"key":"n","level":{"to":0}}
1: "to" of "level" is 0, not a whole number from 1 to 64 (rule 12)
{"do":"get","at":0,"key":"n","level":{"majority":65}}
1: "majority" of "level" is 65, not a whole number from 0 to 64 (rule 12)
{"do":"get","at":0,"key":"n","level":{"to":1,"majority":0}}
1: "level" is {"majority":0,"to":1}, not local, majority, all, {"majority":c} or {"to":n} (rule 12)"#;

#[test]
fn tells_of_forms(rt: HostRuntime) -> Result<(), Fail> {
    compare(&rt, rt.alloc(), Clients::Allowed, STEPS, FORMS)
}

#[test]
fn tells_of_values(rt: HostRuntime) -> Result<(), Fail> {
    compare(&rt, rt.alloc(), Clients::Refused, STEPS, VALUES)
}
