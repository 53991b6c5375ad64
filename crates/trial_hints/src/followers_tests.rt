//! Hints for steps by which clients follow keys.

use crate::rows::{STEPS, compare};
use script_reading::Clients;
use std::test::Fail;

const FOLLOWERS: &str = r#"{"do":"subscibe","at":0,"client":1,"key":"n"}
1: "do" is "subscibe", not update, get, flush, gossip, deliver, lose, round, tick, timeout, remove, join, restart, install, settle, subscribe or unsubscribe (rule 5)
{"do":"subscribe","at":0,"key":"n"}
1: "client" is missing (rule 6)
{"do":"unsubscribe","at":0,"clients":1,"key":"n"}
1: "clients" is no name of an unsubscribe, and "client" is missing (rule 6)
{"do":"subscribe","at":255,"client":1,"key":"n"}
1: "at" is 255, not a whole number from 0 to 254 (rule 7)
{"do":"unsubscribe","at":0,"client":1,"key":7}
1: "key" is 7, not a text (rule 8)
{"do":"subscribe","at":0,"client":4294967296,"key":"n"}
1: "client" is 4294967296, not a whole number from 0 to 2^32 - 1 (rule 15)
{"do":"threads","clients":[[{"do":"flush","at":0}]]}
1: only the word "run" plays a step with clients (rule 14)"#;

const REFUSED: &str = r#"{"do":"subscribe","at":0,"client":1,"key":"n"}
1: only the word "watch" plays a step by which a client follows a key (rule 5)
{"do":"unsubscribe"}
1: only the word "watch" plays a step by which a client follows a key (rule 5)"#;

#[test]
fn tells_of_clients_that_follow_keys(rt: HostRuntime) -> Result<(), Fail> {
    compare(&rt, rt.alloc(), Clients::Following, STEPS, FOLLOWERS)
}

#[test]
fn tells_of_such_clients_where_none_may_be(rt: HostRuntime) -> Result<(), Fail> {
    compare(&rt, rt.alloc(), Clients::Refused, STEPS, REFUSED)?;
    compare(&rt, rt.alloc(), Clients::Allowed, STEPS, REFUSED)
}
