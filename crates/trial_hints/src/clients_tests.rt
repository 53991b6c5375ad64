//! Hints for steps with clients.

use crate::rows::{CLIENTS, compare};
use script_reading::Clients;
use std::test::Fail;

const ROWS: &str = r#"{"0":[{"do":"flush","at":0}]}
: "clients" is {"0":[{"at":0,"do":"flus..., not a list (rule 13)
[]
: "clients" has 0 items, not 1 to 8 (rule 13)
[[{"do":"flush","at":0}],{"do":"flush","at":0}]
, client 1 is {"at":0,"do":"flush"}, not a list (rule 13)
[[]]
, client 0 has 0 commands, not 1 to 1024 (rule 13)
[[{"do":"flush","at":0,"times":1000},{"do":"tick","at":0,"times":25}]]
, client 0 has 1025 commands counted with their times, not 1 to 1024 (rule 13)
[[{"do":"flush","at":0,"times":1000},{"do":"flush","at":0},7]]
, client 0, command 3 is 7, not an object (rule 13)
[[{"do":"round"}]]
, client 0, command 1: "do" is "round", not update, get, flush, gossip, tick or install (rule 13)
[[{"do":7,"at":255}]]
, client 0, command 1: "do" is 7, not update, get, flush, gossip, tick or install (rule 13)
[[{"at":0}]]
, client 0, command 1: "do" is missing (rule 13: rule 5)
[[{"do":"update"}]]
, client 0, command 1: "op" is missing (rule 13: rule 5)
[[{"do":"tick","at":0,"times":2}],[{"do":"get","at":0,"key":"n"},{"do":"get","at":0,"key":"n","tmes":2}]]
, client 1, command 2: "tmes" is no name of a get (rule 13: rule 6)
[[{"do":"gossip","at":0,"to":255,"times":0}]]
, client 0, command 1: "to" is 255, not a whole number from 0 to 254 (rule 13: rule 7)
[[{"do":"install","at":0,"view":0,"times":0}]]
, client 0, command 1: "times" is 0, not a whole number from 1 to 1024 (rule 13)
[[{"do":"install","at":0,"view":0,"times":1025}]]
, client 0, command 1: "times" is 1025, not a whole number from 1 to 1024 (rule 13)"#;

const REFUSED: &str = r#"[[{"do":"flush","at":0}]]
: only the word "run" plays a step with clients (rule 14)
[[{"do":"flush","at":255}]]
, client 0, command 1: "at" is 255, not a whole number from 0 to 254 (rule 13: rule 7)"#;

#[test]
fn tells_of_clients(rt: HostRuntime) -> Result<(), Fail> {
    compare(&rt, rt.alloc(), Clients::Allowed, CLIENTS, ROWS)
}

#[test]
fn tells_of_clients_that_are_refused(rt: HostRuntime) -> Result<(), Fail> {
    compare(&rt, rt.alloc(), Clients::Refused, CLIENTS, REFUSED)
}
