//! Scripts whose one client leaves no choice, word for word.

use crate::checking::compare;
use std::process::Abort;
use std::test::*;
use top_call::Status;
use trial_rows::{called, keepers, ran};

const ONE_CLIENT: &str =
    r#"{"members":3,"keys":[{"key":"n","kind":"gcounter"}],"steps":[{"do":"threads","clients":[[
{"do":"update","at":0,"key":"n","op":"increment","by":1,"level":"majority"},{"do":"get","at":1,"key":"n"},{"do":"get","at":0,"key":"n"}]]}]}"#;

const OTHER_COMMANDS: &str =
    r#"{"members":2,"keys":[{"key":"n","kind":"gcounter"}],"steps":[{"do":"threads","clients":[[
{"do":"update","at":0,"key":"n","op":"increment","by":2},{"do":"flush","at":0},{"do":"get","at":1,"key":"n"},
{"do":"gossip","at":1,"to":0},{"do":"tick","at":0},{"do":"install","at":0,"view":0}]]}]}"#;

// Member 0 answers the gossip in the turn that follows it, and member 1 hears that in the next turn.
const LATER_TURN: &str =
    r#"{"members":2,"keys":[{"key":"n","kind":"gcounter"}],"steps":[{"do":"threads","clients":[[
{"do":"update","at":0,"key":"n","op":"increment","by":2},{"do":"gossip","at":1,"to":0},{"do":"get","at":1,"key":"n"},
{"do":"get","at":1,"key":"n"},{"do":"flush","at":1},{"do":"get","at":1,"key":"n"}]]}]}"#;

const FAILING_STORE: &str =
    r#"{"members":2,"keys":[{"key":"d","kind":"gcounter","durable":true}],"steps":[{"do":"threads","clients":[[
{"do":"update","at":0,"key":"d","op":"increment","by":1,"level":"majority"}]]}]}"#;

const REFUSED: &str =
    r#"{"members":2,"keys":[{"key":"n","kind":"gcounter"}],"steps":[{"do":"join","place":2},{"do":"threads","clients":[[
{"do":"flush","at":5},{"do":"install","at":0,"view":7},{"do":"install","at":5,"view":7},{"do":"install","at":0,"view":1},{"do":"tick","at":1},
{"do":"update","at":1,"key":"n","op":"add","element":"x"},{"do":"get","at":1,"key":"m"},{"do":"get","at":1,"key":"n","level":{"to":3}}]]}]}"#;

const DELETED: &str =
    r#"{"members":3,"keys":[{"key":"s","kind":"gset"}],"steps":[{"do":"threads","clients":[[
{"do":"update","at":2,"key":"s","op":"add","element":"x"},{"do":"update","at":0,"key":"s","op":"delete","level":"majority"},
{"do":"get","at":1,"key":"s"},{"do":"get","at":2,"key":"s","level":"majority"},{"do":"get","at":2,"key":"s"},
{"do":"update","at":2,"key":"s","op":"add","element":"y"}]]}]}"#;

const WITHOUT_CLIENTS: &str =
    r#"{"members":1,"keys":[{"key":"n","kind":"gcounter"}],"steps":[{"do":"update","at":0,"key":"n","op":"increment","by":7}]}"#;

const NO_CLIENT: &str =
    r#"{"members":1,"keys":[{"key":"n","kind":"gcounter"}],"steps":[{"do":"round"},{"do":"threads","clients":[]}]}"#;

#[test]
fn one_client_in_a_thread(rt: HostRuntime) -> Result<(), Fail> {
    compare(
        &rt,
        rt.alloc(),
        ONE_CLIENT,
        &[],
        "1 client 0 update 0 n pending 0 sent 1:write 2:write finished 0 done\n1 client 0 get 1 n value 1\n\
        1 client 0 get 0 n value 1\nfinal view 0\nmember 0 place 0 view 0\nn 1 known 0:1 marks -\n\
        member 1 place 1 view 0\nn 1 known 0:1 marks -\nmember 2 place 2 view 0\nn 1 known 0:1 marks -\n",
    )
}

#[test]
fn other_commands_in_a_thread(rt: HostRuntime) -> Result<(), Fail> {
    compare(
        &rt,
        rt.alloc(),
        OTHER_COMMANDS,
        &[],
        "1 client 0 update 0 n done\n1 client 0 flush 0 done sent 1:deltas/1/0\n1 client 0 get 1 n value 2\n\
        1 client 0 gossip 1 0 done sent 0:status/1\n1 client 0 tick 0 done\n\
        1 client 0 install 0 view 0 old view\nfinal view 0\nmember 0 place 0 view 0\nn 2 known 0:1 marks -\n\
        member 1 place 1 view 0\nn 2 known 0:1 marks -\n",
    )
}

// A turn follows a command that sent something or may have, and only one; none follows a get that sent nothing.
#[test]
fn one_turn_follows_what_was_sent(rt: HostRuntime) -> Result<(), Fail> {
    compare(
        &rt,
        rt.alloc(),
        LATER_TURN,
        &[],
        "1 client 0 update 0 n done\n1 client 0 gossip 1 0 done sent 0:status/0\n1 client 0 get 1 n not found\n\
        1 client 0 get 1 n not found\n1 client 0 flush 1 done\n1 client 0 get 1 n value 2\n\
        final view 0\nmember 0 place 0 view 0\nn 2 known 0:1 marks -\n\
        member 1 place 1 view 0\nn 2 known 0:1 marks -\n",
    )
}

#[test]
fn an_update_times_out_where_the_other_store_fails(rt: HostRuntime) -> Result<(), Fail> {
    compare(
        &rt,
        rt.alloc(),
        FAILING_STORE,
        &[1],
        "1 client 0 update 0 d pending 0 sent 1:write finished 0 timed out\nfinal view 0\n\
        member 0 place 0 view 0\nd 1 known 0:1 marks -\nmember 1 place 1 view 0\nd 1 known 0:1 marks -\n",
    )
}

#[test]
fn commands_are_refused(rt: HostRuntime) -> Result<(), Fail> {
    compare(
        &rt,
        rt.alloc(),
        REFUSED,
        &[],
        "1 join 2 id 2 view 1\n2 client 0 flush 5 gone\n2 client 0 install 0 view 7 no such view\n2 client 0 install 5 view 7 gone\n\
        2 client 0 install 0 view 1 installed\n2 client 0 tick 1 not leader 0\n2 client 0 update 1 n wrong kind\n\
        2 client 0 get 1 m unknown key\n2 client 0 get 1 n too few\nfinal view 1\n\
        member 0 place 0 view 1\nn - known - marks -\nmember 1 place 1 view 0\nn - known - marks -\n\
        member 2 place 2 view 1\nn - known - marks -\n",
    )
}

#[test]
fn a_client_deletes_a_key(rt: HostRuntime) -> Result<(), Fail> {
    compare(
        &rt,
        rt.alloc(),
        DELETED,
        &[],
        "1 client 0 update 2 s done\n1 client 0 update 0 s pending 0 sent 1:write 2:write finished 0 done\n\
        1 client 0 get 1 s deleted\n1 client 0 get 2 s pending 0 sent 0:read 1:read finished 0 deleted\n\
        1 client 0 get 2 s deleted\n1 client 0 update 2 s deleted\nfinal view 0\n\
        member 0 place 0 view 0\ns deleted known 0:1 marks -\nmember 1 place 1 view 0\ns deleted known 0:1 marks -\n\
        member 2 place 2 view 0\ns deleted known 0:1 2:1 marks -\n",
    )
}

#[test]
fn runs_a_script_without_clients(rt: HostRuntime) -> Result<(), Fail> {
    compare(
        &rt,
        rt.alloc(),
        WITHOUT_CLIENTS,
        &[],
        "1 update 0 n done\nfinal view 0\nmember 0 place 0 view 0\nn 7 known 0:1 marks -\n",
    )
}

#[test]
fn refuses_a_step_without_clients(rt: HostRuntime) -> Result<(), Fail> {
    let alloc = rt.alloc();
    let (status, sink) = ran(&rt, alloc, NO_CLIENT, keepers(alloc, 0, &[])?)?;
    assert_eq!(&rt; status, Status::NotAScript);
    assert!(&rt; sink.bytes() == b"not a script: step 2 rule 13\n".as_slice());
    Ok(())
}

#[test]
fn refuses_words_of_which_the_first_would_do(rt: HostRuntime) -> Result<(), Fail> {
    let alloc = rt.alloc();
    for line in ["plain extra", "run extra", "run ", "Run"] {
        let (status, sink) = called(&rt, alloc, line, ONE_CLIENT, keepers(alloc, 0, &[])?)?;
        assert_eq!(&rt; status, Status::Usage, "at {line}");
        assert!(&rt; sink.bytes() == b"bad words\n".as_slice(), "at {line}");
    }
    Ok(())
}
