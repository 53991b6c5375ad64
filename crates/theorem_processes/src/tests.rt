use crate::a_post_is_taken_twice;
use base_bytes::Text;
use data_value::Data;
use member_node::KeyDecl;
use model_kinds::{Kind, Op};
use std::rt::HostRuntime;
use std::test::Fail;

#[test]
fn there_are_members_that_meet_the_premises(rt: HostRuntime) -> Result<(), Fail> {
    let (name, key) = (Text::new("n")?, Text::new("n")?);
    let keys: [KeyDecl<Data>; 1] = [KeyDecl {
        key: name,
        kind: Kind::GCounter,
        durable: false,
    }];
    match a_post_is_taken_twice::<Data>(rt.alloc(), &keys, key, Op::Increment(1)) {
        Some((_one, _other)) => Ok(()),
        None => Err("no members".into()),
    }
}
