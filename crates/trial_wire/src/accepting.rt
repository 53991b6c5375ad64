use crate::rows::{COUNTED, DELETE, FRESH, GOSSIP, LATER, STORED, TOOK};
use base_vectors::Id;
use data_delta_codec::SpelledDelta;
use data_value::Data;
use member_acceptance::accepts;
use member_codec::{read_message, read_view};
use member_views::View;
use std::alloc::Global;
use std::test::Fail;
use trial_parts::bytes_of;

fn identity(number: u8) -> Result<Id, Fail> {
    match Id::new(number) {
        Some(id) => Ok(id),
        None => Err("no identity".into()),
    }
}

/// View 3, of identities 0, 2 and 3.
fn later(alloc: Global) -> Result<View, Fail> {
    let [bytes, _, _] = LATER;
    let bytes = bytes_of(alloc, bytes)?;
    match read_view(alloc, &bytes) {
        Ok(view) => Ok(view),
        Err(_) => Err("no view".into()),
    }
}

/// Whether a member of a view accepts the message that bytes spell.
fn accepts_bytes<T: SpelledDelta>(
    alloc: Global,
    view: &View,
    id: Id,
    from: Id,
    bytes: &[u8],
) -> Result<bool, Fail> {
    match read_message::<T>(alloc, bytes) {
        Ok(message) => Ok(accepts(view, id, from, &message)),
        Err(_) => Err("no message".into()),
    }
}

/// Whether a member of view 3 accepts a message as from an identity, as it is wanted.
fn check(alloc: Global, row: [&str; 3], id: u8, from: u8, wanted: bool) -> Result<(), Fail> {
    let view = later(alloc)?;
    let [bytes, _, _] = row;
    let bytes = bytes_of(alloc, bytes)?;
    let found = accepts_bytes::<Data>(alloc, &view, identity(id)?, identity(from)?, &bytes)?;
    if found == wanted {
        Ok(())
    } else {
        Err("another answer".into())
    }
}

#[test]
fn accepts_what_an_honest_member_sends(rt: HostRuntime) -> Result<(), Fail> {
    let alloc = rt.alloc();
    // Own records, those that follow others, an entry, an acknowledgement.
    check(alloc, COUNTED, 3, 0, true)?;
    check(alloc, DELETE, 3, 0, true)?;
    check(alloc, GOSSIP, 3, 2, true)?;
    check(alloc, STORED, 3, 2, true)
}

#[test]
fn refuses_who_is_no_other_member(rt: HostRuntime) -> Result<(), Fail> {
    let alloc = rt.alloc();
    // The member itself, a removed identity, one that was not given.
    check(alloc, STORED, 3, 3, false)?;
    check(alloc, STORED, 3, 1, false)?;
    check(alloc, STORED, 3, 4, false)
}

#[test]
fn refuses_what_no_honest_member_sends(rt: HostRuntime) -> Result<(), Fail> {
    let alloc = rt.alloc();
    // Records of another; a need of identity 254, and records behind another number than is needed.
    check(alloc, COUNTED, 3, 2, false)?;
    check(alloc, TOOK, 3, 2, false)?;
    check(alloc, FRESH, 2, 3, false)
}
