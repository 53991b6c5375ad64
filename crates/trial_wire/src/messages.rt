use crate::rows::{
    ANSWERED, ASKED, BAD_MESSAGES, COUNTED, DELETE, DIGESTS, FRESH, GOSSIP, GREW, LACKED, NOTHING,
    STORED, SWITCHED, TOOK, UNANSWERED, UNSTORED, WRITE, WROTE,
};
use base_bytes::Memory;
use data_delta_codec::SpelledDelta;
use data_value::Data;
use member_codec::{CodecError, read_message, spell_message};
use member_messages::Message;
use std::alloc::Global;
use std::test::Fail;
use trial_parts::{Random, bytes_of};

/// In a table of places: the bytes are a message's, and spelled so.
const READS: usize = 255;

/// So many strings at random are tried.
const STRINGS: u64 = 400;

/// Each message that another encoder made.
const MESSAGES: [[&str; 3]; 17] = [
    COUNTED, TOOK, GREW, FRESH, SWITCHED, WROTE, DELETE, LACKED, NOTHING, DIGESTS, GOSSIP, WRITE,
    STORED, UNSTORED, ASKED, ANSWERED, UNANSWERED,
];

/// Whether a message is spelled by these bytes.
fn is_spelled<T: SpelledDelta>(
    alloc: Global,
    message: &Message<T>,
    bytes: &[u8],
) -> Result<bool, Memory> {
    let spelled = spell_message(alloc, message)?;
    Ok(spelled.as_slice() == bytes)
}

/// That the bytes are read, where they are the spelling of it.
fn reads(is_same: Result<bool, Memory>) -> Result<usize, Fail> {
    match is_same {
        Ok(true) => Ok(READS),
        Ok(false) => Err("what is read is spelled otherwise".into()),
        Err(_) => Err("memory".into()),
    }
}

/// The place of a fault.
fn fault(error: CodecError) -> Result<usize, Fail> {
    match error {
        CodecError::NotASpelling(place) => Ok(place),
        CodecError::Memory => Err("memory".into()),
    }
}

/// Where the bytes are no message of a type of data, or that they are the spelling of what is read.
fn place_of<T: SpelledDelta>(alloc: Global, bytes: &[u8]) -> Result<usize, Fail> {
    match read_message::<T>(alloc, bytes) {
        Ok(message) => reads(is_spelled(alloc, &message, bytes)),
        Err(error) => fault(error),
    }
}

/// Where the bytes are no message, or that they are the spelling of what is read.
fn place(alloc: Global, bytes: &[u8]) -> Result<usize, Fail> {
    place_of::<Data>(alloc, bytes)
}

/// The places of the faults, where the bytes are cut before each byte.
fn check_cuts(alloc: Global, bytes: &[u8], places: &[u8]) -> Result<(), Fail> {
    for (end, found) in places.iter().enumerate() {
        if end < bytes.len() && place(alloc, &bytes[..end])? != usize::from(*found) {
            return Err("another place of a cut".into());
        }
    }
    Ok(())
}

/// The place of the fault, where one byte is raised.
fn raised(alloc: Global, bytes: &[u8], index: usize, by: u8) -> Result<usize, Fail> {
    let mut changed = Vec::from_slice(alloc, bytes)?;
    if index < changed.len() {
        changed[index] = changed[index].wrapping_add(by);
    }
    place(alloc, &changed)
}

/// The places of the faults, where each byte is raised by one.
fn check_raised(alloc: Global, bytes: &[u8], places: &[u8]) -> Result<(), Fail> {
    for (index, found) in places.iter().enumerate() {
        if raised(alloc, bytes, index, 1)? != usize::from(*found) {
            return Err("another place of a raised byte".into());
        }
    }
    Ok(())
}

fn check(alloc: Global, row: [&str; 3]) -> Result<(), Fail> {
    let [bytes, cut, raised] = row;
    let bytes = bytes_of(alloc, bytes)?;
    if place(alloc, &bytes)? != READS {
        return Err("not read".into());
    }
    check_cuts(alloc, &bytes, &bytes_of(alloc, cut)?)?;
    check_raised(alloc, &bytes, &bytes_of(alloc, raised)?)
}

#[test]
fn reads_spells_and_refuses_as_another_reader_does(rt: HostRuntime) -> Result<(), Fail> {
    for row in MESSAGES {
        check(rt.alloc(), row)?;
    }
    Ok(())
}

#[test]
fn refuses_where_a_rule_breaks(rt: HostRuntime) -> Result<(), Fail> {
    let alloc = rt.alloc();
    for row in BAD_MESSAGES {
        match bytes_of(alloc, row)?.as_slice() {
            [found, bytes @ ..] => {
                assert_eq!(rt; place(alloc, bytes)?, usize::from(*found));
            }
            [] => return Err("no row".into()),
        }
    }
    Ok(())
}

/// Each byte of a message is changed to others, and what is read then is spelled so, or it is refused within the bytes.
fn check_changed(alloc: Global, row: [&str; 3], random: &mut Random) -> Result<(), Fail> {
    let [bytes, _, _] = row;
    let bytes = bytes_of(alloc, bytes)?;
    for index in 0..bytes.len() {
        for _ in 0..8 {
            let found = raised(alloc, &bytes, index, 1 + random.below(255) as u8)?;
            if found != READS && found > bytes.len() {
                return Err("a place outside the bytes".into());
            }
        }
    }
    Ok(())
}

#[test]
fn a_changed_byte_is_refused_or_read_so(rt: HostRuntime) -> Result<(), Fail> {
    let mut random = Random::new(7);
    for row in MESSAGES {
        check_changed(rt.alloc(), row, &mut random)?;
    }
    Ok(())
}

/// Bytes at random behind the format and a kind.
fn bytes_at_random(alloc: Global, random: &mut Random) -> Result<Vec<u8>, Fail> {
    let mut bytes = Vec::new(alloc);
    bytes.push(1)?;
    bytes.push(random.below(11) as u8)?;
    for _ in 0..random.below(120) {
        let small = random.below(4) > 0;
        let byte = if small {
            random.below(3)
        } else {
            random.below(256)
        };
        bytes.push(byte as u8)?;
    }
    Ok(bytes)
}

#[test]
fn bytes_at_random_are_refused_or_read_so(rt: HostRuntime) -> Result<(), Fail> {
    let alloc = rt.alloc();
    let mut random = Random::new(11);
    for _ in 0..STRINGS {
        let bytes = bytes_at_random(alloc, &mut random)?;
        let found = place(alloc, &bytes)?;
        assert!(rt; found == READS || found <= bytes.len());
    }
    Ok(())
}
