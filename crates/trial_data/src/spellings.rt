use data_codec::{CodecError, digest, read, spell};
use data_envelope::Envelope;
use data_lattice::SpelledData;
use data_value::Data;
use std::alloc::Global;
use std::test::Fail;
use trial_parts::{
    DELETED, DOTS, MARKED, PRUNED, SET, SHARE, SIGNED, SWITCH, TEXTS, UNWRITTEN, WRITTEN, bytes_of,
};

/// In a table of places: the bytes are an envelope's again.
const READS: usize = 255;

// Each row in hexadecimal: a place, which is a byte, and bytes that break a rule of spellings there. They were made by hand.

/// A mark of identity 255, a version of it, identities that fall, a mark that nobody has seen, a mark that two have seen, of
/// whom the last is identity 255, and a version of a pruned identity.
const BAD_HEADS: [&str; 6] = [
    "03010101ff00000000000100",
    "0401010001ff0000000000000001",
    "0d0101000205000000000000000103000000000000000100",
    "0a0101010200000000010000",
    "0c010101020000000001000200ff",
    "170101010201000000000000000001000000000000000101020000000000000001",
];

/// Bytes of no kind, beside those of kinds and of deleted keys; and a byte after a deleted key, whose data have none.
const BAD_KINDS: [&str; 6] = [
    "010100",
    "010107",
    "010180",
    "010187",
    "0101ff",
    "0d0181000100000000000000000100",
];

/// Growing counters: a share above `2^63 - 1`, and an identity twice.
const BAD_SHARES: [&str; 2] = [
    "060101000001008000000000000000",
    "0e0101000002000000000000000001000000000000000001",
];

/// Growing sets: a text of 65 bytes, no UTF-8, texts that fall, also to the empty one, a text twice, and more texts than there are.
const BAD_TEXTS: [&str; 6] = [
    "0c01030000000000000000000141",
    "0d01030000000000000000000101ff",
    "0f010300000000000000000002017a015a",
    "0f010300000000000000000002016100",
    "0f010300000000000000000002017a017a",
    "0d01030000ffffffffffffffff00",
];

/// Sets with removes: an element without a dot, the identity 255, the numbers 0 and `2^62 + 1`, an identity that falls,
/// and a number that doesn't rise.
const BAD_DOTS: [&str; 6] = [
    "0e01040000000000000000000101610000000000000000",
    "1601040000000000000000000101610000000000000001ff0000000000000001",
    "1701040000000000000000000101610000000000000001000000000000000000",
    "1701040000000000000000000101610000000000000001004000000000000001",
    "1f01040000000000000000000101610000000000000002030000000000000001010000000000000001",
    "2001040000000000000000000101610000000000000002010000000000000005010000000000000005",
];

/// Registers: a timestamp above `2^63 - 1`, and the writer 255.
const BAD_WRITES: [&str; 2] = [
    "040106000080000000000000000000",
    "0c010600000000000000000006ff00",
];

/// A share and a dot of identity 2, which was pruned.
const BAD_PRUNED: [&str; 2] = [
    "18010101020100000000000000000100000000000000010001020000000000000001",
    "320104010201000000000000000001000000000000000101000000000000000001000000000000000101780000000000000001020000000000000001",
];

/// Identity 2 was pruned, and is read as the writer of a register, and as the owner of a mark who has seen it.
const PRUNED_NAMED: [&str; 2] = [
    "ff0106010201000000000000000001000000000000000101000000000000000001000000000000006502026869",
    "ff010502020100000000000000000100000000000000010300000000010201020100000000000000000101",
];

/// Whether an entry is spelled so.
fn is_spelled<T: SpelledData>(
    alloc: Global,
    envelope: &Envelope<T>,
    bytes: &[u8],
) -> Result<bool, Fail> {
    Ok(spell(alloc, envelope)?.as_slice() == bytes)
}

/// Where the bytes are no envelope, or that they are the spelling of what is read.
fn place_of<T: SpelledData>(alloc: Global, bytes: &[u8]) -> Result<usize, Fail> {
    match read::<T>(alloc, bytes) {
        Ok(envelope) if is_spelled(alloc, &envelope, bytes)? => Ok(READS),
        Ok(_) => Err("what is read is spelled otherwise".into()),
        Err(CodecError::NotAnEnvelope(place)) => Ok(place),
        Err(CodecError::Memory) => Err("memory".into()),
    }
}

/// The same, where the data are of any kind.
fn place(alloc: Global, bytes: &[u8]) -> Result<usize, Fail> {
    place_of::<Data>(alloc, bytes)
}

/// The places of the faults, where the bytes are cut before each byte.
fn check_cuts(alloc: Global, bytes: &[u8], places: &[u8]) -> Result<(), Fail> {
    for (end, found) in places.iter().enumerate() {
        if end < bytes.len() && place(alloc, &bytes[..end])? != usize::from(*found) {
            return Err("another place of a cut".into());
        }
    }
    Ok(())
}

/// The places of the faults, where each byte is raised by one.
fn check_raised(alloc: Global, bytes: &[u8], places: &[u8]) -> Result<(), Fail> {
    for (index, found) in places.iter().enumerate() {
        let mut changed = Vec::from_slice(alloc, bytes)?;
        if index < changed.len() {
            changed[index] = changed[index].wrapping_add(1);
        }
        if place(alloc, &changed)? != usize::from(*found) {
            return Err("another place of a raised byte".into());
        }
    }
    Ok(())
}

/// An entry is spelled so, and has this digest.
fn check_envelope<T: SpelledData>(
    alloc: Global,
    envelope: &Envelope<T>,
    bytes: &[u8],
    sha1: &[u8],
) -> Result<(), Fail> {
    if !is_spelled(alloc, envelope, bytes)? {
        return Err("spelled otherwise".into());
    }
    if digest(alloc, envelope)?.as_slice() != sha1 {
        return Err("another digest".into());
    }
    Ok(())
}

/// What is read is spelled so, and has this digest.
fn check_spelling<T: SpelledData>(alloc: Global, bytes: &[u8], sha1: &[u8]) -> Result<(), Fail> {
    match read::<T>(alloc, bytes) {
        Ok(envelope) => check_envelope(alloc, &envelope, bytes, sha1),
        Err(_) => Err("not read".into()),
    }
}

fn check(alloc: Global, row: [&str; 4]) -> Result<(), Fail> {
    let [bytes, sha1, cut, raised] = row;
    let bytes = bytes_of(alloc, bytes)?;
    check_spelling::<Data>(alloc, &bytes, &bytes_of(alloc, sha1)?)?;
    check_cuts(alloc, &bytes, &bytes_of(alloc, cut)?)?;
    check_raised(alloc, &bytes, &bytes_of(alloc, raised)?)
}

#[test]
fn reads_spells_and_refuses_as_another_reader_does(rt: HostRuntime) -> Result<(), Fail> {
    let rows = [
        SHARE, SET, PRUNED, MARKED, SIGNED, TEXTS, DOTS, SWITCH, WRITTEN, UNWRITTEN, DELETED,
    ];
    for row in rows {
        check(rt.alloc(), row)?;
    }
    Ok(())
}

#[test]
fn refuses_what_is_left_over_and_another_format(rt: HostRuntime) -> Result<(), Fail> {
    let alloc = rt.alloc();
    let refused = [
        ("010100010000000000000000010100000000000000000500", 23),
        ("0201000100000000000000000101000000000000000005", 0),
        ("0101000100000000000000000101000000000000000000", 15),
        ("01010001000000000000000001010000000000000000", 15),
    ];
    for (bytes, found) in refused {
        assert_eq!(rt; place(alloc, &bytes_of(alloc, bytes)?)?, found);
    }
    Ok(())
}

/// Each row's bytes are refused at its place, or are read.
fn check_places(alloc: Global, rows: &[&str]) -> Result<(), Fail> {
    for row in rows {
        match bytes_of(alloc, row)?.as_slice() {
            [found, bytes @ ..] => {
                if place(alloc, bytes)? != usize::from(*found) {
                    return Err("another place".into());
                }
            }
            [] => return Err("no row".into()),
        }
    }
    Ok(())
}

#[test]
fn refuses_what_breaks_a_rule_where_it_stands_and_nothing_else(
    rt: HostRuntime,
) -> Result<(), Fail> {
    let alloc = rt.alloc();
    check_places(alloc, &BAD_HEADS)?;
    check_places(alloc, &BAD_KINDS)?;
    check_places(alloc, &BAD_SHARES)?;
    check_places(alloc, &BAD_TEXTS)?;
    check_places(alloc, &BAD_DOTS)?;
    check_places(alloc, &BAD_WRITES)?;
    check_places(alloc, &BAD_PRUNED)?;
    check_places(alloc, &PRUNED_NAMED)
}
