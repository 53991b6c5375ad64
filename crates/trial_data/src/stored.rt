use data_codec::{CodecError, read_stored, spell_stored};
use data_envelope::Envelope;
use data_lattice::SpelledData;
use data_value::Data;
use std::alloc::Global;
use std::test::Fail;
use trial_parts::{
    DELETED, DOTS, MARKED, PRUNED, SET, SHARE, SIGNED, SWITCH, TEXTS, UNWRITTEN, WRITTEN, bytes_of,
};

/// In a table of places: the bytes are an envelope's.
const READS: usize = 255;

/// A stored entry ends with so many bytes of SHA-1.
const SEAL: usize = 20;

/// What is stored of an entry ends so. It is the SHA-1, made by another program, of the spelling with 2 as its first byte.
const SEALS: [&str; 11] = [
    "df0086bfa4f5fcab7b03229e9e679a1229d1c75a",
    "85bf6ca938c634c12a09e1cbb5b1dfa37af0bd1f",
    "cdce0436f607cbc92fb8ecc62d850384b6e4ee44",
    "1a6e01e6f88cbe11b7cb46c746edafc5ac3ab849",
    "6664391de1f04356f7b534aaa6137f916ee2d39f",
    "77af4e6d7148541fe63e8a48ecb3f2a1743f8c1a",
    "523777baa1def4c9cd201859956f8ef984bb0ed9",
    "505012f270e4da70a4320f1f9ca17ddf4b6cac4e",
    "3edc148038e7c9a82ceaed0c1678e6d5bc7a1a50",
    "04417454429adc0009b1e027d373a989d42768cb",
    "7e771c9219abc6581f0c2ade54c26cadd3057781",
];

/// Whether what is stored of an entry is this.
fn is_stored<T: SpelledData>(
    alloc: Global,
    envelope: &Envelope<T>,
    stored: &[u8],
) -> Result<bool, Fail> {
    Ok(spell_stored(alloc, envelope)?.as_slice() == stored)
}

/// Where the bytes are no stored entry, or that what is stored of what is read is this.
fn place_of<T: SpelledData>(alloc: Global, bytes: &[u8], stored: &[u8]) -> Result<usize, Fail> {
    match read_stored::<T>(alloc, bytes) {
        Ok(envelope) if is_stored(alloc, &envelope, stored)? => Ok(READS),
        Ok(_) => Err("what is read is stored otherwise".into()),
        Err(CodecError::NotAnEnvelope(place)) => Ok(place),
        Err(CodecError::Memory) => Err("memory".into()),
    }
}

/// The same, where the data are of any kind.
fn place(alloc: Global, bytes: &[u8], stored: &[u8]) -> Result<usize, Fail> {
    place_of::<Data>(alloc, bytes, stored)
}

/// The spelling in format 2, without a seal.
fn unsealed(alloc: Global, spelling: &[u8]) -> Result<Vec<u8>, Fail> {
    let mut bytes = Vec::from_slice(alloc, spelling)?;
    if let Some(first) = bytes.first_mut() {
        *first = 2;
    }
    Ok(bytes)
}

/// Each byte of what is stored is changed in its turn, and the fault of each is at the seal or before it.
fn check_changed(alloc: Global, stored: &[u8]) -> Result<(), Fail> {
    for index in 0..stored.len() {
        let mut changed = Vec::from_slice(alloc, stored)?;
        changed[index] = changed[index].wrapping_add(1);
        if place(alloc, &changed, stored)? > stored.len() {
            return Err("read what was changed".into());
        }
    }
    Ok(())
}

/// The spelling is read, and so is what is stored of it; without a part of the seal, with another or with more it is refused there.
fn check(alloc: Global, spelling: &str, seal: &str) -> Result<(), Fail> {
    let spelling = bytes_of(alloc, spelling)?;
    let mut stored = unsealed(alloc, &spelling)?;
    stored.extend_from_slice(&bytes_of(alloc, seal)?)?;
    let end = spelling.len();
    assert_place(alloc, &spelling, &stored, READS)?;
    assert_place(alloc, &stored, &stored, READS)?;
    for cut in end..stored.len() {
        assert_place(alloc, &stored[..cut], &stored, end)?;
    }
    check_changed(alloc, &stored)?;
    let mut longer = Vec::from_slice(alloc, &stored)?;
    longer.push(0)?;
    assert_place(alloc, &longer, &stored, end + SEAL)
}

/// The place is this.
fn assert_place(alloc: Global, bytes: &[u8], stored: &[u8], found: usize) -> Result<(), Fail> {
    if place(alloc, bytes, stored)? != found {
        return Err("another place".into());
    }
    Ok(())
}

#[test]
fn what_is_stored_is_read_and_shows_damage(rt: HostRuntime) -> Result<(), Fail> {
    let rows = [
        SHARE, SET, PRUNED, MARKED, SIGNED, TEXTS, DOTS, SWITCH, WRITTEN, UNWRITTEN, DELETED,
    ];
    for (row, seal) in rows.iter().zip(SEALS.iter()) {
        check(rt.alloc(), row[0], seal)?;
    }
    Ok(())
}

#[test]
fn refuses_another_format_and_a_seal_of_another(rt: HostRuntime) -> Result<(), Fail> {
    let alloc = rt.alloc();
    let refused = [
        ("", 0),
        ("02", 1),
        (
            "0301000100000000000000000101000000000000000005df0086bfa4f5fcab7b03229e9e679a1229d1c75a",
            0,
        ),
        (
            "020100010000000000000000010100000000000000000513cdac96af6795aa88fd7a1fea441a608a5300aa",
            23,
        ),
        (
            "010100010000000000000000010100000000000000000513cdac96af6795aa88fd7a1fea441a608a5300aa",
            23,
        ),
    ];
    for (bytes, found) in refused {
        assert_eq!(rt; place(alloc, &bytes_of(alloc, bytes)?, &[])?, found);
    }
    Ok(())
}
