use crate::rows::{BAD_VIEWS, FIRST, LATER};
use member_codec::{CodecError, read_view, spell_view};
use member_views::ViewList;
use std::alloc::Global;
use std::test::Fail;
use trial_parts::bytes_of;

/// In a table of places: the bytes are a view's, and spelled so.
const READS: usize = 255;

/// Where the bytes are no view, or that they are the spelling of what is read.
fn place(alloc: Global, bytes: &[u8]) -> Result<usize, Fail> {
    match read_view(alloc, bytes) {
        Ok(view) => {
            if spell_view(alloc, &view)?.as_slice() == bytes {
                Ok(READS)
            } else {
                Err("what is read is spelled otherwise".into())
            }
        }
        Err(CodecError::NotASpelling(place)) => Ok(place),
        Err(CodecError::Memory) => Err("memory".into()),
    }
}

fn check(alloc: Global, row: [&str; 3]) -> Result<(), Fail> {
    let [bytes, cut, raised] = row;
    let bytes = bytes_of(alloc, bytes)?;
    if place(alloc, &bytes)? != READS {
        return Err("not read".into());
    }
    for (end, found) in bytes_of(alloc, cut)?.iter().enumerate() {
        if end < bytes.len() && place(alloc, &bytes[..end])? != usize::from(*found) {
            return Err("another place of a cut".into());
        }
    }
    for (index, found) in bytes_of(alloc, raised)?.iter().enumerate() {
        let mut changed = Vec::from_slice(alloc, &bytes)?;
        if index < changed.len() {
            changed[index] = changed[index].wrapping_add(1);
        }
        if place(alloc, &changed)? != usize::from(*found) {
            return Err("another place of a raised byte".into());
        }
    }
    Ok(())
}

#[test]
fn reads_spells_and_refuses_views_as_another_reader_does(rt: HostRuntime) -> Result<(), Fail> {
    check(rt.alloc(), FIRST)?;
    check(rt.alloc(), LATER)
}

#[test]
fn refuses_what_is_no_view(rt: HostRuntime) -> Result<(), Fail> {
    let alloc = rt.alloc();
    for row in BAD_VIEWS {
        match bytes_of(alloc, row)?.as_slice() {
            [found, bytes @ ..] => {
                assert_eq!(rt; place(alloc, bytes)?, usize::from(*found));
            }
            [] => return Err("no row".into()),
        }
    }
    Ok(())
}

#[test]
fn spells_the_views_of_a_list(rt: HostRuntime) -> Result<(), Fail> {
    let alloc = rt.alloc();
    let views = ViewList::new(alloc, 3)?;
    let bytes = spell_view(alloc, views.last())?;
    assert_eq!(rt; place(alloc, &bytes)?, READS);
    Ok(())
}
