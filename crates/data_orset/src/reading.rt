ghost use Rattle.std.specs.Prelude.{◌≡◌, None, option_copied};
ghost use Rattle.base_bytes.specs.Fields.{Gives};
ghost use Rattle.base_vectors.specs.IdSets.{members_in};
ghost use Rattle.data_orset.specs.Reading.{dot_in, elements_in, listed_in, set_in, ReadsDots, ReadsElement, ReadsPlaced};

use crate::dot_list::DotList;
use crate::set::OrSet;
use base_bytes::{FieldError, Text, keep, read_number, read_text};
use base_vectors::{Dot, IdSet, read_identity, read_positive};
use std::alloc::Global;

/// The greatest number of a record.
const MOST_RECORDS: u64 = 1 << 62;

/// A dot that comes after the one with this origin and number, and the bytes after it.
#[tactic(auto, unfolding(crate::specs::Reading::dot_in))]
fn read_dot(barred: IdSet, origin: u8, seq: u64, bytes: &[u8]) -> Result<(Dot, &[u8]), FieldError>
    ensures { Gives (λ x. (x.0, x.1.now)) result (dot_in (members_in barred) origin seq bytes.now) }
{
    match read_identity(origin, barred, bytes) {
        Ok((id, rest)) => {
            let (number, after) = read_positive(MOST_RECORDS, rest)?;
            keep(origin < id.number() || seq < number, rest)?;
            let dot = Dot {
                origin: id,
                seq: number,
            };
            Ok((dot, after))
        }
        Err(error) => Err(error),
    }
}

/// So many dots of an element, each after the one before it, which are added at the end; and the bytes after them.
fn read_dots<'a>(
    all: &mut DotList,
    text: &Text,
    barred: IdSet,
    count: u64,
    bytes: &'a [u8],
) -> Result<&'a [u8], FieldError>
    ensures { ReadsDots (λ rest. rest.now) (members_in barred) count text.now bytes.now all.old all.new result }
{
    let mut origin = 0;
    let mut seq = 0;
    let mut rest = bytes;
    for _ in 0..count {
        match read_dot(barred, origin, seq, rest) {
            Ok((dot, after)) => {
                origin = dot.origin.number();
                seq = dot.seq;
                rest = after;
                all.push(text, &dot)?;
            }
            Err(error) => return Err(error),
        }
    }
    Ok(rest)
}

/// An element that comes after the text before it, where there is one, which is added at its dots at the end: its text, and the bytes after it.
#[tactic(auto, unfolding(crate::specs::Reading::element_in))]
fn read_element<'a>(
    alloc: Global,
    all: &mut DotList,
    barred: IdSet,
    before: Option<&Text>,
    bytes: &'a [u8],
) -> Result<(Text, &'a [u8]), FieldError>
    ensures { ReadsElement (λ x. (x.0, x.1.now)) (members_in barred) (option_copied before.entry) bytes.now all.old all.new result }
{
    let (text, rest) = read_text(alloc, before, bytes)?;
    let (count, rest) = read_positive(u64::MAX, rest)?;
    let rest = read_dots(all, &text, barred, count, rest)?;
    Ok((text, rest))
}

/// So many elements at their dots, each after the one before it, and the bytes after them.
fn read_elements(
    alloc: Global,
    barred: IdSet,
    count: u64,
    bytes: &[u8],
) -> Result<(DotList, &[u8]), FieldError>
    ensures { ReadsPlaced (λ x. (x.0, x.1.now)) (elements_in (members_in barred) count None bytes.now) result }
{
    let mut all = DotList::new(alloc);
    let mut last: Option<Text> = None;
    let mut rest = bytes;
    for _ in 0..count {
        let (text, after) = read_element(alloc, &mut all, barred, last.as_ref(), rest)?;
        last = Some(text);
        rest = after;
    }
    Ok((all, rest))
}

/// Elements behind their number, at their dots, and the bytes after them.
#[tactic(auto, unfolding(crate::specs::Reading::listed_in))]
fn read_listed(alloc: Global, barred: IdSet, bytes: &[u8]) -> Result<(DotList, &[u8]), FieldError>
    ensures { ReadsPlaced (λ x. (x.0, x.1.now)) (listed_in (members_in barred) bytes.now) result }
{
    let (count, rest) = read_number(bytes)?;
    read_elements(alloc, barred, count, rest)
}

impl OrSet {
    /// A set at the front of these bytes, and the bytes after it.
    #[tactic(auto, unfolding(crate::specs::Reading::set_in))]
    pub(crate) fn read(
        alloc: Global,
        barred: IdSet,
        bytes: &[u8],
    ) -> Result<(OrSet, &[u8]), FieldError>
        ensures { Gives (λ x. (x.0, x.1.now)) result (set_in (members_in barred) bytes.now) }
    {
        let (dots, rest) = read_listed(alloc, barred, bytes)?;
        Ok((OrSet { alloc, dots }, rest))
    }
}
