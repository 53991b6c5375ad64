ghost use Rattle.std.specs.Prelude.{◌≡◌, IfOk};

use crate::message::{Digests, Entries, Groups, Keyed, Texts};
use base_bytes::{Items, Memory};
use data_envelope::Envelope;
use data_lattice::Replica;
use std::alloc::Global;

/// Equal groups.
pub(crate) fn copy_groups<T: Replica>(
    alloc: Global,
    groups: &Groups<T>,
) -> Result<Groups<T>, Memory>
    ensures { IfOk result (λ copy. copy ≡ groups.now) }
{
    let mut copies = Items::new(alloc);
    for keyed in groups.as_slice() {
        let key = keyed.key.copied();
        let item = keyed.item.copy(alloc)?;
        copies.push(Keyed { key, item })?;
    }
    Ok(copies)
}

/// Equal entries.
pub(crate) fn copy_entries<T: Replica>(
    alloc: Global,
    entries: &Entries<T>,
) -> Result<Entries<T>, Memory>
    ensures { IfOk result (λ copy. copy ≡ entries.now) }
{
    let mut copies = Items::new(alloc);
    for keyed in entries.as_slice() {
        let key = keyed.key.copied();
        let item = keyed.item.copy(alloc)?;
        copies.push(Keyed { key, item })?;
    }
    Ok(copies)
}

/// Equal texts.
pub(crate) fn copy_texts(alloc: Global, texts: &Texts) -> Result<Texts, Memory>
    ensures { IfOk result (λ copy. copy ≡ texts.now) }
{
    let mut copies = Items::new(alloc);
    for text in texts.as_slice() {
        copies.push(text.copied())?;
    }
    Ok(copies)
}

/// Equal digests.
pub(crate) fn copy_digests(alloc: Global, digests: &Digests) -> Result<Digests, Memory>
    ensures { IfOk result (λ copy. copy ≡ digests.now) }
{
    let mut copies = Items::new(alloc);
    for keyed in digests.as_slice() {
        let key = keyed.key.copied();
        let item = keyed.item;
        copies.push(Keyed { key, item })?;
    }
    Ok(copies)
}

/// An equal envelope, if there is one.
pub(crate) fn copy_if_some<T: Replica>(
    alloc: Global,
    envelope: &Option<Envelope<T>>,
) -> Result<Option<Envelope<T>>, Memory>
    ensures { IfOk result (λ copy. copy ≡ envelope.now) }
{
    match envelope {
        Some(envelope) => Ok(Some(envelope.copy(alloc)?)),
        None => Ok(None),
    }
}
