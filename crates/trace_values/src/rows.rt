ghost use Rattle.std.specs.Prelude.{◌≡◌, ◌<◌, ℕ, length, OnOk};
ghost use Rattle.trace_values.specs.Rows.{row_of, last_of, IsPushed};

use base_bytes::{Items, Memory};
use base_vectors::{Id, Seq};
use std::alloc::Global;

/// What is kept of the records of an identity, in their order.
pub fn row_of<T>(rows: &[Items<T>], id: Id) -> &[T]
    ensures { result.now ≡ row_of rows.now id }
{
    match rows.get(usize::from(id.number())) {
        Some(row) => row.as_slice(),
        None => &[],
    }
}

/// Makes the list longer than an index, by empty rows.
fn lengthen_rows<T: Drop>(
    rows: &mut Vec<Items<T>>,
    alloc: Global,
    index: usize,
) -> Result<(), Memory>
    requires { index < 255 }
    ensures same { OnOk result ((i : ℕ) → row_of rows.new.items i ≡ row_of rows.old.items i) }
    ensures long { OnOk result (index < length rows.new.items) }
{
    while rows.len() <= index {
        rows.push(Items::new(alloc))?;
    }
    Ok(())
}

/// Adds one more to what is kept of the records of an identity.
pub fn push_row<T: Drop>(
    rows: &mut Vec<Items<T>>,
    alloc: Global,
    id: Id,
    one: T,
) -> Result<(), Memory>
    ensures { OnOk result (IsPushed rows.old.items rows.new.items id one) }
{
    let index = usize::from(id.number());
    lengthen_rows(rows, alloc, index)?;
    rows[index].push(one)
}

/// What is kept of the last of the first so many records of an identity, and else what stands for none.
pub(crate) fn last_of<T: Copy>(rows: &[Items<T>], id: Id, count: Seq, none: T) -> T
    ensures { result ≡ last_of none rows.now id count }
{
    if count == 0 {
        return none;
    }
    match row_of(rows, id).get((count - 1) as usize) {
        Some(last) => *last,
        None => none,
    }
}
