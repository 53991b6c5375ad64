ghost use Rattle.std.specs.Prelude.{◌≡◌, ◌↔◌, IsTrue};
ghost use Rattle.sqlite_value.specs.declared.value.Value.TheVariants.{Text, Blob};
ghost use Rattle.sqlite_value.specs.Value.{owned};
ghost use Rattle.sqlite_value.specs.Order.{column};
ghost use Rattle.member_sqlite.specs.Rows.{IsRowOf, AreRows};

use member_keeper::Stored;
use sqlite::Row;
use sqlite::types::ValueRef;

/// Whether the rows are the entries, in their order.
pub(crate) fn are_rows(entries: &[Stored], rows: &[Row]) -> bool
    ensures { IsTrue result ↔ AreRows entries.now rows.now }
{
    if entries.len() != rows.len() {
        return false;
    }
    for (index, row) in rows.iter().enumerate() {
        if !is_row(&entries[index], row) {
            return false;
        }
    }
    true
}

/// Whether a row is an entry.
fn is_row(entry: &Stored, row: &Row) -> bool
    ensures { IsTrue result ↔ IsRowOf entry.now row.now }
{
    has_text(row, entry.key.as_str().as_bytes()) && has_blob(row, entry.bytes.as_slice())
}

/// Whether the first value of a row is this text.
fn has_text(row: &Row, text: &[u8]) -> bool
    ensures { IsTrue result ↔ (column row.now 0 ≡ Text text.now) }
{
    match row.get_ref(0) {
        Ok(value) => is_text(value, text),
        Err(_) => false,
    }
}

fn is_text(value: ValueRef<'_>, text: &[u8]) -> bool
    ensures { IsTrue result ↔ (owned value.entry ≡ Text text.now) }
{
    match value {
        ValueRef::Text(found) => found == text,
        ValueRef::Null => false,
        ValueRef::Int(_) => false,
        ValueRef::Real(_) => false,
        ValueRef::Blob(_) => false,
    }
}

/// Whether the second value of a row is this blob.
fn has_blob(row: &Row, blob: &[u8]) -> bool
    ensures { IsTrue result ↔ (column row.now 1 ≡ Blob blob.now) }
{
    match row.get_ref(1) {
        Ok(value) => is_blob(value, blob),
        Err(_) => false,
    }
}

fn is_blob(value: ValueRef<'_>, blob: &[u8]) -> bool
    ensures { IsTrue result ↔ (owned value.entry ≡ Blob blob.now) }
{
    match value {
        ValueRef::Blob(found) => found == blob,
        ValueRef::Null => false,
        ValueRef::Int(_) => false,
        ValueRef::Real(_) => false,
        ValueRef::Text(_) => false,
    }
}
