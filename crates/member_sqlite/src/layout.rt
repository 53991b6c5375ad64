//! The tables of a keeper's database, over any store of a database.

ghost use Rattle.std.specs.Prelude.{◌≤◌};
ghost use Rattle.sqlite_trees.specs.View.{doubt};
ghost use Rattle.sqlite.specs.Held.{state};
ghost use Rattle.sqlite.specs.State.{HasCleanDisk};
ghost use Rattle.member_sqlite.specs.Layout.{LaysOut};

use sqlite::{Alter, Connection, Error, ErrorCode};

/// The version of the tables, and the table of entries. A later version has another number.
const LAYOUT: &str =
    "CREATE TABLE format (version INTEGER NOT NULL); INSERT INTO format (version) VALUES (1); CREATE TABLE entries (key TEXT PRIMARY KEY, bytes BLOB NOT NULL)";

/// Makes the tables in one transaction.
pub(crate) fn lay_out<S: Alter>(conn: &mut Connection<S>) -> Result<(), Error>
    ensures laid { HasCleanDisk (state S.Store conn.new) → LaysOut S.Store conn.old conn.new result }
    ensures clean { doubt (state S.Store conn.old).is_clean ≤ doubt (state S.Store conn.new).is_clean }
{
    if !conn.is_autocommit() {
        return Err(Error::SqliteFailure(ErrorCode::TransactionState));
    }
    let mut all = conn.transaction();
    match all.execute_batch(LAYOUT) {
        Ok(()) => {}
        Err(error) => return Err(error),
    }
    match all.commit() {
        Ok(()) => Ok(()),
        Err(error) => Err(error),
    }
}
