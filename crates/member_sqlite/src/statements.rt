//! One statement at a time, over any store of a database.

ghost use Rattle.std.specs.Prelude.{◌≡◌, ◌≤◌, [], IfOk, IfErr};
ghost use Rattle.sqlite_trees.specs.View.{doubt};
ghost use Rattle.sqlite.specs.Held.{state};
ghost use Rattle.sqlite.specs.State.{HasCleanDisk, IsUnchanged, Executes};
ghost use Rattle.member_sqlite.specs.Rows.{values_of};
ghost use Rattle.member_sqlite.specs.Statements.{add_text, Ran, RanTo, PutsOne, IsUnprepared};

use crate::causes::{Refusal, refusal_of};
use crate::writes::Writes;
use member_keeper::Stored;
use sqlite::{Alter, Connection, Statement, params};

/// Runs a statement without values, and answers how many rows it changed.
pub(crate) fn run<S: Alter>(conn: &mut Connection<S>, sql: &str) -> Result<usize, Refusal>
    ensures { HasCleanDisk (state S.Store conn.new) → Ran S.Store Executes sql.now [] conn.old conn.new result }
{
    match conn.execute(sql, &[]) {
        Ok(count) => Ok(count),
        Err(error) => Err(refusal_of(error)),
    }
}

/// The same, whatever their number is.
pub(crate) fn run_to<S: Alter>(conn: &mut Connection<S>, sql: &str) -> Result<(), Refusal>
    ensures { HasCleanDisk (state S.Store conn.new) → RanTo S.Store Executes sql.now [] conn.old conn.new result }
{
    match run(conn, sql) {
        Ok(_) => Ok(()),
        Err(why) => Err(why),
    }
}

/// Prepares a statement.
pub(crate) fn prepare<S: Alter>(conn: &mut Connection<S>, sql: &str) -> Result<Statement, Refusal>
    ensures text { HasCleanDisk (state S.Store conn.new) → IfOk result (λ statement. statement.text ≡ sql.now) }
    ensures ok { HasCleanDisk (state S.Store conn.new) → IfOk result (λ _. IsUnchanged (state S.Store conn.old) (state S.Store conn.new)) }
    ensures err { HasCleanDisk (state S.Store conn.new) → IfErr result (IsUnprepared S.Store sql.now conn.old conn.new) }
{
    match conn.prepare(sql) {
        Ok(statement) => Ok(statement),
        Err(error) => Err(refusal_of(error)),
    }
}

/// Runs one of the two statements of an entry, and answers how many rows it changed.
fn write<S: Alter>(
    conn: &mut Connection<S>,
    statement: &Statement,
    entry: &Stored,
) -> Result<usize, Refusal>
    ensures ran { HasCleanDisk (state S.Store conn.new) → Ran S.Store Executes statement.now.text (values_of entry.now) conn.old conn.new result }
    ensures clean { doubt (state S.Store conn.old).is_clean ≤ doubt (state S.Store conn.new).is_clean }
{
    match statement.execute(conn, params![entry.key.as_str(), entry.bytes.as_slice()]) {
        Ok(count) => Ok(count),
        Err(error) => Err(refusal_of(error)),
    }
}

/// Adds the row of an entry.
fn add<S: Alter>(conn: &mut Connection<S>, writes: &Writes, entry: &Stored) -> Result<(), Refusal>
    ensures ran { HasCleanDisk (state S.Store conn.new) → RanTo S.Store Executes add_text (values_of entry.now) conn.old conn.new result }
    ensures clean { doubt (state S.Store conn.old).is_clean ≤ doubt (state S.Store conn.new).is_clean }
{
    match write(conn, &writes.add, entry) {
        Ok(_) => Ok(()),
        Err(why) => Err(why),
    }
}

/// Puts one entry: where its key has no row, the first statement changes nothing. The two are no more than one write.
pub(crate) fn put<S: Alter>(
    conn: &mut Connection<S>,
    writes: &Writes,
    entry: &Stored,
) -> Result<(), Refusal>
    ensures { HasCleanDisk (state S.Store conn.new) → PutsOne S.Store Executes entry.now conn.old conn.new result }
{
    match write(conn, &writes.change, entry) {
        Ok(changed) => {
            if changed > 0 {
                Ok(())
            } else {
                add(conn, writes, entry)
            }
        }
        Err(why) => Err(why),
    }
}
