//! Several entries in one transaction, over any store of a database.

ghost use Rattle.std.specs.Prelude.{◌≡◌, ◌≤◌, IsTrue};
ghost use Rattle.sqlite_trees.specs.View.{doubt};
ghost use Rattle.sqlite.specs.Held.{state};
ghost use Rattle.sqlite.specs.State.{HasCleanDisk, KeepsCommit};
ghost use Rattle.member_sqlite.specs.Rows.{values_of};
ghost use Rattle.member_sqlite.specs.Statements.{add_text, ExecutesWithin, Ran, RanTo, PutsOne, PutsUpTo, PutsTogether};

use crate::causes::{Refusal, refusal_of};
use crate::writes::Writes;
use member_keeper::Stored;
use sqlite::{Alter, Connection, Statement, Transaction, params};

fn write_within<S: Alter>(
    all: &mut Transaction<'_, S>,
    statement: &Statement,
    entry: &Stored,
) -> Result<usize, Refusal>
    ensures same_reference { all.new.conn.ghost_name ≡ all.old.conn.ghost_name }
    ensures ran { HasCleanDisk (state S.Store all.new.conn.now) → IsTrue all.old.conn.now.in_transaction → Ran S.Store ExecutesWithin statement.now.text (values_of entry.now) all.old.conn.now all.new.conn.now result }
    ensures kept { HasCleanDisk (state S.Store all.new.conn.now) → KeepsCommit (state S.Store all.old.conn.now) (state S.Store all.new.conn.now) }
    ensures clean { doubt (state S.Store all.old.conn.now).is_clean ≤ doubt (state S.Store all.new.conn.now).is_clean }
{
    match all.execute_prepared(
        statement,
        params![entry.key.as_str(), entry.bytes.as_slice()],
    ) {
        Ok(count) => Ok(count),
        Err(error) => Err(refusal_of(error)),
    }
}

fn add_within<S: Alter>(
    all: &mut Transaction<'_, S>,
    writes: &Writes,
    entry: &Stored,
) -> Result<(), Refusal>
    ensures same_reference { all.new.conn.ghost_name ≡ all.old.conn.ghost_name }
    ensures ran { HasCleanDisk (state S.Store all.new.conn.now) → IsTrue all.old.conn.now.in_transaction → RanTo S.Store ExecutesWithin add_text (values_of entry.now) all.old.conn.now all.new.conn.now result }
    ensures kept { HasCleanDisk (state S.Store all.new.conn.now) → KeepsCommit (state S.Store all.old.conn.now) (state S.Store all.new.conn.now) }
    ensures clean { doubt (state S.Store all.old.conn.now).is_clean ≤ doubt (state S.Store all.new.conn.now).is_clean }
{
    match write_within(all, &writes.add, entry) {
        Ok(_) => Ok(()),
        Err(why) => Err(why),
    }
}

/// Puts one entry in a transaction.
fn put_within<S: Alter>(
    all: &mut Transaction<'_, S>,
    writes: &Writes,
    entry: &Stored,
) -> Result<(), Refusal>
    ensures same_reference { all.new.conn.ghost_name ≡ all.old.conn.ghost_name }
    ensures put { HasCleanDisk (state S.Store all.new.conn.now) → IsTrue all.old.conn.now.in_transaction → PutsOne S.Store ExecutesWithin entry.now all.old.conn.now all.new.conn.now result }
    ensures kept { HasCleanDisk (state S.Store all.new.conn.now) → KeepsCommit (state S.Store all.old.conn.now) (state S.Store all.new.conn.now) }
    ensures clean { doubt (state S.Store all.old.conn.now).is_clean ≤ doubt (state S.Store all.new.conn.now).is_clean }
{
    match write_within(all, &writes.change, entry) {
        Ok(changed) => {
            if changed > 0 {
                Ok(())
            } else {
                add_within(all, writes, entry)
            }
        }
        Err(why) => Err(why),
    }
}

/// Puts entries in a transaction, one after the other.
fn put_each<S: Alter>(
    all: &mut Transaction<'_, S>,
    writes: &Writes,
    entries: &[Stored],
) -> Result<(), Refusal>
    ensures same_reference { all.new.conn.ghost_name ≡ all.old.conn.ghost_name }
    ensures put { HasCleanDisk (state S.Store all.new.conn.now) → IsTrue all.old.conn.now.in_transaction → PutsUpTo S.Store entries.now all.old.conn.now all.new.conn.now result }
    ensures kept { HasCleanDisk (state S.Store all.new.conn.now) → KeepsCommit (state S.Store all.old.conn.now) (state S.Store all.new.conn.now) }
    ensures clean { doubt (state S.Store all.old.conn.now).is_clean ≤ doubt (state S.Store all.new.conn.now).is_clean }
{
    for entry in entries {
        match put_within(all, writes, entry) {
            Ok(()) => {}
            Err(why) => return Err(why),
        }
    }
    Ok(())
}

/// Puts the entries in a transaction, which is rolled back where one of them is refused.
pub(crate) fn put_together<S: Alter>(
    conn: &mut Connection<S>,
    writes: &Writes,
    entries: &[Stored],
) -> Result<(), Refusal>
    ensures { HasCleanDisk (state S.Store conn.new) → PutsTogether S.Store entries.now conn.old conn.new result }
{
    if !conn.is_autocommit() {
        return Err(Refusal::Other);
    }
    let mut all = conn.transaction();
    match put_each(&mut all, writes, entries) {
        Ok(()) => {}
        Err(why) => return Err(why),
    }
    match all.commit() {
        Ok(()) => Ok(()),
        Err(error) => Err(refusal_of(error)),
    }
}
