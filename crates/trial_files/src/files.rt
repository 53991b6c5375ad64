//! Files of a test, in a folder of its own.

use crate::calls::{Call, told};
use member_sqlite::{FileKeeper, OpenError};
use sqlite::{Connection, Error};
use std::fs;
use std::test::Fail;

/// An empty folder of this name.
pub(crate) fn folder(rt: &HostRuntime, name: &str) -> Result<(), Fail> {
    let _ = fs::remove_dir_all(rt, name);
    Ok(fs::create_dir(rt, name)?)
}

/// Removes the folder.
pub(crate) fn leave(rt: &HostRuntime, name: &str) -> Result<(), Fail> {
    Ok(fs::remove_dir_all(rt, name)?)
}

/// Opens the file at a path, makes calls of the keeper, drops it, and tells what was answered.
pub(crate) fn played(rt: &HostRuntime, path: &str, calls: &[Call]) -> Result<String, Fail> {
    match FileKeeper::open(rt, path) {
        Ok(keeper) => told(rt.alloc(), keeper, calls),
        Err(why) => Err(why.into()),
    }
}

/// Opens the file at a path and closes it: it has by itself then what its log had.
pub(crate) fn close(rt: &HostRuntime, path: &str) -> Result<(), OpenError> {
    match FileKeeper::open(rt, path) {
        Ok(keeper) => keeper.close(),
        Err(why) => Err(why),
    }
}

/// Has the database at a path run statements, as another program would.
pub(crate) fn run(rt: &HostRuntime, path: &str, sql: &str) -> Result<(), Error> {
    let mut conn = Connection::open(rt, path)?;
    conn.execute_batch(sql)?;
    conn.close()
}
