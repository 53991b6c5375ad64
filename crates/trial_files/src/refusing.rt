//! A database that refuses, and a file that is in use: what was stored before is there still.

use crate::calls::{Call, told};
use crate::files::{folder, leave, played, run};
use member_keeper::Keeper;
use member_sqlite::{FileKeeper, OpenError};
use std::test::Fail;

/// A database of this version that refuses entries of two bytes, has a key of digits alone as a number, and can't be cleared.
const STRICTER: &str =
    "CREATE TABLE format (version INTEGER NOT NULL); INSERT INTO format VALUES (1); CREATE TABLE entries (key NUMERIC PRIMARY KEY, bytes BLOB NOT NULL CHECK (length(bytes) < 2)); CREATE TABLE uses (key REFERENCES entries (key)); INSERT INTO entries VALUES ('b', x'03'); INSERT INTO uses VALUES ('b')";

#[test]
fn what_is_refused_leaves_what_was_stored(rt: HostRuntime) -> Result<(), Fail> {
    folder(&rt, "strict_files")?;
    run(&rt, "strict_files/a.db", STRICTER)?;
    let calls = [
        Call::Store(&[("c", 5, 1), ("d", 6, 2)]),
        Call::Clear,
        Call::Load,
        Call::Store(&[("c", 5, 1), ("d", 6, 1)]),
        Call::Load,
        Call::Store(&[("7", 8, 1)]),
        Call::Load,
    ];
    let told = played(&rt, "strict_files/a.db", &calls)?;
    assert_eq!(rt;
        told.as_str(),
        "failed;failed;b=3*1 ;done;b=3*1 c=5*1 d=6*1 ;done;failed;"
    );
    leave(&rt, "strict_files")
}

/// What is said of the file at a path while a keeper has it, and what this keeper answers then.
fn said_beside<K: Keeper + Drop>(
    rt: &HostRuntime,
    path: &str,
    keeper: K,
) -> Result<(Option<OpenError>, String), Fail> {
    let said = FileKeeper::open(rt, path).err();
    let calls = [Call::Store(&[("b", 2, 1)]), Call::Load];
    Ok((said, told(rt.alloc(), keeper, &calls)?))
}

#[test]
fn a_file_in_use_is_locked(rt: HostRuntime) -> Result<(), Fail> {
    folder(&rt, "used_files")?;
    let path = "used_files/a.db";
    played(&rt, path, &[Call::Store(&[("a", 1, 1)])])?;
    let (said, told) = said_beside(&rt, path, FileKeeper::open(&rt, path)?)?;
    assert_eq!(rt; said, Some(OpenError::Locked));
    assert_eq!(rt; told.as_str(), "done;a=1*1 b=2*1 ;");
    leave(&rt, "used_files")
}
