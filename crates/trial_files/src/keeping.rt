//! What was stored is loaded, and what was stored in a file is there after it was opened again.

use crate::calls::{Call, told};
use crate::files::{close, folder, leave, played};
use member_sqlite::SqliteKeeper;
use std::fs;
use std::test::Fail;

#[test]
fn keeps_the_last_bytes_of_each_key(rt: HostRuntime) -> Result<(), Fail> {
    let calls = [
        Call::Store(&[("b", 3, 3)]),
        Call::Store(&[("b", 2, 5000), ("a", 1, 300)]),
        Call::Load,
        Call::Clear,
        Call::Load,
    ];
    let told = told(rt.alloc(), SqliteKeeper::in_memory(rt.alloc()), &calls)?;
    assert_eq!(rt; told.as_str(), "done;done;a=1*300 b=2*5000 ;done;;");
    Ok(())
}

/// What the file at a path has.
fn loaded(rt: &HostRuntime, path: &str) -> Result<String, Fail> {
    played(rt, path, &[Call::Load])
}

#[test]
fn what_was_stored_is_there_again(rt: HostRuntime) -> Result<(), Fail> {
    folder(&rt, "kept_files")?;
    let path = "kept_files/a.db";
    played(
        &rt,
        path,
        &[
            Call::Store(&[("b", 3, 3)]),
            Call::Store(&[("a", 1, 300), ("b", 2, 5000)]),
        ],
    )?;
    assert_eq!(rt; loaded(&rt, path)?.as_str(), "a=1*300 b=2*5000 ;");
    leave(&rt, "kept_files")
}

#[test]
fn a_closed_file_has_all_by_itself(rt: HostRuntime) -> Result<(), Fail> {
    folder(&rt, "closed_files")?;
    played(&rt, "closed_files/a.db", &[Call::Store(&[("c", 7, 3)])])?;
    close(&rt, "closed_files/a.db")?;
    fs::copy(&rt, "closed_files/a.db", "closed_files/b.db")?;
    assert_eq!(rt; loaded(&rt, "closed_files/b.db")?.as_str(), "c=7*3 ;");
    leave(&rt, "closed_files")
}

#[test]
fn what_was_cleared_is_gone(rt: HostRuntime) -> Result<(), Fail> {
    folder(&rt, "cleared_files")?;
    let path = "cleared_files/a.db";
    played(&rt, path, &[Call::Store(&[("a", 1, 3), ("b", 2, 3)])])?;
    played(&rt, path, &[Call::Clear, Call::Store(&[("d", 4, 3)])])?;
    assert_eq!(rt; loaded(&rt, path)?.as_str(), "d=4*3 ;");
    leave(&rt, "cleared_files")
}
