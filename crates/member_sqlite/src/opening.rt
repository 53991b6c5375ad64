//! A keeper over a file.

ghost use Rattle.std.specs.Prelude.{◌≡◌, true, false, IfOk, IfErr};
ghost use Rattle.member_sqlite.specs.declared.told.OpenError.TheVariants as error;
ghost use Rattle.sqlite_wal.specs.Files.{image_at};
ghost use Rattle.sqlite_std_file.specs.File.{IsFresh};
ghost use Rattle.sqlite.specs.State.{HasCleanDisk, store_error};
ghost use Rattle.member_sqlite.specs.Told.{told};
ghost use Rattle.sqlite.specs.Start.{FindsIn};
ghost use Rattle.sqlite.specs.Files.{file_state, IsOpened};
ghost use Rattle.member_keeper.specs.Tables.{IsTable};
ghost use Rattle.member_sqlite.specs.Opening.{IsOpenedFrom, TellsCause, TellsRefusal};

use crate::adopting::adopt;
use crate::database::Database;
use crate::store_keeper::StoreKeeper;
use crate::told::{OpenError, told};
use crate::writes::Writes;
use sqlite::{Connection, File, FileFrom, FileStore, Start, Unknown};
use std::alloc::Global;

/// A keeper over a file.
pub type FileKeeper = StoreKeeper<FileStore<File>>;

impl StoreKeeper<FileStore<File>> {
    /// Opens the file at a path, or makes it: `open_from`, which supposes of a write that a loss of power tears that each byte
    /// is the old one or the new one.
    ///
    /// # Errors
    ///
    /// As `OpenError` says. What was stored in the file is in it still.
    pub fn open(rt: &HostRuntime, path: &str) -> Result<FileKeeper, OpenError>
        ensures in_order { IfOk result (λ keeper. IsTable keeper.table.entries) }
        ensures faults { IfOk result (λ keeper. keeper.faults ≡ 0) }
    {
        StoreKeeper::open_from(rt, path, Unknown)
    }
}

impl<S: Start> StoreKeeper<FileStore<FileFrom<S>>> {
    /// Opens the file at a path, or makes it, and has what keepers before stored in it.
    ///
    /// Beside the file lies its log, `PATH-wal`: the two are one database, and are moved or copied together. No other program
    /// may write to them. A new file has a sum on each page, so that bits that changed since are found at the next open.
    ///
    /// `S` says what is supposed of a write that a loss of power tears: `Unknown` that each byte is the old one or the new
    /// one, `Wary` nothing, at the cost of a second wait for the disk at each store.
    ///
    /// # Errors
    ///
    /// As `OpenError` says. What was stored in the file is in it still.
    pub fn open_from(
        rt: &HostRuntime,
        path: &str,
        start: S,
    ) -> Result<StoreKeeper<FileStore<FileFrom<S>>>, OpenError>
        ensures opened { IfOk result (λ keeper. HasCleanDisk (file_state keeper.conn) → IsOpenedFrom (image_at S.Start) keeper.conn keeper.table.entries) }
        ensures in_order { IfOk result (λ keeper. IsTable keeper.table.entries) }
        ensures faults { IfOk result (λ keeper. keeper.faults ≡ 0) }
        ensures refused { TellsRefusal result (λ keeper. keeper.conn) (IsFresh true) (IsFresh false) (image_at S.Start) }
    {
        let writes = match prepared(rt.alloc()) {
            Ok(writes) => writes,
            Err(why) => return Err(why),
        };
        let mut conn = match connect(rt, path, start) {
            Ok(conn) => conn,
            Err(why) => return Err(why),
        };
        match adopt(rt.alloc(), &mut conn) {
            Ok(table) => {
                let _in_order = table.entries();
                Ok(StoreKeeper {
                    table,
                    conn,
                    writes,
                    faults: 0,
                })
            }
            Err(why) => Err(why),
        }
    }

    /// Copies the log into the file and closes both. The file alone then has what was stored; beside one whose keeper was
    /// dropped, or whose process was killed, the log has to stay.
    ///
    /// # Errors
    ///
    /// As `OpenError` says. What was stored is in the file and its log still.
    pub fn close(self) -> Result<(), OpenError>
        ensures { IfErr result (λ why. (cause : _) × (why ≡ told (store_error cause))) }
    {
        match self.conn.close() {
            Ok(()) => Ok(()),
            Err(error) => Err(told(error)),
        }
    }
}

/// The two statements that put an entry. They mean their texts on every connection, so they are prepared apart from the file.
fn prepared(alloc: Global) -> Result<Writes, OpenError>
    ensures { IfErr result (λ why. why ≡ error.Memory) }
{
    match Database::open(alloc) {
        Ok(database) => Ok(database.into_writes()),
        Err(_) => Err(OpenError::Memory),
    }
}

/// A connection to the file at a path.
fn connect<S: Start>(
    rt: &HostRuntime,
    path: &str,
    start: S,
) -> Result<Connection<FileStore<FileFrom<S>>>, OpenError>
    ensures opened { IfOk result (λ conn. HasCleanDisk (file_state conn) → IsOpened conn × FindsIn (image_at S.Start) (file_state conn)) }
    ensures cause { TellsCause result (IsFresh true) (IsFresh false) }
{
    match Connection::open_from(rt, path, true, start) {
        Ok(conn) => Ok(conn),
        Err(refused) => Err(told(refused.0)),
    }
}
