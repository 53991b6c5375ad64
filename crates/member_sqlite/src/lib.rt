//! Keepers over a database of `sqlite`: one in memory, and one in a file.
//!
//! # What is promised, and by which contract
//!
//! - The keeper over a database tells its table. Each refusal other than want of memory raises the
//!   count by one, and nothing else raises it (`impl Keeper for SqliteKeeper`, clause `counted`).
//! - What a call answers is what its database answered, which is the one that is open or one that
//!   was opened for the call: a store put its entries there, several in one transaction that was
//!   committed, or nothing changed; a clear deleted all rows; a load found the table in them (clause
//!   `asked`). Want of memory alone may come before the database is asked.
//! - The keeper over a file has as its table what the rows of the database say that the file held; a
//!   file that held no table gets those of this version, and the keeper has the empty table
//!   (`StoreKeeper::open_from`, clause `opened` (`IsOpenedFrom`)). Where there is none, the error says
//!   why, and the files are left as the kit's `sqlite` says of an open that fails (clause `refused`).
//!   Its calls do to the database what those of the keeper in memory do (`impl Keeper for
//!   StoreKeeper`, clause `asked`). All this is said while the disk has returned what was written.
#![tactic(auto)]

mod adopting;
mod causes;
mod database;
mod keeper;
mod layout;
mod opening;
mod rows;
mod statements;
mod store_keeper;
mod together;
mod told;
mod writes;

pub use keeper::SqliteKeeper;
pub use opening::FileKeeper;
pub use sqlite::{Unknown, Wary};
pub use store_keeper::StoreKeeper;
pub use told::OpenError;
