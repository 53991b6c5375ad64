//! Members behind locks: calls from many threads, looks, and turns in which each member takes what the others sent it.
//! The locks are of any machines that post messages to each other; `Cluster` has members of the replicator under them.
//!
//! # What is promised, and by which contract
//!
//! - A call at the member of an identity (any input that takes no message, or the view of a number)
//!   that is answered: the session then knows, where the receipt says, an entry with this input,
//!   the session's number, and the receipt's stamp and answer. It knew no such entry and had not
//!   made this call; its calls grew by it alone. The entry is the member's step after the entries
//!   before it, from the member that the table began with there. The stamp is above all that the
//!   session had seen (`Cluster::{ask, install}` (`IsCall`, `IsInstall`, `IsReceipt`,
//!   `IsAnswered`)).
//! - Refused, the session's calls stay. `Gone` comes exactly where no member has the identity, and
//!   `NoSuchView` from an install alone, exactly where a member has the identity and the list lacks
//!   the number. `HistoryFull` comes only where the history there has 16,384 entries or the member
//!   made all its steps, as the session then knows (the same calls, clauses `call`, `install`,
//!   `no_view`).
//! - A turn that is answered `n`: each message of one member to another that stands in a history
//!   which the session knew before is taken by its receiver in what the session knows then, at the
//!   same number and with a higher stamp; the session's calls grew by `n` takes, each of a message
//!   of the member at some place. Refused, they grew by takes alone, and `HistoryFull` comes only
//!   where the history of some place is full or its member made all its steps, and some other member
//!   posted more to it than it took, as the session then knows (`Cluster::turn` (`HasTurnedAll`,
//!   `HasBegun`, `IsTake`, `IsFullSomewhere`, `HasUnheard`)).
//! - A turn reads at most as many entries as there are messages to running members, in what the
//!   session then knows, that weren't heard in what it knew before, whatever it answers
//!   (`Cluster::turn_counted`, clause `steps` (`unheard`)).
//! - **Always so of a book**: to each peer it has as many posts, by the entries that posted them,
//!   and of each as many that were heard, as a walk over the history would give (`Locked`'s
//!   invariant (`IsBook`, `IsPage`)).
//! - A look tells how an operation stands at the member as it is after the history that the session
//!   then knows there; calls stay. `Gone` as above (`Cluster::look` (`IsShownBy`, `Looks`)).
//! - Whatever is answered, what the session knew at a place is the beginning of what it then knows
//!   there (the same calls (`GoesOn`, `Sees`)).
//! - **Always so under a lock**: what a member took of each other one are, by number, the messages
//!   that the other posted to it, each with a higher stamp. So it is of the cells that a cluster
//!   leaves (`Locked::into_cell`, `Cluster::into_cells` (`Hears`, `AllHear`)).
//! - All of this for any machine that posts and takes messages; a message is copied as it is
//!   (`Member`, `Cluster::{call_at, look_at, turn_all}`, `Member::{count_posted, copy_posted}`).
#![tactic(auto)]

mod accepting;
mod any_site;
pub mod book;
pub mod call;
mod calls;
pub mod cluster;
mod cluster_turn;
mod counting;
mod error;
mod finding;
mod hearing;
pub mod locked;
pub mod member;
mod node;
mod opening;
pub mod peer;
pub mod places;
pub mod section;
pub mod site;
mod stopping;
mod turn;

pub use cluster::Cluster;
pub use error::CallError;
