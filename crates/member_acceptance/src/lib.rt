//! What an honest member would not send.
//!
//! # What is promised, and by which contract
//!
//! - A message is accepted exactly if another member of the view sent it, each of its groups is of
//!   the sender's own records and needs those before them, and neither groups nor entries name an
//!   identity that was not given, or a view that is not there (`accepts`).
//! - A group of the sender's records of a key's log passes, once the view has given whom it needs
//!   (`honest_groups_pass`).
//! - Whether an entry names an identity: in the numbers of records, in the data or in the marks
//!   (`is_named`).
//!
//! It takes no memory. A message that is refused may be dropped as one that was lost: what an honest
//! member sent under a later view comes again by gossip, once the view is installed.
#![tactic(auto)]

mod accepting;
mod laws;
mod naming;

pub use accepting::accepts;
pub use laws::honest_groups_pass;
pub use naming::is_named;
