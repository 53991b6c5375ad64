//! The one spelling of a message and of a view as bytes, and how they are read.
//!
//! # What is promised, and by which contract
//!
//! - What is read is spelled so; what is spelled is read, unless memory runs out; else the answer is
//!   the place of the first field that is cut short, breaks its rule or is left over (clauses
//!   `found`, `only`, `exact`) (`read_message`, `read_view`).
//! - The spelling is the one function of the parts, and what is spelled of any message or view can be
//!   read again (`readable`) (`spell_message`, `spell_view`).
//! - No spelling of a message is a proper prefix of another's, and none of a view of another view's
//!   (`one_spelling`, `one_view_spelling`).
//! - A delta that is read is of the origin that its group tells (`IsSpellable`).
//! - What is read of the spelling of a message stands for what that stands for (`stands_as_sent`): a
//!   transport that hands over what was posted, as from who posted it, keeps members to a run.
#![tactic(auto)]

mod codec;
mod entries;
mod error;
mod fields;
mod groups;
mod identities;
mod keyed;
mod lists;
mod messages;
mod numbers;
mod options;
mod piece;
mod sent;
mod view_codec;
mod views;

pub use codec::{one_spelling, read_message, spell_message};
pub use error::CodecError;
pub use sent::stands_as_sent;
pub use view_codec::{one_view_spelling, read_view, spell_view};
