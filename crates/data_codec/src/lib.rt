//! The one spelling of an entry as bytes, how it is read, and its digest.
//!
//! # What is promised, and by which contract
//!
//! - What is read is spelled so; what is spelled is read, unless memory runs out; else the answer
//!   is the place of the first field that is cut short, breaks its rule or is left over (clauses
//!   `found`, `only`, `exact`) (`read`).
//! - The spelling is the one function of the parts, and where the envelope stands for an entry, the
//!   one function of the entry's kind, history and marks; what is spelled of any envelope can be
//!   read again (`readable`); the digest is its SHA-1 (`spell`, `digest`).
//! - An envelope keeps its digest until it is changed: a question answers the digest, and is a step
//!   exactly where none was kept and one is answered; to change it drops what was kept; want of
//!   memory leaves all as it was (`Digested::{new, envelope, change, digest, told, keep,
//!   is_kept}`).
//! - An entry is stored as its spelling with another first byte and SHA-1 behind it; what is read
//!   of stored bytes is one of the two formats, what is one is read, and a fault is told by its
//!   place (`spell_stored`, `read_stored`).
//! - No spelling is a proper prefix of another's, in either format (`one_spelling`, `one_stored`).
//!   So an envelope that stands among other bytes is read from its place on, and appended, without
//!   its length being told (`read_at`, `append`).
#![tactic(auto)]

mod digested;
mod error;
mod laws;
mod places;
mod reading;
mod spelling;
mod steps;
mod stored;

pub use digested::Digested;
pub use error::CodecError;
pub use laws::{one_spelling, one_stored};
pub use places::read_at;
pub use reading::read;
pub use spelling::{append, digest, spell, spell_stored};
pub use steps::Steps;
pub use stored::read_stored;
