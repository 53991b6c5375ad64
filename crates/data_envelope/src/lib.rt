//! The entry of one key: data, versions and marks.
//!
//! # What is promised, and by which contract
//!
//! - Where an envelope stands for an entry of the model, it stands after each call for the entry
//!   that the model has then: an update adds the record; a merge gives the union of the histories,
//!   where that is exactly pruned, and the merged marks; a delta group is judged as the model
//!   judges it (new, known, or with a gap at the first identity of which a needed record is
//!   lacking), and a new one adds its records; a mark is begun, and a prune performed, as the
//!   model's tick does (`Envelope::update`, `merge`, `add_seen`, `judge`, `take`, `at`, `known`,
//!   `show`, `versions`, `markers`, `from_parts`, `init_prune`, `perform`).
//! - **Always so of an envelope**: of an identity that was pruned it has no number, and its data do
//!   not mention it, whether it stands for an entry or not (`impl Model for Envelope`
//!   (`AreForgotten`); clauses `forgotten` of `markers` and `perform`).
//! - An entry that gains nothing from another is the merge of both, and whoever sees its marks
//!   changes none; it gains nothing where it has each record of the other and neither has begun a
//!   mark. No identity from the limit on has a record or a mark (`Envelope::{gains_nothing,
//!   limit}`).
//! - Of every envelope: what becomes of the first step of a prune is told by its versions and its
//!   mark; a performed prune is the owner's next record, the removed identity is counted no more,
//!   and its mark names the prune (`Envelope::init_prune` (`init_of`), `perform` (`IsPruned`)).
#![tactic(auto)]

mod cleaning;
mod envelope;
mod group;
mod outcomes;

pub use envelope::Envelope;
pub use group::Group;
pub use outcomes::{Init, Judgement, Perform};
