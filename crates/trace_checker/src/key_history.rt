use crate::prunes::PruneMade;
use base_bytes::Items;
use base_vectors::{Dot, VersionVector};
use data_meaning::Record;
use trace_values::Values;

/// What the lines so far say of a key. The lists by identity end where nothing more is known.
#[derive(Drop)]
pub(crate) struct KeyHistory {
    /// The records made, by identity and then in their order.
    pub(crate) rows: Vec<Items<Record>>,
    /// How many records of each identity each identity holds.
    pub(crate) held: Vec<VersionVector>,
    /// Which of the records prune an identity.
    pub(crate) prunes: Items<PruneMade>,
    /// Which of the records delete the key.
    pub(crate) deletes: Items<Dot>,
    /// What is kept of the records to tell what a part of them means.
    pub(crate) values: Values,
}
