use data_envelope::Group;
use data_lattice::Replica;

/// What a log answers of the own records after a number.
#[derive(Drop)]
pub enum Grouped<T: Replica> {
    /// No record follows the number.
    Nothing,
    /// The record after the number isn't kept any more.
    TooOld,
    /// One of the records is a prune, which has no delta.
    NoDelta,
    /// The records after the number, up to the last.
    Group(Group<T>),
}
