use thread_machine::machine::Machine;

/// Where the entry of a call stands: the place, and the index in the history there from 0 on. With its stamp and what
/// the step answered.
#[derive(Drop)]
pub struct Receipt<M: Machine> {
    pub place: usize,
    pub index: usize,
    pub stamp: u64,
    pub output: M::Output,
}
