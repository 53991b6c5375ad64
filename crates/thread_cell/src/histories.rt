use thread_machine::entry::Entry;
use thread_machine::machine::Machine;

/// The history of each place, which is empty where there is no machine.
#[derive(Drop)]
pub struct Histories<M: Machine> {
    pub p0: Vec<Entry<M>>,
    pub p1: Vec<Entry<M>>,
    pub p2: Vec<Entry<M>>,
    pub p3: Vec<Entry<M>>,
    pub p4: Vec<Entry<M>>,
    pub p5: Vec<Entry<M>>,
    pub p6: Vec<Entry<M>>,
    pub p7: Vec<Entry<M>>,
}
