use thread_machine::machine::Machine;
use thread_machine::machines::Machines;

/// What a table begins with: the machines, and how many clients there are.
#[derive(Drop)]
pub struct Opening<M: Machine> {
    pub machines: Machines<M>,
    pub clients: u32,
}
