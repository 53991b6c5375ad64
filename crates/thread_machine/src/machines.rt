use crate::machine::Machine;

/// The machines at places 0 to 7, of which some have none.
#[derive(Drop)]
pub struct Machines<M: Machine> {
    pub p0: Option<M>,
    pub p1: Option<M>,
    pub p2: Option<M>,
    pub p3: Option<M>,
    pub p4: Option<M>,
    pub p5: Option<M>,
    pub p6: Option<M>,
    pub p7: Option<M>,
}
