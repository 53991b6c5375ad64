use crate::gate::Gate;
use std::alloc::Global;
use std::sync::Wait;
use thread_cluster::Cluster;
use thread_cluster::member::Member;
use thread_cluster::section::Section;

/// What each call of a client needs: the runtime, memory, the gate and the cluster.
#[derive(Drop)]
pub(crate) struct Desk<'a, M: Member, N: Section, R: Wait, G: Gate> {
    pub(crate) rt: &'a R,
    pub(crate) alloc: Global,
    pub(crate) gate: &'a G,
    pub(crate) cluster: &'a Cluster<M, N>,
}
