use base_vectors::Id;

/// The identities of the members of a table by place, where there is a member.
#[derive(Clone, Copy, Debug, PartialEq, Eq)]
pub struct Identities {
    pub p0: Option<Id>,
    pub p1: Option<Id>,
    pub p2: Option<Id>,
    pub p3: Option<Id>,
    pub p4: Option<Id>,
    pub p5: Option<Id>,
    pub p6: Option<Id>,
    pub p7: Option<Id>,
}
