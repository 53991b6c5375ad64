use crate::amounts::{Amount, Amounts};
use base_vectors::Id;

/// The share that an identity reached: what it added itself, and what it took over from those it pruned.
#[derive(Clone, Copy, Debug, PartialEq, Eq)]
pub struct Share {
    pub origin: Id,
    pub share: Amount,
}

/// A counter that only grows: a share per identity.
#[derive(Drop)]
pub struct GCounter {
    pub(crate) shares: Amounts,
}

/// The two shares that an identity reached: of what it added and of what it took away.
#[derive(Clone, Copy, Debug, PartialEq, Eq)]
pub struct PnShare {
    pub origin: Id,
    pub plus: Amount,
    pub minus: Amount,
}

/// A counter that moves both ways: what was added, and what was taken away.
#[derive(Drop)]
pub struct PnCounter {
    pub(crate) plus: GCounter,
    pub(crate) minus: GCounter,
}
