ghost use Rattle.std.specs.Prelude.{◌≡◌};
ghost use Rattle.data_value.specs.Values.{kind_of, kind_of_delta, are_same};

use data_counters::{GCounter, PnCounter, PnShare, Share};
use data_growing::{Flag, GSet, LwwRegister, SwitchedOn, Written};
use data_orset::{OrSet, SetDelta};
use model_kinds::Kind;

/// A value of one of the six kinds.
#[derive(Drop)]
pub enum Value {
    GCounter(GCounter),
    PnCounter(PnCounter),
    GSet(GSet),
    OrSet(OrSet),
    Flag(Flag),
    LwwRegister(LwwRegister),
}

/// What one or more operations of one origin changed in a value of one of the six kinds.
#[derive(Drop)]
pub enum Change {
    GCounter(Share),
    PnCounter(PnShare),
    GSet(GSet),
    OrSet(SetDelta),
    Flag(SwitchedOn),
    LwwRegister(Written),
}

/// Whether two kinds are one.
pub(crate) fn are_same(one: Kind, other: Kind) -> bool
    ensures { result ≡ are_same one other }
{
    one == other
}

impl Value {
    /// The kind of this value.
    pub fn kind(&self) -> Kind
        ensures { result ≡ kind_of self.now }
    {
        match self {
            Value::GCounter(_) => Kind::GCounter,
            Value::PnCounter(_) => Kind::PnCounter,
            Value::GSet(_) => Kind::GSet,
            Value::OrSet(_) => Kind::OrSet,
            Value::Flag(_) => Kind::Flag,
            Value::LwwRegister(_) => Kind::LwwRegister,
        }
    }
}

impl Change {
    /// The kind of the values that this changes.
    pub fn kind(&self) -> Kind
        ensures { result ≡ kind_of_delta self.now }
    {
        match self {
            Change::GCounter(_) => Kind::GCounter,
            Change::PnCounter(_) => Kind::PnCounter,
            Change::GSet(_) => Kind::GSet,
            Change::OrSet(_) => Kind::OrSet,
            Change::Flag(_) => Kind::Flag,
            Change::LwwRegister(_) => Kind::LwwRegister,
        }
    }
}
