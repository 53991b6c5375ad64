/// The kind of a key's value.
#[derive(Clone, Copy, Debug, PartialEq, Eq)]
pub enum Kind {
    GCounter,
    PnCounter,
    GSet,
    OrSet,
    Flag,
    LwwRegister,
}
