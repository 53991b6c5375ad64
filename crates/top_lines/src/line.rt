use base_bytes::Items;
use base_vectors::Id;
use script_reading::Step;

/// What a line says.
#[derive(Drop)]
pub enum Line {
    /// A step, in the form that scripts have.
    Asks(Step),
    /// These bytes came as from this identity.
    Brings(Id, Items<u8>),
    /// A view was decided, which these bytes spell.
    Decides(Items<u8>),
}
