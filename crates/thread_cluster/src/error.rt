/// Why a call was not made.
#[derive(Clone, Copy, Debug, PartialEq, Eq)]
pub enum CallError {
    /// No running member has the identity.
    Gone,
    /// There is no view of this number.
    NoSuchView,
    /// A history is full, or a member has made as many steps as it may.
    HistoryFull,
    /// Memory was refused.
    Memory,
}
