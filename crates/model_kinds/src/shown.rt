use base_bytes::{Items, Text};

/// Texts, each once, in byte order.
pub type Texts = Items<Text>;

/// A value as it is shown.
#[derive(Drop)]
pub enum Shown {
    /// The sum of a growing counter.
    Count(u128),
    /// The sum of a counter that moves both ways.
    Signed(i128),
    /// The elements of a set, in byte order.
    Elements(Texts),
    /// Whether a flag is on.
    Switch(bool),
    /// The text of a register.
    Written(Text),
    /// That the key is deleted.
    Deleted,
}
