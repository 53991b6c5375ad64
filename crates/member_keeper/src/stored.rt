ghost use Rattle.std.specs.Prelude.{◌≡◌, IfOk};

use base_bytes::{Items, Memory, Text};
use std::alloc::Global;

/// A list of bytes.
pub type Bytes = Items<u8>;

/// The bytes that stand at a key.
#[derive(Drop)]
pub struct Stored {
    pub key: Text,
    pub bytes: Bytes,
}

impl Stored {
    /// An equal entry.
    pub fn copy(&self, alloc: Global) -> Result<Stored, Memory>
        ensures { IfOk result (λ copy. copy ≡ self.now) }
    {
        let key = self.key.copied();
        let bytes = Vec::from_slice(alloc, self.bytes.as_slice())?;
        Ok(Stored {
            key,
            bytes: Items::from_vec(bytes),
        })
    }
}
