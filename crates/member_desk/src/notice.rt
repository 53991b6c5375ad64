use base_bytes::{Items, Text};
use model_kinds::Shown;

/// What a client is told of a key that it follows.
#[derive(Drop)]
pub struct Notice {
    /// The client.
    pub client: u32,
    /// The key.
    pub key: Text,
    /// What the member shows of the key, or that it is deleted.
    pub shown: Shown,
}

/// The notices of a flush, by keys in byte order and then clients rising.
pub type Notices = Items<Notice>;
