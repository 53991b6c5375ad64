ghost use Rattle.std.specs.Prelude.{◌≡◌, ◌<◌, length};
ghost use Rattle.std.specs.Io.{ReadsAtMost};
ghost use Rattle.std.specs.Io.KnownBytes.{ReadConsumes};
ghost use Rattle.base_outside.specs.Causes.{HasCause};

use base_outside::{Failed, Source};
use std::alloc::Global;

/// A source that remembers what it handed on, so that a refused script can be looked at again.
///
/// It takes memory for that as long as there is some. Where it is refused once, nothing is remembered, and the bytes are handed on
/// all the same.
#[derive(Drop)]
pub(crate) struct Remembering<S: Source + Drop> {
    source: S,
    bytes: Option<Vec<u8>>,
}

impl<S: Source + Drop> Remembering<S> {
    /// A source that hands on the bytes of another one.
    pub(crate) fn new(alloc: Global, source: S) -> Remembering<S> {
        Remembering {
            source,
            bytes: Some(Vec::new(alloc)),
        }
    }

    /// The bytes that were handed on, if there was memory for them.
    pub(crate) fn bytes(&self) -> Option<&[u8]> {
        match &self.bytes {
            Some(bytes) => Some(bytes.as_slice()),
            None => None,
        }
    }

    fn remember(&mut self, bytes: &[u8])
        ensures { self.new.source ≡ self.old.source }
    {
        let refused = match &mut self.bytes {
            Some(all) => all.extend_from_slice(bytes).is_err(),
            None => false,
        };
        if refused {
            self.bytes = None;
        }
    }
}

impl<S: Source + Drop> Source for Remembering<S> {
    ghost left = { λ s. S.left s.source };

    ghost faults = { λ s. S.faults s.source };

    fn read(&mut self, into: &mut [u8]) -> Result<usize, Failed> {
        let count = self.source.read(into)?;
        self.remember(&into[..count]);
        Ok(count)
    }
}
