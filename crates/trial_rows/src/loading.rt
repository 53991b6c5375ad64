//! Keepers that load what they are told, and not what was stored.

ghost use Rattle.std.specs.Prelude.{◌≡◌, length, IfOk};

use base_bytes::{Items, Text};
use member_keeper::{Keeper, KeeperError, Stored};
use std::alloc::Global;
use std::test::Fail;

/// A keeper that tells nothing, and loads these bytes for `d`, whatever was stored.
#[derive(Drop)]
pub struct LoadingKeeper {
    alloc: Global,
    bytes: Vec<u8>,
}

impl Keeper for LoadingKeeper {
    ghost use Rattle.std.specs.Prelude.{None, refl};

    ghost table = { λ _. None };

    ghost answers = { λ _. None };

    ghost faults = { λ _. 0 };

    ghost tells_alike = { λ _ _. refl };

    fn store(&mut self, _entries: &[Stored]) -> Result<(), KeeperError> {
        Ok(())
    }

    fn load(&mut self) -> Result<Vec<Stored>, KeeperError> {
        let Ok(key) = Text::new("d") else {
            return Err(KeeperError::Memory);
        };
        let mut bytes = Items::new(self.alloc);
        for byte in self.bytes.iter() {
            bytes.push(*byte)?;
        }
        let mut loaded = Vec::new(self.alloc);
        match loaded.push(Stored { key, bytes }) {
            Ok(()) => Ok(loaded),
            Err(_) => Err(KeeperError::Memory),
        }
    }

    fn clear(&mut self) -> Result<(), KeeperError> {
        Ok(())
    }
}

/// A keeper for each of the eight places that loads these bytes.
///
/// # Errors
///
/// Where memory is refused.
pub fn loading_keepers(alloc: Global, bytes: &[u8]) -> Result<Vec<LoadingKeeper>, Fail>
    ensures { IfOk result (λ keepers. length keepers.items ≡ 8) }
{
    let mut keepers = Vec::new(alloc);
    for _place in 0_u8..8 {
        let bytes = Vec::from_slice(alloc, bytes)?;
        keepers.push(LoadingKeeper { alloc, bytes })?;
    }
    Ok(keepers)
}
