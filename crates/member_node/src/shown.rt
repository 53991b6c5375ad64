ghost use Rattle.std.specs.Prelude.{◌≡◌, IfOk};

use base_bytes::{Items, Memory};
use model_kinds::Shown;
use std::alloc::Global;

/// An equal value.
pub(crate) fn copy_shown(alloc: Global, shown: &Shown) -> Result<Shown, Memory>
    ensures { IfOk result (λ copy. copy ≡ shown.now) }
{
    match shown {
        Shown::Count(count) => Ok(Shown::Count(*count)),
        Shown::Signed(count) => Ok(Shown::Signed(*count)),
        Shown::Elements(texts) => {
            let mut copies = Items::new(alloc);
            for text in texts.as_slice() {
                copies.push(text.copied())?;
            }
            Ok(Shown::Elements(copies))
        }
        Shown::Switch(on) => Ok(Shown::Switch(*on)),
        Shown::Written(text) => Ok(Shown::Written(text.copied())),
        Shown::Deleted => Ok(Shown::Deleted),
    }
}
