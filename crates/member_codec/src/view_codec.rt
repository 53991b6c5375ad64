ghost use Rattle.std.specs.Prelude.{◌≡◌, ℕ, ◌++◌, List, length, Ok, IfOk};
ghost use Rattle.base_places.specs.Wholes.{whole_of};
ghost use Rattle.member_views.specs.Views.{View as Seats};
ghost use Rattle.member_views.specs.Sound.{IsView};
ghost use Rattle.member_codec.specs.Views.{view_spelled, view_in};
ghost use Rattle.member_codec.specs.Answers.{IsRead};

use crate::error::CodecError;
use crate::views::{put_view, take_view};
use base_bytes::Memory;
use member_views::View;
use std::alloc::Global;

/// The spelling of a view.
pub fn spell_view(alloc: Global, view: &View) -> Result<Vec<u8>, Memory>
    ensures value { IfOk result (λ bytes. bytes.items ≡ view_spelled view.now) }
    // What is spelled is what `read_view` reads again.
    ensures readable { IsView view.now }
{
    let mut bytes = Vec::new(alloc);
    put_view(alloc, view, &mut bytes)?;
    Ok(bytes)
}

/// The view that the bytes spell, all of them.
fn read_all(alloc: Global, bytes: &[u8]) -> Result<View, CodecError>
    ensures { IsRead (λ view. view) (length bytes.now) result (whole_of view_in bytes.now) }
{
    match take_view(alloc, bytes, 0) {
        Ok((view, next)) => {
            if next < bytes.len() {
                return Err(CodecError::NotASpelling(next));
            }
            Ok(view)
        }
        Err(error) => Err(CodecError::of(error)),
    }
}

/// The view that the bytes spell; else the place of the first field that is cut short, breaks its rule or is left over.
pub fn read_view(alloc: Global, bytes: &[u8]) -> Result<View, CodecError>
    // What is read is spelled so.
    ensures found { IfOk result (λ view. IsView view × (bytes.now ≡ view_spelled view)) }
    // What is spelled so is read, unless memory runs out.
    ensures only { (view : Seats) → IsView view → bytes.now ≡ view_spelled view → IsRead (λ v. v) (length bytes.now) result (Ok view) }
    // Which fault it is.
    ensures exact { IsRead (λ view. view) (length bytes.now) result (whole_of view_in bytes.now) }
{
    read_all(alloc, bytes)
}

/// No spelling of a view is a proper prefix of another's, whatever follows it.
pub fn one_view_spelling()
    ensures { (a b : Seats) (x y : List ℕ) → IsView a → IsView b → view_spelled a ++ x ≡ view_spelled b ++ y → (a ≡ b) × (x ≡ y) }
{}
