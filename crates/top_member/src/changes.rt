use crate::ended::Ended;
use base_vectors::Id;
use member_codec::spell_view;
use member_views::{PLACES, View, ViewError, ViewList};
use std::alloc::Global;

/// A change of who is a member.
#[derive(Clone, Copy)]
pub(crate) enum Change {
    /// A member leaves.
    Remove(Id),
    /// A new one runs at a free place.
    Join(u8),
    /// A new one runs at the place of a member, which leaves.
    Restart(Id),
}

/// Makes a change.
fn make_change(views: &mut ViewList, change: Change) -> Result<(), Ended> {
    let changed = match change {
        Change::Remove(id) => views.remove(id),
        Change::Join(place) => {
            if place >= PLACES {
                return Err(Ended::Usage);
            }
            match views.join(place) {
                Ok((_, number)) => Ok(number),
                Err(error) => Err(error),
            }
        }
        Change::Restart(id) => match views.replace(id) {
            Ok((_, number)) => Ok(number),
            Err(error) => Err(error),
        },
    };
    match changed {
        Ok(_) => Ok(()),
        Err(ViewError::Memory) => Err(Ended::Memory),
        Err(_) => Err(Ended::NoChange),
    }
}

/// Adds the line of a view: its number, and the digits of its spelling.
fn push_view(alloc: Global, text: &mut String, view: &View) -> Result<(), Ended> {
    let number = view.number();
    let bytes = spell_view(alloc, view)?;
    let digits = hex::encode(alloc, bytes.as_slice())?;
    writeln!(text, "view {number} {digits}")?;
    Ok(())
}

/// The lines of view 0, with so many members, and of the view after each of the changes.
pub(crate) fn views_text(alloc: Global, members: u8, changes: &[Change]) -> Result<String, Ended> {
    if members < 1 || members > PLACES {
        return Err(Ended::Usage);
    }
    let mut views = ViewList::new(alloc, members)?;
    let mut text = String::new(alloc);
    push_view(alloc, &mut text, views.last())?;
    for next in changes {
        make_change(&mut views, *next)?;
        push_view(alloc, &mut text, views.last())?;
    }
    Ok(text)
}
