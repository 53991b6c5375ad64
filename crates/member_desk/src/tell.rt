ghost use Rattle.std.specs.Prelude.{◌≡◌, ◌++◌, ℕ, List, Some, is_some, OnOk, IfOk};
ghost use Rattle.member_desk.specs.Notices.{notice_of, tellings, notices_at, is_news, told_at_key};
ghost use Rattle.member_desk.specs.Looks.{shows_told, found_by};

use crate::client::Client;
use crate::followed::Followed;
use crate::look::{Look, Told};
use crate::notice::{Notice, Notices};
use crate::values::{copied, is_same};
use base_bytes::{Memory, Text};
use model_kinds::Shown;
use std::alloc::Global;

/// Appends the notices of a key of which this was found.
pub(crate) fn tell(
    alloc: Global,
    followed: &Followed<Told>,
    look: &Look,
    notices: &mut Notices,
) -> Result<(), Memory>
    ensures { OnOk result (notices.new ≡ notices.old ++ notices_at shows_told followed.now (found_by followed.now.told look.now)) }
{
    match look {
        Look::Nothing => Ok(()),
        Look::Same => tell_standing(alloc, followed, notices),
        Look::Other(now) => tell_now(alloc, followed, now, notices),
    }
}

/// Appends the notices of a key whose records are those of the last look: to clients that were told nothing.
fn tell_standing(
    alloc: Global,
    followed: &Followed<Told>,
    notices: &mut Notices,
) -> Result<(), Memory>
    ensures { OnOk result (notices.new ≡ notices.old ++ notices_at shows_told followed.now followed.now.told) }
{
    match &followed.told {
        Some(told) => tell_clients(alloc, followed, &told.shown, false, notices),
        None => Ok(()),
    }
}

/// Appends the notices of a key that has other records than at the last look.
fn tell_now(
    alloc: Global,
    followed: &Followed<Told>,
    now: &Told,
    notices: &mut Notices,
) -> Result<(), Memory>
    ensures { OnOk result (notices.new ≡ notices.old ++ notices_at shows_told followed.now (Some now.now)) }
{
    let all = is_news(&followed.told, now);
    tell_clients(alloc, followed, &now.shown, all, notices)
}

/// Whether nothing was told, or something else than what is shown now.
fn is_news(told: &Option<Told>, now: &Told) -> bool
    ensures { (key : List ℕ) → result ≡ is_news shows_told key told.now now.now }
{
    match told {
        None => true,
        Some(told) => !is_same(&told.shown, &now.shown),
    }
}

/// Appends a notice for each client of a key, or for each that was told nothing.
fn tell_clients(
    alloc: Global,
    followed: &Followed<Told>,
    shown: &Shown,
    all: bool,
    notices: &mut Notices,
) -> Result<(), Memory>
    ensures { OnOk result (notices.new ≡ notices.old ++ tellings followed.now.key shown.now all followed.now.clients) }
{
    for client in followed.clients.as_slice() {
        if all || !client.told {
            let notice = notice_for(alloc, client, &followed.key, shown)?;
            notices.push(notice)?;
        }
    }
    Ok(())
}

/// A notice for a client.
fn notice_for(alloc: Global, client: &Client, key: &Text, shown: &Shown) -> Result<Notice, Memory>
    ensures { IfOk result (λ notice. notice ≡ notice_of key.now shown.now client.now) }
{
    let shown = copied(alloc, shown)?;
    Ok(Notice {
        client: client.number,
        key: key.copied(),
        shown,
    })
}

/// Notes what was told of a key of which this was found. Takes no memory.
pub(crate) fn take(followed: &mut Followed<Told>, look: Look)
    ensures { followed.new ≡ told_at_key followed.old (found_by followed.old.told look) }
{
    match look {
        Look::Nothing => {}
        Look::Same => take_standing(followed),
        Look::Other(now) => {
            followed.told = Some(now);
            followed.clients.tell_all();
        }
    }
}

/// Notes that each client was told what was told of the key, if anything was.
fn take_standing(followed: &mut Followed<Told>)
    ensures { followed.new ≡ told_at_key followed.old followed.old.told }
{
    if !was_told(&followed.told) {
        return;
    }
    followed.clients.tell_all();
}

/// Whether anything was told.
fn was_told(told: &Option<Told>) -> bool
    ensures { result ≡ is_some told.now }
{
    told.is_some()
}
