ghost use Rattle.std.specs.Prelude.{◌≡◌, ◌≤◌, ◌++◌, length, drop, map, IfOk, OnOk, MatchOption, true, false};
ghost use Rattle.std.specs.List.{list_all};
ghost use Rattle.base_places.specs.Places.{GivesOn};
ghost use Rattle.member_views.specs.Sound.{IsView};
ghost use Rattle.member_codec.specs.Views.{comes_before, are_apart, is_seated, are_few, is_view, member_at, seat_of, seats_spelled, parts_spelled, seats_in, view_with, view_spelled, members_in, parts_in, view_in};

use crate::lists::take_both;
use crate::piece::Piece;
use base_bytes::{Items, Memory, ReadError};
use base_places::read_at;
use base_vectors::{IDENTITIES, Id};
use member_views::{Member, PLACES, View};
use std::alloc::Global;

/// Identities, each with a place.
type Seats = Items<(Id, u8)>;

/// Whether a member's identity is less than another's, and they run at different places.
fn comes_before(one: &Member, other: &Member) -> bool
    ensures { result ≡ comes_before one.now other.now }
{
    one.id.number() < other.id.number() && one.place != other.place
}

/// Whether a member comes before all of these.
fn comes_first(one: &Member, others: &[Member]) -> bool
    ensures { result ≡ list_all (comes_before one.now) others.now }
{
    others.iter().all(|other| comes_before(one, other))
}

/// Whether each member comes before those after it.
fn are_apart(members: &[Member]) -> bool
    ensures { result ≡ are_apart members.now }
{
    match members {
        [] => true,
        [first, others @ ..] => comes_first(first, others) && are_apart(others),
    }
}

/// Whether a member's identity was given, and there is such a place.
fn is_seated(given: u8, member: &Member) -> bool
    ensures { result ≡ is_seated given member.now }
{
    member.id.number() < given && member.place < PLACES
}

/// Whether the identities of the members were given, and there are such places.
fn are_seated(given: u8, members: &[Member]) -> bool
    ensures { result ≡ list_all (is_seated given) members.now }
{
    members.iter().all(|member| is_seated(given, member))
}

/// Whether there is a member, and few views came before one with so many identities given.
fn are_few(number: u32, given: u8, members: &[Member]) -> bool
    ensures { result ≡ are_few number given (length members.now) }
{
    let early = u64::from(number) + members.len() as u64 <= 2 * u64::from(given);
    0 < members.len() && given <= IDENTITIES && early
}

/// Whether these are the parts of a view.
fn is_view(number: u32, given: u8, members: &[Member]) -> bool
    ensures { result ≡ is_view (record { number = number; given = given; members = members.now }) }
{
    are_few(number, given, members) && are_seated(given, members) && are_apart(members)
}

/// Members of these identities at these places.
fn members_at(alloc: Global, seats: &[(Id, u8)]) -> Result<Vec<Member>, Memory>
    ensures { IfOk result (λ members. members.items ≡ map member_at seats.now) }
{
    let members = seats
        .iter()
        .map(|seat| Member {
            id: seat.0,
            place: seat.1,
        })
        .collect(alloc)?;
    Ok(members)
}

/// The view with these parts, if they are those of a view.
#[tactic(auto, using(crate::specs::ViewTests::view_of_test))]
fn view_with(
    alloc: Global,
    number: u32,
    given: u8,
    seats: &[(Id, u8)],
) -> Result<Option<View>, Memory>
    ensures { IfOk result (λ made. MatchOption made (is_view (view_with number given seats.now) ≡ false) (λ view. (view ≡ view_with number given seats.now) × (is_view (view_with number given seats.now) ≡ true))) }
{
    let members = members_at(alloc, seats)?;
    if is_view(number, given, members.as_slice()) {
        Ok(Some(View::from_parts(number, given, members)))
    } else {
        Ok(None)
    }
}

/// Identities with places, at a place, and the place after them.
fn take_seats(alloc: Global, from: &[u8], place: usize) -> Result<(Seats, usize), ReadError>
    requires { place ≤ length from.now }
    ensures within { IfOk result (λ x. x.1 ≤ length from.now) }
    ensures exact { GivesOn from.now (λ x. x) result (seats_in (drop place from.now)) }
{
    <Seats as Piece>::take(alloc, from, place)
}

/// The members of a view with this number, and with so many identities given, at a place, and the place after them.
fn take_members(
    alloc: Global,
    number: u32,
    given: u8,
    from: &[u8],
    place: usize,
) -> Result<(View, usize), ReadError>
    requires { place ≤ length from.now }
    ensures within { IfOk result (λ x. x.1 ≤ length from.now) }
    ensures exact { GivesOn from.now (λ x. x) result (members_in number given (drop place from.now)) }
{
    match take_seats(alloc, from, place) {
        Ok((seats, next)) => match view_with(alloc, number, given, seats.as_slice()) {
            Ok(Some(view)) => Ok((view, next)),
            Ok(None) => Err(ReadError::BadByte(place)),
            Err(_) => Err(ReadError::Memory),
        },
        Err(error) => Err(error),
    }
}

/// A view behind its format, at a place, and the place after it.
fn take_parts(alloc: Global, from: &[u8], place: usize) -> Result<(View, usize), ReadError>
    requires { place ≤ length from.now }
    ensures within { IfOk result (λ x. x.1 ≤ length from.now) }
    ensures exact { GivesOn from.now (λ x. x) result (parts_in (drop place from.now)) }
{
    match take_both::<u32, u8>(alloc, from, place) {
        Ok(((number, given), next)) => take_members(alloc, number, given, from, next),
        Err(error) => Err(error),
    }
}

/// The view that is spelled at a place, and the place after it; else the place of the first field that is cut short or breaks
/// its rule.
pub(crate) fn take_view(
    alloc: Global,
    from: &[u8],
    place: usize,
) -> Result<(View, usize), ReadError>
    requires { place ≤ length from.now }
    ensures within { IfOk result (λ x. x.1 ≤ length from.now) }
    ensures exact { GivesOn from.now (λ x. x) result (view_in (drop place from.now)) }
{
    match read_at::<u8>(alloc, from, place) {
        Ok((format, next)) => {
            if format != 1 {
                return Err(ReadError::BadByte(place));
            }
            take_parts(alloc, from, next)
        }
        Err(error) => Err(error),
    }
}

/// Identities and places of members.
fn seats_of(alloc: Global, members: &[Member]) -> Result<Vec<(Id, u8)>, Memory>
    ensures { IfOk result (λ seats. seats.items ≡ map seat_of members.now) }
{
    let seats = members
        .iter()
        .map(|member| (member.id, member.place))
        .collect(alloc)?;
    Ok(seats)
}

/// Appends the spelling of identities and places.
fn put_seats(seats: &Seats, into: &mut Vec<u8>) -> Result<(), Memory>
    ensures { OnOk result (into.new.items ≡ into.old.items ++ seats_spelled seats.now) }
{
    seats.put(into)
}

/// Appends the spelling of the parts of a view.
fn put_parts(number: u32, given: u8, seats: &Seats, into: &mut Vec<u8>) -> Result<(), Memory>
    ensures { OnOk result (into.new.items ≡ into.old.items ++ parts_spelled number given seats.now) }
{
    into.push(1)?;
    number.put(into)?;
    into.push(given)?;
    put_seats(seats, into)
}

/// Appends the spelling of a view. After a refusal a part of it may have been appended.
pub(crate) fn put_view(alloc: Global, view: &View, into: &mut Vec<u8>) -> Result<(), Memory>
    ensures sound { IsView view.now }
    ensures ok { OnOk result (into.new.items ≡ into.old.items ++ view_spelled view.now) }
{
    let number = view.number();
    let given = view.given();
    let listed = seats_of(alloc, view.members())?;
    let seats = Items::from_vec(listed);
    put_parts(number, given, &seats, into)
}
