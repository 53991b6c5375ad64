ghost use Rattle.std.specs.Prelude.{◌≡◌, ◌==◌, ◌||◌, ◌++◌, false, None, length, IfOk, OnOk, IfSome};
ghost use Rattle.data_markers.specs.Marks.{performed_in};
ghost use Rattle.member_node.specs.Changes.{AreMade};
ghost use Rattle.member_node.specs.Keys.{AreDistinctKeys};
ghost use Rattle.member_node.specs.Taking.{KeepsOwn, IsKept, gaps_at};
ghost use Rattle.member_node.specs.Groups.{TellsPassedOver, MeansGroupTaken, MeansGroupTakenAt, PassesGroupOver, MeansGroupsTaken, MeansGaps};

use crate::change::{Changes, current, put};
use crate::key::KeyState;
use crate::places::Places;
use base_bytes::{Items, Memory, Text};
use base_vectors::Id;
use data_envelope::{Envelope, Group, Judgement};
use data_lattice::Replica;
use member_messages::Keyed;
use std::alloc::Global;

/// Keys at which the member lacks a record of an identity.
pub(crate) type Gaps = Items<Keyed<Id>>;

/// What a group makes of an entry: another entry, or a record that is lacking.
#[derive(Drop)]
pub(crate) struct GroupTaken<T: Replica> {
    pub(crate) entry: Option<Envelope<T>>,
    pub(crate) lacking: Option<Id>,
}

/// Whether no run sends the group: it is of the taker itself, or of an identity that was pruned.
fn is_strange<T: Replica>(mine: &Envelope<T>, group: &Group<T>, id: Id) -> bool
    ensures value { result ≡ ((group.now.origin == id) || performed_in mine.now.markers group.now.origin) }
    ensures image { TellsPassedOver T.Replica id mine.now group.now result }
{
    group.origin == id || mine.is_pruned(group.origin)
}

/// Takes a group, unless it is strange, of another kind or known, or a record that it needs is lacking.
fn take_group<T: Replica>(
    alloc: Global,
    mine: &Envelope<T>,
    group: &Group<T>,
    id: Id,
) -> Result<GroupTaken<T>, Memory>
    ensures kept { IfOk result (λ taken. IfSome taken.entry (KeepsOwn T.kind_of id mine.now)) }
    ensures passed_over { T.delta_fits_kind (T.kind_of mine.now.value) group.now.delta ≡ false → IfOk result (λ taken. taken ≡ record { entry = None; lacking = None }) }
    ensures image { IfOk result (MeansGroupTaken T.Replica id mine.now group.now) }
{
    if is_strange(mine, group, id) || !mine.value().delta_fits(&group.delta) {
        return Ok(GroupTaken {
            entry: None,
            lacking: None,
        });
    }
    match mine.judge(group) {
        Judgement::Already => Ok(GroupTaken {
            entry: None,
            lacking: None,
        }),
        Judgement::Gap(lacking) => Ok(GroupTaken {
            entry: None,
            lacking: Some(lacking),
        }),
        Judgement::Take => {
            let mut entry = mine.copy(alloc)?;
            entry.take(group)?;
            Ok(GroupTaken {
                entry: Some(entry),
                lacking: None,
            })
        }
    }
}

/// Adds a gap of a key, if there is one.
fn add_gap(alloc: Global, gaps: &mut Gaps, key: &Text, lacking: Option<Id>) -> Result<(), Memory>
    ensures { OnOk result (gaps.new ≡ gaps.old ++ gaps_at key.now lacking) }
{
    if let Some(item) = lacking {
        let key = key.copied();
        gaps.push(Keyed { key, item })?;
    }
    Ok(())
}

/// Takes a group of a key, if the key is declared.
fn take_group_at<T: Replica>(
    alloc: Global,
    keys: &[KeyState<T>],
    places: &Places,
    changes: &mut Changes<T>,
    gaps: &mut Gaps,
    id: Id,
    keyed: &Keyed<Group<T>>,
) -> Result<(), Memory>
    requires counted { length changes.old ≡ length keys.now }
    requires distinct { AreDistinctKeys keys.now }
    ensures counted { OnOk result (length changes.new ≡ length keys.now) }
    ensures kept { AreMade (IsKept T.kind_of id) keys.now changes.old → OnOk result (AreMade (IsKept T.kind_of id) keys.now changes.new) }
    ensures image { OnOk result (MeansGroupTakenAt T.Replica id keys.now keyed.now changes.old gaps.old changes.new gaps.new) }
    ensures passed_over { OnOk result (PassesGroupOver T.Replica id keys.now keyed.now changes.old gaps.old changes.new gaps.new) }
{
    let Some(index) = places.place(keys, &keyed.key) else {
        return Ok(());
    };
    let now = current(&keys[index], changes, index);
    let taken = take_group(alloc, now, &keyed.item, id)?;
    let GroupTaken { entry, lacking } = taken;
    add_gap(alloc, gaps, &keyed.key, lacking)?;
    put(changes, index, entry)
}

/// Takes the groups of a message, one after another, and gives the gaps.
pub(crate) fn take_groups<T: Replica>(
    alloc: Global,
    keys: &[KeyState<T>],
    places: &Places,
    changes: &mut Changes<T>,
    id: Id,
    groups: &[Keyed<Group<T>>],
) -> Result<Gaps, Memory>
    requires counted { length changes.old ≡ length keys.now }
    requires distinct { AreDistinctKeys keys.now }
    ensures kept { AreMade (IsKept T.kind_of id) keys.now changes.old → OnOk result (AreMade (IsKept T.kind_of id) keys.now changes.new) }
    ensures image { OnOk result (MeansGroupsTaken T.Replica id keys.now groups.now changes.old changes.new) }
    ensures gaps { IfOk result (MeansGaps T.Replica id keys.now groups.now changes.old) }
{
    let mut gaps = Items::new(alloc);
    for keyed in groups {
        take_group_at(alloc, keys, places, changes, &mut gaps, id, keyed)?;
    }
    Ok(gaps)
}
