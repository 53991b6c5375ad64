ghost use Rattle.std.specs.Prelude.{◌≡◌, ℕ, List, ◌++◌, string_bytes, OnOk, IfOk};
ghost use Rattle.model_history.specs.Texts.{Text as Name};
ghost use Rattle.model_history.specs.History.{History};
ghost use Rattle.model_members.specs.Entry.{Entry};
ghost use Rattle.model_members.specs.Node.{Node as Member};
ghost use Rattle.model_members.specs.World.{World as Modelled};
ghost use Rattle.model_members.specs.Report.{node_text, member_text};
ghost use Rattle.model_kinds.specs.ShownText.{shown_text};
ghost use Rattle.model_kinds.specs.declared.shown.Shown.{Shown};
ghost use Rattle.member_node.specs.Members.{delta_groups, StandsForKey, StandsForNode};
ghost use Rattle.world_members.specs.Standing.{StandsForWorld};
ghost use Rattle.report_lines.specs.Finals.{key_line, member_line, view_line, IsBlockOf};

use base_bytes::Memory;
use base_vectors::Id;
use data_lattice::{Replica, SpelledData};
use member_keeper::Keeper;
use member_node::{KeyState, Node};
use report_texts::{push_known, push_marks, push_value};
use std::alloc::Global;
use world_members::World;

/// Adds the line of a key: its value, its records by identity, and its marks.
fn push_key<T: Replica>(alloc: Global, text: &mut String, key: &KeyState<T>) -> Result<(), Memory>
    ensures { (kinds : Name → T.Kind) (logs : Name → History T.Op) (entry : Entry T.Op) (flushed : ℕ → ℕ)
        → StandsForKey T.kind_of T.IsDataOf T.IsDeltaOf kinds logs key.now entry flushed
        → OnOk result (string_bytes text.new ≡ string_bytes text.old ++ key_line T.data_type key.now.name key.now.kind entry) }
{
    let entry = key.entry();
    write!(text, "{} ", key.name().as_str())?;
    push_value(alloc, text, entry)?;
    text.push_str(" known ")?;
    push_known(alloc, text, entry)?;
    text.push_str(" marks ")?;
    push_marks(alloc, text, entry)?;
    text.push_str("\n")?;
    Ok(())
}

/// Adds the line of a member: its identity, the place where it runs, and the number of its view.
fn push_member_line(text: &mut String, id: u8, place: u8, view: u32) -> Result<(), Memory>
    ensures { OnOk result (string_bytes text.new ≡ string_bytes text.old ++ member_line id place view) }
{
    writeln!(text, "member {id} place {place} view {view}")?;
    Ok(())
}

/// Adds what a member at a place holds.
fn push_member<T: SpelledData, K: Keeper + Drop>(
    alloc: Global,
    text: &mut String,
    place: u8,
    member: &Node<T, K>,
) -> Result<(), Memory>
    ensures { (digest : T.Kind → Entry T.Op → List ℕ) (kinds : Name → T.Kind) (logs : Name → History T.Op) (node : Member T.Kind T.Op Shown)
        → StandsForNode T.kind_of T.IsDataOf kinds logs member.now node
        → OnOk result (string_bytes text.new ≡ string_bytes text.old ++ node_text (delta_groups T.data_type digest) shown_text place node) }
{
    push_member_line(text, member.id().number(), place, member.view().number())?;
    for key in member.keys() {
        push_key(alloc, text, key)?;
    }
    Ok(())
}

/// Adds the line of the last view.
fn push_view_line(text: &mut String, view: u32) -> Result<(), Memory>
    ensures { OnOk result (string_bytes text.new ≡ string_bytes text.old ++ view_line view) }
{
    writeln!(text, "final view {view}")?;
    Ok(())
}

/// Adds what the member of an identity at a place holds, if it runs.
fn push_seat<T: SpelledData, K: Keeper + Drop>(
    alloc: Global,
    text: &mut String,
    world: &World<T, K>,
    id: Id,
    place: u8,
) -> Result<(), Memory>
    ensures { (digest : T.Kind → Entry T.Op → List ℕ) (kinds : Name → T.Kind) (logs : Name → History T.Op) (end : Modelled T.Kind T.Op Shown)
        → StandsForWorld T.SpelledData.own kinds logs world.now end
        → OnOk result (string_bytes text.new ≡ string_bytes text.old ++ member_text (delta_groups T.data_type digest) shown_text end (record { identity = id; place = place })) }
{
    match world.node(id) {
        Some(node) => push_member(alloc, text, place, node),
        None => Ok(()),
    }
}

/// What the members of the last view hold.
pub(crate) fn final_block<T: SpelledData, K: Keeper + Drop>(
    alloc: Global,
    world: &World<T, K>,
) -> Result<String, Memory>
    ensures { IfOk result (λ text. IsBlockOf T.SpelledData.own world.now (string_bytes text)) }
{
    let view = world.views().last();
    let mut text = String::new(alloc);
    push_view_line(&mut text, view.number())?;
    for member in view.members() {
        push_seat(alloc, &mut text, world, member.id, member.place)?;
    }
    Ok(text)
}
