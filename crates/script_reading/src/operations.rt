ghost use Rattle.std.specs.Prelude.{◌≡◌, ◌≤◌, [], ◌∷◌, codes, length, map, IfOk};
ghost use Rattle.std.specs.List.{list_all};
ghost use Rattle.serde_json.specs.View.{view};
ghost use Rattle.script_reading.specs.Fields.{is_given, names_of};
ghost use Rattle.script_reading.specs.Found.{AreFound};
ghost use Rattle.script_reading.specs.Operations.{op_named, own_names, update_names, element_of, assign_of, op_of};
ghost use Rattle.script_reading.specs.WellFormed.{IsOperation, IsShort};

use crate::fault::Rule;
use crate::fields::{amount_in, given_names, moment_in, short, text_in};
use crate::named::Named;
use base_bytes::Text;
use model_kinds::Op;

/// The name of an operation.
#[derive(Clone, Copy, Debug, PartialEq, Eq)]
pub enum OpName {
    Increment,
    Decrement,
    Add,
    Remove,
    Enable,
    Assign,
    Delete,
}

/// The operation of a name.
pub fn op_named(name: &str) -> Option<OpName>
    ensures { result ≡ op_named name.now }
{
    match name {
        "increment" => Some(OpName::Increment),
        "decrement" => Some(OpName::Decrement),
        "add" => Some(OpName::Add),
        "remove" => Some(OpName::Remove),
        "enable" => Some(OpName::Enable),
        "assign" => Some(OpName::Assign),
        "delete" => Some(OpName::Delete),
        _ => None,
    }
}

/// Whether the names of every update are given.
fn are_all_given(named: &Named) -> bool
    requires { AreFound named.now }
    ensures { result ≡ list_all (is_given (view named.entry.now.value.now)) (codes "at" ∷ codes "do" ∷ codes "key" ∷ codes "op" ∷ []) }
{
    named.at.is_some() && named.form.is_some() && named.key.is_some() && named.op.is_some()
}

/// Whether the names that are the operation's own are given.
fn own_are_given(named: &Named, form: OpName) -> bool
    requires { AreFound named.now }
    ensures { result ≡ list_all (is_given (view named.entry.now.value.now)) (own_names form) }
{
    match form {
        OpName::Increment | OpName::Decrement => named.by.is_some(),
        OpName::Add | OpName::Remove => named.element.is_some(),
        OpName::Assign => named.now.is_some() && named.text.is_some(),
        OpName::Enable | OpName::Delete => true,
    }
}

/// How many names are the operation's own.
fn own_count(form: OpName) -> usize
    ensures count { result ≡ length (own_names form) }
    ensures few { result ≤ 2 }
{
    match form {
        OpName::Increment | OpName::Decrement | OpName::Add | OpName::Remove => 1,
        OpName::Assign => 2,
        OpName::Enable | OpName::Delete => 0,
    }
}

/// The names of an update with this operation.
#[tactic(auto, using(crate::proofs::Names::update_names_given))]
pub fn update_names(named: &Named, form: OpName, more: &[&str], step: u32) -> Result<(), Rule>
    requires { AreFound named.now }
    ensures { result ≡ names_of step (update_names form) (codes "level" ∷ map (λ name. name.now) more.now) (view named.entry.now.value.now) }
{
    let are_given = are_all_given(named) && own_are_given(named, form);
    let count = if named.level.is_some() { 5 } else { 4 } + own_count(form);
    given_names(named.value, are_given, count, more, step)
}

/// The element of an update.
#[tactic(auto, unfolding(crate::specs::Operations::element_of))]
fn element(step: u32, named: &Named) -> Result<Text, Rule>
    requires { AreFound named.now }
    ensures value { result ≡ element_of step (view named.entry.now.value.now) }
    ensures bounds { IfOk result IsShort }
{
    let text = text_in(named.element, Rule { step, number: 9 })?;
    short(text, Rule { step, number: 11 })
}

/// The text of a register and the clock of its writer.
#[tactic(auto, unfolding(crate::specs::Operations::assign_of))]
fn assign(step: u32, named: &Named) -> Result<Op, Rule>
    requires { AreFound named.now }
    ensures value { result ≡ assign_of step (view named.entry.now.value.now) }
    ensures bounds { IfOk result IsOperation }
{
    let text = text_in(named.text, Rule { step, number: 9 })?;
    let now = moment_in(named.now, step)?;
    let text = short(text, Rule { step, number: 11 })?;
    Ok(Op::Assign { text, now })
}

/// The operation of an update.
#[tactic(auto, unfolding(crate::specs::Operations::op_of))]
pub fn operation(step: u32, form: OpName, named: &Named) -> Result<Op, Rule>
    requires { AreFound named.now }
    ensures value { result ≡ op_of step form (view named.entry.now.value.now) }
    ensures bounds { IfOk result IsOperation }
{
    match form {
        OpName::Increment => Ok(Op::Increment(amount_in(named.by, step)?)),
        OpName::Decrement => Ok(Op::Decrement(amount_in(named.by, step)?)),
        OpName::Add => Ok(Op::Add(element(step, named)?)),
        OpName::Remove => Ok(Op::Remove(element(step, named)?)),
        OpName::Enable => Ok(Op::Enable),
        OpName::Assign => assign(step, named),
        OpName::Delete => Ok(Op::Delete),
    }
}
