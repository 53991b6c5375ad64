ghost use Rattle.std.specs.Prelude.{◌≡◌, option_map, IfOk};
ghost use Rattle.serde_json.specs.View.{view};
ghost use Rattle.script_reading.specs.Levels.{level_named, level_in, level_of};
ghost use Rattle.script_reading.specs.WellFormed.{IsLevel};

use crate::fault::Rule;
use crate::fields::{has_names, whole};
use member_quorum::Level;
use serde_json::Value;

/// The greatest number of members that a level names.
pub const MOST_NAMED: u64 = 64;

/// The level of a word.
fn level_named(name: &str) -> Option<Level>
    ensures { result ≡ level_named name.now }
{
    match name {
        "local" => Some(Level::Local),
        "majority" => Some(Level::Majority(0)),
        "all" => Some(Level::All),
        _ => None,
    }
}

/// The level that an object says by its one name.
fn level_in(value: &Value, rule: Rule) -> Result<Level, Rule>
    ensures value { result ≡ level_in rule (view value.now) }
    ensures bounds { IfOk result IsLevel }
{
    if has_names(value, &["majority"], &[]) {
        let cap = whole(value, "majority", 0, MOST_NAMED, rule)? as u8;
        return Ok(Level::Majority(cap));
    }
    if has_names(value, &["to"], &[]) {
        let number = whole(value, "to", 1, MOST_NAMED, rule)? as u8;
        return Ok(Level::To(number));
    }
    Err(rule)
}

/// The level of a step. One that is left out is local.
#[tactic(auto, unfolding(crate::specs::Levels::level_of))]
pub fn level(field: Option<&Value>, step: u32) -> Result<Level, Rule>
    ensures value { result ≡ level_of step (option_map (λ v. view v.now) field.entry) }
    ensures bounds { IfOk result IsLevel }
{
    let Some(said) = field else {
        return Ok(Level::Local);
    };
    let rule = Rule { step, number: 12 };
    let Some(name) = said.as_str() else {
        return level_in(said, rule);
    };
    match level_named(name) {
        Some(level) => Ok(level),
        None => Err(rule),
    }
}
