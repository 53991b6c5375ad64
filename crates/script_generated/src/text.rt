ghost use Rattle.std.specs.Prelude.{◌≡◌, ◌++◌, ◌≤◌, string_bytes, OnOk, IfOk};
ghost use Rattle.serde_json.specs.Written.{compact_text};
ghost use Rattle.script_generated.specs.Generated.{generated_step};
ghost use Rattle.script_generated.specs.Texts as texts;

use crate::script::{ITEMS, MEMBERS};
use base_bytes::Memory;
use std::alloc::Global;

/// The text before the steps.
const HEAD: &str =
    r#"{"keys":[{"key":"bal","kind":"pncounter"},{"durable":true,"key":"cart","kind":"orset"},{"key":"hits","kind":"gcounter"},{"key":"note","kind":"lwwregister"}],"members":5,"steps":["#;

/// The last two steps, and the text after them.
const TAIL: &str = "{\"do\":\"remove\",\"id\":4},{\"do\":\"settle\"}]}\n";

/// Adds the step of this number.
fn push_step(text: &mut String, i: u32) -> Result<(), Memory>
    requires { i ≤ 4094 }
    ensures { OnOk result (string_bytes text.new ≡ string_bytes text.old ++ compact_text (texts.step_data (generated_step i))) }
{
    let at = i % MEMBERS;
    match i % 8 {
        1 => write!(
            text,
            r#"{{"at":{at},"by":{i},"do":"update","key":"hits","op":"increment"}}"#
        )?,
        2 => {
            let k = i % ITEMS;
            write!(
                text,
                r#"{{"at":{at},"do":"update","element":"item-{k}","key":"cart","op":"add"}}"#
            )?;
        }
        3 => write!(
            text,
            r#"{{"at":{at},"by":{i},"do":"update","key":"bal","op":"decrement"}}"#
        )?,
        4 => write!(text, r#"{{"at":{at},"do":"flush"}}"#)?,
        5 => {
            let k = (7 * i + 7) % ITEMS;
            write!(
                text,
                r#"{{"at":{at},"do":"update","element":"item-{k}","key":"cart","op":"remove"}}"#
            )?;
        }
        6 => {
            let to = (at + 1) % MEMBERS;
            write!(text, r#"{{"at":{at},"do":"gossip","to":{to}}}"#)?;
        }
        7 => text.push_str(r#"{"do":"round"}"#)?,
        _ => write!(
            text,
            r#"{{"at":{at},"do":"update","key":"note","now":{i},"op":"assign","text":"n{i}"}}"#
        )?,
    }
    Ok(())
}

/// The text of the generated script with so many steps before its last two.
///
/// # Errors
///
/// Memory was refused.
pub fn generated_text(alloc: Global, n: u32) -> Result<String, Memory>
    requires low { 1 ≤ n }
    requires high { n ≤ 4094 }
    ensures { IfOk result (λ text. string_bytes text ≡ texts.generated_text n) }
{
    let mut text = String::from_str(alloc, HEAD)?;
    for done in 0..n {
        push_step(&mut text, done + 1)?;
        text.push_str(",")?;
    }
    text.push_str(TAIL)?;
    Ok(text)
}
