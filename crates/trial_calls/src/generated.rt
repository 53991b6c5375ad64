//! Generated scripts and their text.

use crate::same::{holds, same};
use script_generated::{generated, generated_text};
use script_reading::{RunStep, Script, Step};
use std::test::Fail;

// What the script of one step says.
const ONE: &str =
    r#"{"keys":[{"key":"bal","kind":"pncounter"},{"durable":true,"key":"cart","kind":"orset"},{"key":"hits","kind":"gcounter"},{"key":"note","kind":"lwwregister"}],"members":5,"steps":[{"at":1,"by":1,"do":"update","key":"hits","op":"increment"},{"do":"remove","id":4},{"do":"settle"}]}"#;

// The steps of the script of eight.
const EIGHT: &str = r#"{"at":1,"by":1,"do":"update","key":"hits","op":"increment"}
{"at":2,"do":"update","element":"item-2","key":"cart","op":"add"}
{"at":3,"by":3,"do":"update","key":"bal","op":"decrement"}
{"at":4,"do":"flush"}
{"at":0,"do":"update","element":"item-2","key":"cart","op":"remove"}
{"at":1,"do":"gossip","to":2}
{"do":"round"}
{"at":3,"do":"update","key":"note","now":8,"op":"assign","text":"n8"}
{"do":"remove","id":4}
{"do":"settle"}"#;

#[test]
fn writes_the_script_of_one_step(rt: HostRuntime) -> Result<(), Fail> {
    let text = generated_text(rt.alloc(), 1)?;
    same(
        &text.strip_suffix("\n"),
        &Some(ONE),
        "the script of one step",
    )
}

#[test]
fn writes_each_form_of_step(rt: HostRuntime) -> Result<(), Fail> {
    let text = generated_text(rt.alloc(), 8)?;
    let steps = EIGHT.replace(rt.alloc(), "\n", ",")?;
    let end = format!(in rt.alloc(); "\"steps\":[{steps}]}}\n")?;
    holds(text.ends_with(end.as_str()), "the steps of eight")
}

/// How many members, keys and steps a script has, and whether its last step is a settle.
fn shape(script: &Script) -> (u8, usize, usize, bool) {
    let settles = matches!(
        script.steps.as_slice().last(),
        Some(RunStep::Plain(Step::Settle))
    );
    (
        script.members,
        script.keys.len(),
        script.steps.len(),
        settles,
    )
}

#[test]
fn makes_the_steps_that_it_writes(rt: HostRuntime) -> Result<(), Fail> {
    let script = generated(rt.alloc(), 8)?;
    same(&shape(&script), &(5, 4, 10, true), "the script of eight")
}
