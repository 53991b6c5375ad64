ghost use Rattle.std.specs.Prelude.{◌≡◌};
ghost use Rattle.serde_json.specs.View.{view};
ghost use Rattle.script_reading.specs.Found.{AreFound, ArePassed};

use serde_json::Value;

/// What stands in a step under the names that its forms share. To look a name up is dear, so all are found in one pass.
#[derive(Clone, Copy)]
pub struct Named<'v> {
    /// The step.
    pub value: &'v Value,
    /// Under `do`.
    pub form: Option<&'v Value>,
    pub at: Option<&'v Value>,
    pub key: Option<&'v Value>,
    pub op: Option<&'v Value>,
    pub level: Option<&'v Value>,
    pub by: Option<&'v Value>,
    pub element: Option<&'v Value>,
    pub now: Option<&'v Value>,
    pub text: Option<&'v Value>,
}

/// One more member is passed.
#[inline(always)]
fn pass<'v>(mut named: Named<'v>, key: &str, value: &'v Value) -> Named<'v>
    ensures { ArePassed key.now (view value.now) named.entry result }
{
    match key {
        "at" => named.at = Some(value),
        "do" => named.form = Some(value),
        "key" => named.key = Some(value),
        "op" => named.op = Some(value),
        "level" => named.level = Some(value),
        "by" => named.by = Some(value),
        "element" => named.element = Some(value),
        "now" => named.now = Some(value),
        "text" => named.text = Some(value),
        _ => {}
    }
    named
}

/// What stands under each of the names.
pub fn named_in(value: &Value) -> Named<'_>
    ensures value { result.value.now ≡ value.now }
    ensures found { AreFound result }
{
    let mut named = Named {
        value,
        form: None,
        at: None,
        key: None,
        op: None,
        level: None,
        by: None,
        element: None,
        now: None,
        text: None,
    };
    let Some(map) = value.as_object() else {
        return named;
    };
    for (key, member) in map.iter() {
        named = pass(named, key.as_str(), member);
    }
    named
}
