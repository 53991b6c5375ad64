ghost use Rattle.std.specs.Prelude.{◌≡◌, IfOk};
ghost use Rattle.serde_json.specs.View.{view};
ghost use Rattle.script_reading.specs.Followers.{request_of, allowed_of, subscribe_of, unsubscribe_of};
ghost use Rattle.script_reading.specs.WellFormed.{IsIdentity, IsRunStep};

use crate::clients::{Clients, RunStep};
use crate::fault::Rule;
use crate::fields::{LAST_NUMBER, identity, key, step_names, whole};
use base_bytes::Text;
use base_vectors::Id;
use serde_json::Value;

/// A member, a client, and the key that it follows there, or follows no more.
#[tactic(auto, unfolding(crate::specs::Followers::request_of))]
fn request(step: u32, value: &Value) -> Result<(Id, u32, Text), Rule>
    ensures value { result ≡ request_of step (view value.now) }
    ensures bounds { IfOk result (λ request. IsIdentity request.0) }
{
    step_names(value, &["at", "client", "do", "key"], &[], &[], step)?;
    let at = identity(value, "at", step)?;
    let key = key(value, "key", Rule { step, number: 8 })?;
    let client = whole(value, "client", 0, LAST_NUMBER, Rule { step, number: 15 })? as u32;
    Ok((at, client, key))
}

/// The same, in a script whose clients may follow keys. In any other the step has no form.
fn allowed(clients: Clients, step: u32, value: &Value) -> Result<(Id, u32, Text), Rule>
    ensures value { result ≡ allowed_of clients step (view value.now) }
    ensures bounds { IfOk result (λ request. IsIdentity request.0) }
{
    match clients {
        Clients::Following => request(step, value),
        Clients::Allowed | Clients::Refused => Err(Rule { step, number: 5 }),
    }
}

/// A client follows a key.
pub fn subscribe(clients: Clients, step: u32, value: &Value) -> Result<RunStep, Rule>
    ensures value { result ≡ subscribe_of clients step (view value.now) }
    ensures bounds { IfOk result IsRunStep }
{
    let (at, client, key) = allowed(clients, step, value)?;
    Ok(RunStep::Subscribe { at, client, key })
}

/// A client follows a key no more.
pub fn unsubscribe(clients: Clients, step: u32, value: &Value) -> Result<RunStep, Rule>
    ensures value { result ≡ unsubscribe_of clients step (view value.now) }
    ensures bounds { IfOk result IsRunStep }
{
    let (at, client, key) = allowed(clients, step, value)?;
    Ok(RunStep::Unsubscribe { at, client, key })
}
