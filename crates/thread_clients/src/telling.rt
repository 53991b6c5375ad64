ghost use Rattle.std.specs.Prelude.{◌≡◌, map, IfOk};
ghost use Rattle.world_places.specs.Sending.{told_of};
ghost use Rattle.thread_clients.specs.Commands.{has_turn};

use base_bytes::{Items, Memory};
use data_lattice::Replica;
use member_node::Post;
use script_reading::{Ask, Command};
use std::alloc::Global;
use world_members::{SentTo, Sketches};

/// Whether a turn follows a command, whether something was sent or not.
pub(crate) fn has_turn(command: &Command) -> bool
    ensures { result ≡ has_turn command.now.ask }
{
    matches!(command.ask, Ask::Flush | Ask::Gossip { .. } | Ask::Tick)
}

/// What is told of messages.
pub(crate) fn sketches<T: Replica>(alloc: Global, posts: &[Post<T>]) -> Result<Sketches, Memory>
    ensures { IfOk result (λ sent. sent ≡ map told_of posts.now) }
{
    let mut sent = Items::new(alloc);
    for post in posts {
        sent.push(SentTo {
            to: post.to,
            sketch: post.message.sketch(),
        })?;
    }
    Ok(sent)
}
