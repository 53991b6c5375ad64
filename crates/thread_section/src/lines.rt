ghost use Rattle.std.specs.Prelude.{◌≡◌, ◌≤◌, [], ◌++◌, map, vec_len, vec_capacity, IfOk, OnOk};
ghost use Rattle.thread_section.specs.Lines.{session_of, lines_of, all_lines};

use base_bytes::{Items, Memory};
use data_lattice::SpelledData;
use member_keeper::Keeper;
use member_node::Node;
use model_kinds::Op;
use std::alloc::Global;
use thread_cell::session::Session;
use thread_clients::Played;
use world_members::ClientLine;

/// The lines of a client.
pub(crate) type Lines = Items<ClientLine>;

/// The sessions of clients, and their lines.
pub(crate) fn parted<T: SpelledData<Op = Op>, K: Keeper + Drop>(
    played: Vec<Played<T, K>>,
    sessions: Vec<Session<Node<T, K>>>,
    lines: Vec<Lines>,
) -> (Vec<Session<Node<T, K>>>, Vec<Lines>)
    requires empty { (sessions.items ≡ []) × (lines.items ≡ []) }
    requires room { (vec_len played ≤ vec_capacity sessions) × (vec_len played ≤ vec_capacity lines) }
    ensures sessions { result.0.items ≡ map session_of played.items }
    ensures lines { result.1.items ≡ map lines_of played.items }
{
    let mut sessions = sessions;
    let mut lines = lines;
    for one in played {
        sessions.push_reserved(one.session);
        lines.push_reserved(one.lines);
    }
    (sessions, lines)
}

/// How many lines there are.
fn count(lines: &[Lines]) -> usize {
    let mut count: usize = 0;
    for one in lines {
        count = count.saturating_add(one.len());
    }
    count
}

/// Puts lines behind those that there are.
///
/// # Errors
///
/// Memory was refused.
fn append(all: &mut Vec<ClientLine>, lines: Vec<ClientLine>) -> Result<(), Memory>
    ensures { OnOk result (all.new.items ≡ all.old.items ++ lines.items) }
{
    all.reserve(lines.len())?;
    for line in lines {
        all.push_reserved(line);
    }
    Ok(())
}

/// The lines of all clients, one client's behind those of the one before.
///
/// # Errors
///
/// Memory was refused.
pub(crate) fn joined(alloc: Global, lines: Vec<Lines>) -> Result<Lines, Memory>
    ensures { IfOk result (λ all. all ≡ all_lines lines.items) }
{
    let mut all = Vec::new(alloc);
    all.reserve(count(lines.as_slice()))?;
    for one in lines {
        append(&mut all, one.into_vec())?;
    }
    Ok(Items::from_vec(all))
}
