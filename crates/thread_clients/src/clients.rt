ghost use Rattle.std.specs.Prelude.{◌≡◌, ℕ, ◌<◌, ◌≤◌, true, length, map, [], vec_len, vec_capacity, IfOk, IfErr};
ghost use Rattle.std.specs.List.{All};
ghost use Rattle.thread_clients.specs.Playing.{HasPlayed, HavePlayed, AreAllPlayed, AreBack, job_of, played_of, session_of};
ghost use Rattle.thread_clients.specs.Stopping.{AreStopped};

use crate::client::Lines;
use crate::desk::Desk;
use crate::gate::Gate;
use crate::working::{Works, work_beside};
use base_bytes::{Items, Memory};
use data_lattice::SpelledData;
use member_keeper::Keeper;
use member_node::Node;
use model_kinds::Op;
use script_reading::Client;
use std::alloc::Global;
use std::sync::Wait;
use std::thread::Threads;
use thread_cell::session::Session;
use thread_cluster::Cluster;
use thread_cluster::member::Member;
use thread_cluster::section::Section;
use thread_cluster::site::Apart;
use thread_machine::machine::Machine;

/// What a client did: its session, and one line for each command.
#[derive(Drop)]
pub struct Played<T: SpelledData<Op = Op>, K: Keeper + Drop> {
    pub session: Session<Node<T, K>>,
    pub lines: Lines,
}

/// A client's session, and the lines of its commands once it has made all of them.
#[derive(Drop)]
pub(crate) struct Job<T: SpelledData<Op = Op>, K: Keeper + Drop> {
    pub(crate) session: Session<Node<T, K>>,
    pub(crate) lines: Lines,
    pub(crate) complete: bool,
    pub(crate) apart: Apart,
}

/// Runs the client of a number.
fn play<T: SpelledData<Op = Op>, K: Keeper + Drop, N: Section, R: Wait, G: Gate>(
    desk: &Desk<Node<T, K>, N, R, G>,
    clients: &[Client],
    number: usize,
    job: &mut Job<T, K>,
)
    requires table { job.old.session.seen.table ≡ N.table }
    requires client { number < length clients.now }
    requires few { length clients.now ≤ 8 }
    ensures { HasPlayed ⟦<Node<T, K> as Machine>⟧ N.ids desk.now.cluster.now.views N.table clients.now number job.old job.new }
{
    let client = &clients[number];
    let session = &mut job.session;
    match desk.run_client(session, number as u32, client) {
        Ok(lines) => {
            job.lines = lines;
            job.complete = true;
        }
        Err(_) => {
            job.complete = false;
        }
    }
}

/// Clients with what their calls need.
#[derive(Drop)]
struct Clients<'a, M: Member, N: Section, R: Wait, G: Gate> {
    desk: Desk<'a, M, N, R, G>,
    clients: &'a [Client],
}

impl<'a, T: SpelledData<Op = Op>, K: Keeper + Drop, N: Section, R: Wait, G: Gate> Works<Job<T, K>>
    for Clients<'a, Node<T, K>, N, R, G> {
    ghost MayWork = { λ all number job. (job.session.seen.table ≡ N.table) × (number < length all.clients.now) × (length all.clients.now ≤ 8) };

    ghost HasWorked = { λ all number old new. HasPlayed ⟦<Node<T, K> as Machine>⟧ N.ids all.desk.cluster.now.views N.table all.clients.now number old new };

    /// Runs the client of a number.
    fn work(&self, number: usize, job: &mut Job<T, K>) {
        play(&self.desk, self.clients, number, job);
    }
}

/// Runs each client beside the others.
fn play_all<
    T: SpelledData<Op = Op> + Send,
    K: Keeper + Drop + Send,
    N: Section + Send + Sync,
    R: Threads + Wait + Sync,
    G: Gate + Sync,
>(
    rt: &R,
    alloc: Global,
    gate: &G,
    cluster: &Cluster<Node<T, K>, N>,
    clients: &[Client],
    jobs: &mut [Job<T, K>],
)
where
    T::Kind: Send,
    T::Delta: Send,
    requires as_many { length jobs.old ≡ length clients.now }
    requires few { length clients.now ≤ 8 }
    requires tables { All (λ job. job.session.seen.table ≡ N.table) jobs.old }
    ensures { HavePlayed ⟦<Node<T, K> as Machine>⟧ N.ids cluster.now.views N.table clients.now jobs.old jobs.new }
{
    let desk = Desk {
        rt,
        alloc,
        gate,
        cluster,
    };
    work_beside(rt, &Clients { desk, clients }, jobs);
}

/// Whether all of the clients made all of their commands.
fn are_complete<T: SpelledData<Op = Op>, K: Keeper + Drop>(jobs: &[Job<T, K>]) -> bool
    ensures { result ≡ true → All (λ job. job.complete ≡ true) jobs.now }
{
    for job in jobs {
        if !job.complete {
            return false;
        }
    }
    true
}

/// Sessions with no line yet.
fn jobs_of<T: SpelledData<Op = Op>, K: Keeper + Drop>(
    alloc: Global,
    sessions: Vec<Session<Node<T, K>>>,
    jobs: Vec<Job<T, K>>,
) -> Vec<Job<T, K>>
    requires empty { jobs.items ≡ [] }
    requires room { vec_len sessions ≤ vec_capacity jobs }
    ensures { result.items ≡ map job_of sessions.items }
{
    let mut jobs = jobs;
    for session in sessions {
        jobs.push_reserved(Job {
            session,
            lines: Items::new(alloc),
            complete: false,
            apart: [0; 16],
        });
    }
    jobs
}

/// The sessions with their lines.
fn played_of<T: SpelledData<Op = Op>, K: Keeper + Drop>(
    jobs: Vec<Job<T, K>>,
    played: Vec<Played<T, K>>,
) -> Vec<Played<T, K>>
    requires empty { played.items ≡ [] }
    requires room { vec_len jobs ≤ vec_capacity played }
    ensures { result.items ≡ map played_of jobs.items }
{
    let mut played = played;
    for job in jobs {
        let Job { session, lines, .. } = job;
        played.push_reserved(Played { session, lines });
    }
    played
}

/// The sessions.
fn sessions_of<T: SpelledData<Op = Op>, K: Keeper + Drop>(
    jobs: Vec<Job<T, K>>,
    sessions: Vec<Session<Node<T, K>>>,
) -> Vec<Session<Node<T, K>>>
    requires empty { sessions.items ≡ [] }
    requires room { vec_len jobs ≤ vec_capacity sessions }
    ensures { result.items ≡ map session_of jobs.items }
{
    let mut sessions = sessions;
    for job in jobs {
        sessions.push_reserved(job.session);
    }
    sessions
}

/// Runs clients beside each other, as far as threads can be had: each its commands in order, in the session of its number.
/// A client that can't have a thread is run by one that has.
///
/// # Errors
///
/// Memory was refused. The entries that were made stand, and all sessions come back.
pub fn run_clients<
    T: SpelledData<Op = Op> + Send,
    K: Keeper + Drop + Send,
    N: Section + Send + Sync,
    R: Threads + Wait + Sync,
    G: Gate + Sync,
>(
    rt: &R,
    alloc: Global,
    gate: &G,
    cluster: &Cluster<Node<T, K>, N>,
    clients: &[Client],
    sessions: Vec<Session<Node<T, K>>>,
) -> Result<Vec<Played<T, K>>, (Vec<Session<Node<T, K>>>, Memory)>
where
    T::Kind: Send,
    T::Delta: Send,
    requires as_many { vec_len sessions ≡ length clients.now }
    requires few { length clients.now ≤ 8 }
    requires tables { All (λ s. s.seen.table ≡ N.table) sessions.items }
    ensures ok { IfOk result (λ played. AreAllPlayed ⟦<Node<T, K> as Machine>⟧ N.ids cluster.now.views N.table clients.now sessions.items played.items) }
    ensures err { IfErr result (λ refused. AreBack N.table sessions.items refused.0.items) }
    ensures stopped { IfErr result (λ refused. AreStopped ⟦<Node<T, K> as Machine>⟧ N.ids cluster.now.views clients.now sessions.items refused.0.items) }
{
    let count = sessions.len();
    let mut jobs = Vec::new(alloc);
    let mut played = Vec::new(alloc);
    let mut back = Vec::new(alloc);
    if jobs.reserve(count).is_err()
        || played.reserve(count).is_err()
        || back.reserve(count).is_err()
    {
        return Err((sessions, Memory));
    }
    let mut jobs = jobs_of(alloc, sessions, jobs);
    play_all(rt, alloc, gate, cluster, clients, jobs.as_mut_slice());
    if are_complete(jobs.as_slice()) {
        Ok(played_of(jobs, played))
    } else {
        Err((sessions_of(jobs, back), Memory))
    }
}
