//! Two members in a service that has a transport of its own: here a loop that hands the bytes of each message to its receiver. A
//! client of the second one is told what it shows.
#![tactic(auto)]

use member_embedding::{
    CodecError, Data, Desk, Got, Id, Items, KeyDecl, Kind, Level, Memory, MemoryKeeper, Node,
    Notice, Notices, Op, Post, Posts, StepError, Text, TooLong, Updated, View, ViewList, accepts,
    are_distinct, push_shown, read_message, spell_message,
};
use std::alloc::{AllocError, Global};
use std::process::ExitCode;
use thiserror::Error;

/// A member of the service, which keeps nothing beyond its run.
type Member = Node<Data, MemoryKeeper>;

/// Why the service stops.
#[derive(Debug, Drop, Error)]
enum Stopped {
    #[error("out of memory")]
    Memory,
    #[error("a member has made as many steps as it may")]
    Full,
    #[error("two keys have one name, a name is too long, or the identity is no member")]
    Misused,
    #[error("what was received is no message, or none that the other member sends")]
    Garbled,
    #[error("a cart was not changed, or what changed was not kept")]
    Unchanged,
}

impl From<Memory> for Stopped {
    fn from(_refused: Memory) -> Stopped {
        Stopped::Memory
    }
}

impl From<AllocError> for Stopped {
    fn from(_refused: AllocError) -> Stopped {
        Stopped::Memory
    }
}

impl From<TooLong> for Stopped {
    fn from(_refused: TooLong) -> Stopped {
        Stopped::Misused
    }
}

impl From<StepError> for Stopped {
    fn from(refused: StepError) -> Stopped {
        match refused {
            StepError::HistoryFull => Stopped::Full,
            StepError::Memory => Stopped::Memory,
        }
    }
}

impl From<CodecError> for Stopped {
    fn from(refused: CodecError) -> Stopped {
        match refused {
            CodecError::NotASpelling(_) => Stopped::Garbled,
            CodecError::Memory => Stopped::Memory,
        }
    }
}

/// A member of the view with these keys.
fn member(
    alloc: Global,
    number: u8,
    view: &View,
    keys: &[KeyDecl<Data>],
) -> Result<Member, Stopped> {
    let id = Id::new(number).ok_or(Stopped::Misused)?;
    if !view.contains(id) || !are_distinct(keys) {
        return Err(Stopped::Misused);
    }
    let view = view.copy(alloc)?;
    let keeper = MemoryKeeper::new(alloc, Vec::new(alloc));
    match Node::new(alloc, id, view, keys, keeper) {
        Ok(member) => Ok(member),
        Err((_, Memory)) => Err(Stopped::Memory),
    }
}

/// What a member sends for bytes that came as from another.
fn receive(alloc: Global, from: Id, bytes: &[u8], to: &mut Member) -> Result<Posts<Data>, Stopped> {
    let message = read_message::<Data>(alloc, bytes)?;
    if !accepts(to.view(), to.id(), from, &message) {
        return Err(Stopped::Garbled);
    }
    Ok(to.receive(from, &message)?.posts)
}

/// Hands the bytes of a message to its receiver, and answers what this sends. A service would send and receive them.
fn hand(
    alloc: Global,
    from: Id,
    post: Post<Data>,
    to: &mut Member,
) -> Result<Posts<Data>, Stopped> {
    let bytes = spell_message(alloc, &post.message)?;
    receive(alloc, from, bytes.as_slice(), to)
}

/// Hands the messages of one member to another, and then what this answers back.
fn exchange(
    alloc: Global,
    from: &mut Member,
    to: &mut Member,
    posts: Posts<Data>,
) -> Result<(), Stopped> {
    for post in posts.into_vec() {
        for answer in hand(alloc, from.id(), post, to)?.into_vec() {
            hand(alloc, to.id(), answer, from)?;
        }
    }
    Ok(())
}

/// What a member answers to a question for the value of a key.
fn ask(member: &mut Member, key: Text) -> Result<Got, Stopped> {
    Ok(member.get(key, Level::Local)?.answer)
}

/// What a member shows of a key.
fn shown(alloc: Global, member: &mut Member, key: Text) -> Result<String, Stopped> {
    let mut text = String::new(alloc);
    if let Got::Value(value) = ask(member, key)? {
        push_shown(alloc, &mut text, &value)?;
    }
    Ok(text)
}

/// The one key of the members: a cart.
fn cart() -> Result<Text, Stopped> {
    Ok(Text::new("cart")?)
}

/// The keys of the members.
fn keys(alloc: Global) -> Result<Items<KeyDecl<Data>>, Stopped> {
    let key = cart()?;
    let mut keys = Items::new(alloc);
    keys.push(KeyDecl {
        key,
        kind: Kind::OrSet,
        durable: false,
    })?;
    Ok(keys)
}

/// What came of an own operation on the cart of a member.
fn change(member: &mut Member, op: Op) -> Result<Updated, Stopped> {
    let key = cart()?;
    Ok(member.update(key, op, Level::Local)?.answer)
}

/// A member puts something into its cart.
fn add(member: &mut Member, element: &str) -> Result<(), Stopped> {
    let op = Op::Add(Text::new(element)?);
    match change(member, op)? {
        Updated::Done => Ok(()),
        _ => Err(Stopped::Unchanged),
    }
}

/// One of the two members adds milk and sends what it has, and the other shows its cart.
fn shop(alloc: Global, first: &mut Member, second: &mut Member) -> Result<String, Stopped> {
    add(first, "milk")?;
    let posts = first.flush()?;
    exchange(alloc, first, second, posts)?;
    shown(alloc, second, cart()?)
}

/// Two members of one view. The first has the keys from its start, and the second declares them while it runs.
fn pair(alloc: Global) -> Result<(Member, Member), Stopped> {
    let views = ViewList::new(alloc, 2)?;
    let keys = keys(alloc)?;
    let first = member(alloc, 0, views.last(), keys.as_slice())?;
    let none = Items::new(alloc);
    let mut second = member(alloc, 1, views.last(), none.as_slice())?;
    for key in keys.as_slice() {
        second.declare(key)?;
    }
    Ok((first, second))
}

/// Adds what a client is told of a key.
fn push_notice(alloc: Global, text: &mut String, notice: &Notice) -> Result<(), Memory> {
    let client = notice.client;
    let key = notice.key.as_str();
    let head = format!(in alloc; "\nclient {client} is told: {key} ")?;
    text.push_str(head.as_str())?;
    push_shown(alloc, text, &notice.shown)
}

/// The notices as lines.
fn lines(alloc: Global, notices: &Notices) -> Result<String, Memory> {
    let mut text = String::new(alloc);
    for notice in notices.as_slice() {
        push_notice(alloc, &mut text, notice)?;
    }
    Ok(text)
}

/// What the clients of a member are told after a flush of it. A service would send what is flushed.
fn told(alloc: Global, member: &mut Member, desk: &mut Desk) -> Result<String, Stopped> {
    member.flush()?;
    let notices = desk.notices(member)?;
    Ok(lines(alloc, &notices)?)
}

/// What the second member's cart shows, and what client 7 is told of it.
fn run(alloc: Global) -> Result<String, Stopped> {
    let (mut first, mut second) = pair(alloc)?;
    let mut desk = Desk::new(alloc);
    desk.subscribe(7, &cart()?)?;
    let mut shown = shop(alloc, &mut first, &mut second)?;
    let told = told(alloc, &mut second, &mut desk)?;
    shown.push_str(told.as_str())?;
    Ok(shown)
}

fn main(rt: HostRuntime) -> ExitCode {
    match run(rt.alloc()) {
        Ok(cart) => match println!(rt; "{cart}") {
            Ok(()) => ExitCode::SUCCESS,
            Err(_) => ExitCode::FAILURE,
        },
        Err(_) => ExitCode::FAILURE,
    }
}
