use crate::running::{Running, Sent, key};
use base_vectors::Id;
use data_lattice::SpelledData;
use data_meaning::Action;
use member_messages::Posts;
use member_node::{Input, Level, Outcome, Outcomes, Reply};
use member_views::{View, ViewList};
use model_kinds::{Kind, Op};
use std::alloc::Global;
use std::test::Fail;
use trial_parts::{Random, Records};

/// Members of one key, some of which leave, messages on their way, and all records that were made.
#[derive(Drop)]
pub(crate) struct Company<T: SpelledData<Kind = Kind, Op = Op>> {
    alloc: Global,
    views: ViewList,
    members: Vec<Running<T>>,
    sent: Vec<Sent<T>>,
    records: Records,
    prunes: u64,
}

/// So many members of a view, without a record.
fn members<T: SpelledData<Kind = Kind, Op = Op>>(
    alloc: Global,
    kind: Kind,
    count: u8,
    view: &View,
) -> Result<Vec<Running<T>>, Fail> {
    let mut members = Vec::new(alloc);
    for number in 0..count {
        let id = Id::new(number).ok_or("identity")?;
        members.push(Running::new(alloc, kind, id, view.copy(alloc)?)?)?;
    }
    Ok(members)
}

/// The member at a place.
fn member<T: SpelledData<Kind = Kind, Op = Op>>(
    members: &[Running<T>],
    at: usize,
) -> Result<&Running<T>, Fail> {
    Ok(members.get(at).ok_or("member")?)
}

/// The member at a place, to be changed.
fn member_mut<T: SpelledData<Kind = Kind, Op = Op>>(
    members: &mut [Running<T>],
    at: usize,
) -> Result<&mut Running<T>, Fail> {
    Ok(members.get_mut(at).ok_or("member")?)
}

impl<T: SpelledData<Kind = Kind, Op = Op>> Company<T> {
    /// So many members without a record.
    pub(crate) fn new(alloc: Global, kind: Kind, count: u8) -> Result<Company<T>, Fail> {
        if !(1..=8).contains(&count) {
            return Err("no view".into());
        }
        let views = ViewList::new(alloc, count)?;
        let members = members(alloc, kind, count, views.last())?;
        Ok(Company {
            alloc,
            views,
            members,
            sent: Vec::new(alloc),
            records: Records::new(alloc, kind),
            prunes: 0,
        })
    }

    /// How many members there are.
    pub(crate) fn len(&self) -> usize {
        self.members.len()
    }

    /// How many messages are on their way.
    pub(crate) fn on_their_way(&self) -> usize {
        self.sent.len()
    }

    /// How many prunes were performed.
    pub(crate) fn prunes(&self) -> u64 {
        self.prunes
    }

    /// Who stands at a place.
    fn id(&self, at: usize) -> Result<Id, Fail> {
        Ok(member(&self.members, at)?.id())
    }

    /// What a member sends is on its way.
    fn send(&mut self, at: usize, posts: Posts<T>) -> Result<(), Fail> {
        let member = member(&self.members, at)?;
        for post in posts.into_vec() {
            self.sent.push(member.sent(self.alloc, post)?)?;
        }
        Ok(())
    }

    /// A member makes a step; what it sends is on its way.
    fn step(&mut self, at: usize, input: Input<T>) -> Result<Reply, Fail> {
        self.step_by(at, &input)
    }

    fn step_by(&mut self, at: usize, input: &Input<T>) -> Result<Reply, Fail> {
        let (reply, posts) = member_mut(&mut self.members, at)?.step(input)?;
        self.send(at, posts)?;
        Ok(reply)
    }

    /// Keeps a record that a member made.
    fn note(&mut self, at: usize, action: Action) -> Result<(), Fail> {
        member_mut(&mut self.members, at)?.note(&mut self.records, action)
    }

    /// An update of the key, at the member alone.
    fn update_of(&self, op: Op) -> Result<Input<T>, Fail> {
        Ok(Input::Update {
            key: key()?,
            op,
            level: Level::Local,
        })
    }

    /// A member makes a record, unless it refuses the operation.
    pub(crate) fn update(&mut self, at: usize, op: Op) -> Result<(), Fail> {
        let action = Action::Operation(op.copied());
        let input = self.update_of(op)?;
        match self.step(at, input)? {
            Reply::Done => self.note(at, action),
            _ => Ok(()),
        }
    }

    /// A member sends what the others were not sent.
    pub(crate) fn flush(&mut self, at: usize) -> Result<(), Fail> {
        self.step(at, Input::Flush)?;
        Ok(())
    }

    /// A member tells another its digests.
    pub(crate) fn gossip(&mut self, at: usize, to: usize) -> Result<(), Fail> {
        let to = self.id(to)?;
        self.step(at, Input::GossipTo(to))?;
        Ok(())
    }

    /// A view at random, mostly one of the last.
    fn view(&self, random: &mut Random) -> Result<View, Fail> {
        let last = self.views.last().number();
        let back = random.below(u64::from(last) + 1);
        let number = last - random.below(back + 1) as u32;
        Ok(self.views.get(number).ok_or("view")?.copy(self.alloc)?)
    }

    /// A member is given a view at random.
    pub(crate) fn install(&mut self, at: usize, random: &mut Random) -> Result<(), Fail> {
        let view = self.view(random)?;
        self.step(at, Input::Install(view))?;
        Ok(())
    }

    /// Keeps the records of the prunes that a member performed.
    fn note_prunes(&mut self, at: usize, outcomes: &Outcomes) -> Result<(), Fail> {
        for told in outcomes.as_slice() {
            if told.outcome == Outcome::Performed {
                self.prunes = self.prunes.saturating_add(1);
                self.note(at, Action::Prune(told.removed))?;
            }
        }
        Ok(())
    }

    /// A member marks and prunes what is left of members that left, if it leads.
    pub(crate) fn tick(&mut self, at: usize) -> Result<(), Fail> {
        match self.step(at, Input::PruneTick)? {
            Reply::Ticked(outcomes) => self.note_prunes(at, &outcomes),
            _ => Ok(()),
        }
    }

    /// Takes a member out, and answers who it was.
    fn take_out(&mut self, at: usize) -> Result<Id, Fail> {
        if at >= self.members.len() {
            return Err("member".into());
        }
        Ok(self.members.remove(at).id())
    }

    /// A member leaves. What it sent is still on its way.
    pub(crate) fn leave(&mut self, at: usize) -> Result<(), Fail> {
        let gone = self.take_out(at)?;
        self.views.remove(gone)?;
        Ok(())
    }

    /// Where a member stands that did not leave.
    fn place(&self, id: Id) -> Option<usize> {
        self.members.iter().position(|member| member.id() == id)
    }

    /// Where the receiver of a message stands, if it did not leave.
    fn receiver(&self, which: usize) -> Result<Option<usize>, Fail> {
        Ok(self.place(self.sent.get(which).ok_or("message")?.to))
    }

    /// A member takes a message; what it answers is on its way.
    fn take(&mut self, at: usize, which: usize) -> Result<(), Fail> {
        let sent = self.sent.get(which).ok_or("message")?;
        let posts = member_mut(&mut self.members, at)?.take(sent)?;
        self.send(at, posts)
    }

    /// A message comes to its receiver, and again later if it is not the last time; it is lost where that one left.
    pub(crate) fn deliver(&mut self, which: usize, again: bool) -> Result<(), Fail> {
        if let Some(at) = self.receiver(which)? {
            self.take(at, which)?;
        }
        if !again && which < self.sent.len() {
            self.sent.remove(which);
        }
        Ok(())
    }

    /// Whether a member knows the records that it has taken, and shows what they mean.
    pub(crate) fn shows_what_is_meant(&self, at: usize) -> Result<bool, Fail> {
        member(&self.members, at)?.shows_what_is_meant(self.alloc, &self.records)
    }
}
