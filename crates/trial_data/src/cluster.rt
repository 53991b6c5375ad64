use crate::member::Member;
use base_vectors::Id;
use data_envelope::Group;
use data_lattice::Replica;
use model_kinds::{Kind, Op};
use std::alloc::Global;
use std::test::Fail;
use trial_parts::{Random, Records};

/// Members without a record.
fn members<T: Replica<Kind = Kind, Op = Op>>(
    alloc: Global,
    kind: Kind,
    count: u8,
) -> Result<Vec<Member<T>>, Fail> {
    let mut members = Vec::new(alloc);
    for number in 0..count {
        let id = Id::new(number).ok_or("identity")?;
        members.push(Member::new(alloc, kind, id)?)?;
    }
    Ok(members)
}

/// A member that is to change and another one, where both are there.
fn two<T: Replica<Kind = Kind, Op = Op>>(
    members: &mut [Member<T>],
    at: usize,
    from: usize,
) -> Option<(&mut Member<T>, &Member<T>)> {
    if at.max(from) >= members.len() {
        return None;
    }
    let (low, high) = members.split_at_mut(at.max(from));
    if at < from {
        Some((low.get_mut(at)?, high.first()?))
    } else {
        Some((high.first_mut()?, low.get(from)?))
    }
}

/// Members of one key, and all records that they made.
#[derive(Drop)]
pub(crate) struct Cluster<T: Replica<Kind = Kind, Op = Op>> {
    alloc: Global,
    members: Vec<Member<T>>,
    records: Records,
    groups: u64,
    prunes: u64,
}

impl<T: Replica<Kind = Kind, Op = Op>> Cluster<T> {
    /// So many members without a record.
    pub(crate) fn new(alloc: Global, kind: Kind, count: u8) -> Result<Cluster<T>, Fail> {
        Ok(Cluster {
            alloc,
            members: members(alloc, kind, count)?,
            records: Records::new(alloc, kind),
            groups: 0,
            prunes: 0,
        })
    }

    /// How many groups were taken.
    pub(crate) fn groups(&self) -> u64 {
        self.groups
    }

    /// How many identities were pruned.
    pub(crate) fn prunes(&self) -> u64 {
        self.prunes
    }

    /// How many members there are.
    pub(crate) fn len(&self) -> usize {
        self.members.len()
    }

    /// A member makes a record.
    pub(crate) fn update(&mut self, at: usize, op: Op) -> Result<(), Fail> {
        let member = self.members.get_mut(at).ok_or("member")?;
        member.update(self.alloc, op, &mut self.records)
    }

    /// A member takes what another has, or what it has itself.
    pub(crate) fn merge(&mut self, at: usize, from: usize) -> Result<(), Fail> {
        if at == from {
            let member = self.members.get_mut(at).ok_or("member")?;
            return member.merge_own(self.alloc);
        }
        match two(&mut self.members, at, from) {
            Some((member, other)) => member.merge(&other.entry, &other.taken),
            None => Err("member".into()),
        }
    }

    /// The group of a member's records after a number that another has of them, if there is such a group.
    fn group(&self, at: usize, from: usize, random: &mut Random) -> Result<Option<Group<T>>, Fail> {
        let other = self.members.get(from).ok_or("member")?;
        let had = self.members.get(at).ok_or("member")?.taken.at(other.id);
        other.group(self.alloc, random.below(had.min(other.made()) + 1))
    }

    /// A member takes the group of another's records after a number that it has of them, if there is such a group and it is
    /// wanted.
    pub(crate) fn take_group(
        &mut self,
        at: usize,
        from: usize,
        random: &mut Random,
    ) -> Result<(), Fail> {
        let Some(group) = self.group(at, from, random)? else {
            return Ok(());
        };
        let member = self.members.get_mut(at).ok_or("member")?;
        if member.take(&group)? {
            self.groups = self.groups.saturating_add(1);
        }
        Ok(())
    }

    /// A member leaves, and the others take what it has. Who it was.
    fn leave(&mut self, at: usize) -> Result<Id, Fail> {
        for other in 0..self.members.len() {
            if other != at {
                self.merge(other, at)?;
            }
        }
        if at >= self.members.len() {
            return Err("member".into());
        }
        let removed = self.members.remove(at);
        Ok(removed.id)
    }

    /// Who the members are.
    fn ids(&self) -> Result<Vec<Id>, Fail> {
        let mut ids = Vec::new(self.alloc);
        for member in &self.members {
            ids.push(member.id)?;
        }
        Ok(ids)
    }

    /// A member leaves: the others take its last entry, and one of them prunes it, if there is anything to prune.
    pub(crate) fn prune(&mut self, at: usize, owner: usize, view: u32) -> Result<(), Fail> {
        let removed = self.leave(at)?;
        let ids = self.ids()?;
        let owner = self.members.get_mut(owner).ok_or("member")?;
        if owner.prune(self.alloc, removed, view, &ids, &mut self.records)? {
            self.prunes = self.prunes.saturating_add(1);
        }
        Ok(())
    }

    /// Whether a member shows what its records mean.
    pub(crate) fn shows_what_is_meant(&self, at: usize) -> Result<bool, Fail> {
        let member = self.members.get(at).ok_or("member")?;
        let shown = member.entry.show(self.alloc)?;
        Ok(self.records.mean(&member.taken, &shown)?)
    }
}
