ghost use Rattle.std.specs.Prelude.{◌≡◌, ◌≤◌, ◌^◌, ◌∷◌, [], true, not, ◌&&◌, nat_le, length, map, None, OnOk, OnErr, IfOk, IfErr};
ghost use Rattle.std.specs.FinSet as set;
ghost use Rattle.model_meanings.specs.Refusal.{full, greatest_set};
ghost use Rattle.model_history.specs.Texts.{contains_text};
ghost use Rattle.model_kinds.specs.declared.operation.Op.TheVariants as op;
ghost use Rattle.data_lattice.specs.Refusals.{IsApplyRefusal};
ghost use Rattle.base_vectors.specs.Vectors.{number_at};
ghost use Rattle.base_bytes.specs.TextOrder.{IsRising};
ghost use Rattle.data_orset.specs.Placing.{key, at_dot};
ghost use Rattle.data_orset.specs.Dots.{is_element, set_joined, set_absorbed, set_combined, set_applied, set_delta_of, set_cleaned, set_pruned, set_mentioned, shown_elements};
ghost use Rattle.data_orset.specs.Keeping.{set_of, set_merged, is_other_key};

use crate::dot_list::DotList;
use crate::dots::{All, Rule, has_origin, merged};
use crate::elements::{
    between, count_elements, elements_at, elements_of, has_element, others, placed_at,
};
use crate::set::{OrSet, SetDelta};
use base_bytes::{Items, Memory, Text};
use base_vectors::{Dot, Id, VersionVector};
use data_lattice::ApplyError;
use model_kinds::Texts;
use std::alloc::Global;

/// With so many elements a set takes no other.
pub const MOST_ELEMENTS: usize = 256;

impl OrSet {
    /// A set without dots.
    pub(crate) fn new(alloc: Global) -> OrSet
        ensures { result ≡ set.empty }
    {
        OrSet {
            alloc,
            dots: DotList::new(alloc),
        }
    }

    /// The dots of two sets that stay: those of both where `both` says so, those of one alone by its rule.
    fn merged_with<M: Rule, T: Rule>(
        &self,
        alloc: Global,
        both: bool,
        my_rule: &M,
        other: &OrSet,
        their_rule: &T,
    ) -> Result<OrSet, Memory>
        ensures { IfOk result (λ all. all ≡ set_merged both (M.keeps my_rule.now) (T.keeps their_rule.now) self.now other.now) }
    {
        let dots = merged(alloc, both, &self.dots, my_rule, &other.dots, their_rule)?;
        Ok(OrSet { alloc, dots })
    }

    /// An equal set.
    pub(crate) fn copy_of(&self, alloc: Global) -> Result<OrSet, Memory>
        ensures { IfOk result (λ copy. copy ≡ self.now) }
    {
        let dots = self.dots.copy(alloc)?;
        Ok(OrSet { alloc, dots })
    }

    /// The dots of both.
    fn united(&self, alloc: Global, other: &OrSet) -> Result<OrSet, Memory>
        ensures { IfOk result (λ all. all ≡ set.union self.now other.now) }
    {
        self.merged_with(alloc, true, &All, other, &All)
    }

    /// Adds the dots of another set. After a refusal the set is as it was.
    fn unite(&mut self, other: &OrSet) -> Result<(), Memory>
        ensures ok { OnOk result (self.new ≡ set.union self.old other.now) }
        ensures err { OnErr result (self.new ≡ self.old) }
    {
        self.dots.unite(&other.dots, &All)?;
        Ok(())
    }

    /// One dot.
    fn of(alloc: Global, element: &Text, dot: &Dot) -> Result<OrSet, Memory>
        requires { (1 ≤ dot.now.seq) × (dot.now.seq ≤ 2 ^ 62) }
        ensures { IfOk result (λ one. one ≡ set.insert set.empty (key element.now dot.now.origin dot.now.seq)) }
    {
        let mut dots = DotList::new(alloc);
        dots.push(element, dot)?;
        Ok(OrSet { alloc, dots })
    }

    /// The dots of an element.
    fn named(&self, alloc: Global, element: &Text) -> Result<OrSet, Memory>
        ensures { IfOk result (λ own. own ≡ set.retain self.now (is_element element.now)) }
    {
        let run = self.dots.run_of(element);
        let dots = between(alloc, &self.dots, run.0, run.1)?;
        Ok(OrSet { alloc, dots })
    }

    /// Takes all dots from an element.
    fn drop_named(&mut self, element: &Text)
        ensures { self.new ≡ set.retain self.old (λ k. not (is_element element.now k)) }
    {
        let run = self.dots.run_of(element);
        self.dots.drop_between(run.0, run.1);
        self.dots.forget(element);
    }

    /// Gives an element the dot alone. After a refusal the set is as it was.
    fn put(&mut self, element: &Text, dot: &Dot) -> Result<(), Memory>
        requires { (1 ≤ dot.now.seq) × (dot.now.seq ≤ 2 ^ 62) }
        ensures ok { OnOk result (self.new ≡ set_applied self.old (op.Add element.now) dot.now) }
        ensures err { OnErr result (self.new ≡ self.old) }
    {
        let run = self.dots.run_of(element);
        match self.dots.replace(run.0, run.1, element, dot) {
            Ok(()) => Ok(()),
            Err(Memory) => Err(Memory),
        }
    }

    /// Whether the set takes no other element, and this is one.
    fn is_full_for(&self, element: &Text) -> bool
        ensures { result ≡ (nat_le greatest_set (length (shown_elements self.now)) && not (contains_text (shown_elements self.now) element.now)) }
    {
        if self.dots.len() < MOST_ELEMENTS {
            return false;
        }
        count_elements(&self.dots) >= MOST_ELEMENTS && !has_element(&self.dots, element)
    }

    /// What giving an element the dot alone adds and sees.
    fn delta_of_add(&self, alloc: Global, element: &Text, dot: &Dot) -> Result<SetDelta, Memory>
        requires { (1 ≤ dot.now.seq) × (dot.now.seq ≤ 2 ^ 62) }
        ensures { IfOk result (λ delta. delta ≡ set_delta_of self.now (op.Add element.now) dot.now) }
    {
        let fresh = OrSet::of(alloc, element, dot)?;
        let mut seen = self.named(alloc, element)?;
        seen.unite(&fresh)?;
        Ok(SetDelta { fresh, seen })
    }

    /// Gives an element the dot alone, unless the set is full, and answers what that added and saw.
    pub(crate) fn add(
        &mut self,
        alloc: Global,
        element: &Text,
        dot: &Dot,
    ) -> Result<SetDelta, ApplyError>
        requires { (1 ≤ dot.now.seq) × (dot.now.seq ≤ 2 ^ 62) }
        ensures unrefused { OnOk result (full element.now (shown_elements self.old) ≡ None) }
        ensures applied { OnOk result (self.new ≡ set_applied self.old (op.Add element.now) dot.now) }
        ensures delta { IfOk result (λ delta. delta ≡ set_delta_of self.old (op.Add element.now) dot.now) }
        ensures refused { IfErr result (IsApplyRefusal (full element.now (shown_elements self.old))) }
        ensures err { OnErr result (self.new ≡ self.old) }
    {
        if self.is_full_for(element) {
            return Err(ApplyError::SetFull);
        }
        let delta = self.delta_of_add(alloc, element, dot)?;
        self.put(element, dot)?;
        Ok(delta)
    }

    /// Takes all dots from an element, and answers what that saw.
    pub(crate) fn remove(
        &mut self,
        alloc: Global,
        element: &Text,
        dot: &Dot,
    ) -> Result<SetDelta, Memory>
        ensures applied { OnOk result (self.new ≡ set_applied self.old (op.Remove element.now) dot.now) }
        ensures delta { IfOk result (λ delta. delta ≡ set_delta_of self.old (op.Remove element.now) dot.now) }
        ensures err { OnErr result (self.new ≡ self.old) }
    {
        let fresh = OrSet::new(alloc);
        let seen = self.named(alloc, element)?;
        self.drop_named(element);
        Ok(SetDelta { fresh, seen })
    }

    /// Keeps a dot that both have, and a dot that one has where the other's vector doesn't count it.
    pub(crate) fn join_with(
        &mut self,
        mine: &VersionVector,
        other: &OrSet,
        theirs: &VersionVector,
    ) -> Result<(), Memory>
        ensures ok { OnOk result (self.new ≡ set_joined self.old (number_at mine.now) other.now (number_at theirs.now)) }
        ensures err { OnErr result (self.new ≡ self.old) }
    {
        let next = self.merged_with(self.alloc, true, theirs, other, mine)?;
        *self = next;
        Ok(())
    }

    /// Drops the dots that were seen but for the fresh ones, and takes a fresh dot where the vector doesn't count it.
    pub(crate) fn take(&mut self, mine: &VersionVector, delta: &SetDelta) -> Result<(), Memory>
        ensures ok { OnOk result (self.new ≡ set_absorbed self.old (number_at mine.now) delta.now) }
        ensures err { OnErr result (self.new ≡ self.old) }
    {
        self.dots.unite(&delta.fresh.dots, mine)?;
        self.dots.drop_all(&delta.seen.dots, &delta.fresh);
        Ok(())
    }

    /// Drops every dot of an identity.
    pub(crate) fn drop_dots_of(&mut self, id: Id)
        ensures { self.new ≡ set_cleaned self.old id }
    {
        self.dots.drop_dots_of(id);
    }

    /// Texts at one dot.
    fn at(alloc: Global, texts: &[Text], dot: &Dot) -> Result<OrSet, Memory>
        requires numbered { (1 ≤ dot.now.seq) × (dot.now.seq ≤ 2 ^ 62) }
        requires rising { IsRising texts.now }
        ensures { IfOk result (λ all. all ≡ set_of (map (at_dot dot.now) texts.now)) }
    {
        let dots = placed_at(alloc, texts, dot)?;
        Ok(OrSet { alloc, dots })
    }

    /// The dots of the elements that are none of the texts.
    fn without(&self, texts: &[Text]) -> Result<OrSet, Memory>
        requires { IsRising texts.now }
        ensures { IfOk result (λ left. left ≡ set.retain self.now (is_other_key texts.now)) }
    {
        let dots = others(self.alloc, &self.dots, texts)?;
        Ok(OrSet {
            alloc: self.alloc,
            dots,
        })
    }

    /// The set in which each of the texts has the dot alone.
    fn with_all_at(&self, texts: &[Text], dot: &Dot) -> Result<OrSet, Memory>
        requires numbered { (1 ≤ dot.now.seq) × (dot.now.seq ≤ 2 ^ 62) }
        requires rising { IsRising texts.now }
        ensures { IfOk result (λ all. all ≡ set.union (set.retain self.now (is_other_key texts.now)) (set_of (map (at_dot dot.now) texts.now))) }
    {
        let moved = OrSet::at(self.alloc, texts, dot)?;
        let left = self.without(texts)?;
        let next = left.united(self.alloc, &moved)?;
        Ok(next)
    }

    /// Gives each element with a dot of an identity the new dot alone.
    pub(crate) fn take_over(&mut self, removed: Id, dot: &Dot) -> Result<(), Memory>
        requires { (1 ≤ dot.now.seq) × (dot.now.seq ≤ 2 ^ 62) }
        ensures ok { OnOk result (self.new ≡ set_pruned self.old removed dot.now) }
        ensures err { OnErr result (self.new ≡ self.old) }
    {
        let texts = elements_at(self.alloc, &self.dots, removed)?;
        let next = self.with_all_at(&texts, dot)?;
        *self = next;
        Ok(())
    }

    /// Whether a dot is of this identity.
    pub(crate) fn has_dot_of(&self, id: Id) -> bool
        ensures { result ≡ set_mentioned self.now id }
    {
        has_origin(&self.dots, id)
    }

    /// The elements in byte order, each once.
    pub(crate) fn listed(&self, alloc: Global) -> Result<Texts, Memory>
        ensures { IfOk result (λ texts. texts ≡ shown_elements self.now) }
    {
        Ok(Items::from_vec(elements_of(alloc, &self.dots)?))
    }
}

impl SetDelta {
    /// Adds a later delta: what it has seen is fresh no more. After a refusal the delta is as it was.
    pub(crate) fn extend(&mut self, later: &SetDelta) -> Result<(), Memory>
        ensures ok { OnOk result (self.new ≡ set_combined self.old later.now) }
        ensures err { OnErr result (self.new ≡ self.old) }
    {
        DotList::unite_both(
            &mut self.fresh.dots,
            &later.fresh.dots,
            &mut self.seen.dots,
            &later.seen.dots,
        )?;
        self.fresh.dots.drop_all(&later.seen.dots, &later.fresh);
        Ok(())
    }

    /// An equal delta.
    pub(crate) fn copy_of(&self, alloc: Global) -> Result<SetDelta, Memory>
        ensures { IfOk result (λ copy. copy ≡ self.now) }
    {
        let fresh = self.fresh.copy_of(alloc)?;
        let seen = self.seen.copy_of(alloc)?;
        Ok(SetDelta { fresh, seen })
    }
}
