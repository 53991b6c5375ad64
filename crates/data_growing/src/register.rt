ghost use Rattle.std.specs.Prelude.{◌≡◌, ◌≤◌, ◌+◌, ◌==◌, [], max, true, false, refl, None, Some, OnOk, OnErr, IfOk, IfErr, option_copied};
ghost use Rattle.std.specs.Ordering.{is_lt};
ghost use Rattle.std.proofs.Common.{ap};
ghost use Rattle.std.proofs.lemmas.Bool.{false≢true};
ghost use Rattle.model_meanings.specs.Growing.{Assignment};
ghost use Rattle.model_meanings.specs.Refusal.{greatest_share};
ghost use Rattle.base_vectors.specs.declared.id.Dot.{Dot};
ghost use Rattle.model_kinds.specs.SixKinds.{of_kind, assigned};
ghost use Rattle.model_kinds.specs.declared.kind.Kind.TheVariants as kind;
ghost use Rattle.model_kinds.specs.declared.shown.Shown.TheVariants as shown_as;
ghost use Rattle.data_lattice.specs.Refusals.{IsApplyRefusal};
ghost use Rattle.data_growing.specs.Registers.{write_order, winning, register_written, register_joined, stamp_of, write_after, assignment_of, register_refusal, text_of, IsRegisterOf, IsWrittenBetween};
ghost use Rattle.base_bytes.specs.Fields.{Gives};
ghost use Rattle.data_growing.specs.Spelling.{register_spelled, won_write, IsSoundRegister};
ghost use Rattle.data_growing.specs.Reading.{register_in};
ghost use Rattle.data_growing.specs.SpellingLaws as spellings;
ghost use Rattle.data_growing.specs.WriteLaws as writes;
ghost use Rattle.data_growing.specs.RegisterLaws as laws;

use crate::elements::order;
use crate::spelling::{read_written, spelled_write};
use crate::timestamp::Timestamp;
use base_bytes::{Fault, FieldError, Memory, ReadError, Spelled, Text, placed, read_number};
use base_vectors::{Dot, Id, IdSet, VersionVector};
use data_lattice::{ApplyError, PruneError, Replica, SpelledData};
use model_kinds::{Moment, Op, Shown};
use std::alloc::Global;
use std::cmp::Ordering;
use std::marker::Model;

/// What was written last, with which timestamp, and by whom.
#[derive(Drop)]
pub struct Written {
    pub text: Text,
    pub timestamp: Timestamp,
    pub writer: Id,
}

impl Written {
    /// Which of two writes wins: it comes first.
    fn order(&self, other: &Written) -> Ordering
        ensures { result ≡ write_order self.now other.now }
    {
        let stamps = other.timestamp.number().cmp(&self.timestamp.number());
        let writers = self.writer.number().cmp(&other.writer.number());
        stamps.then(writers.then(order(&self.text, &other.text)))
    }

    /// Whether this write wins over another.
    fn wins(&self, other: &Written) -> bool
        ensures { result ≡ is_lt (write_order self.now other.now) }
    {
        self.order(other).is_lt()
    }

    pub(crate) fn copy_of(&self, alloc: Global) -> Result<Written, Memory>
        ensures { IfOk result (λ copy. copy ≡ self.now) }
    {
        Ok(Written {
            text: self.text.copied(),
            timestamp: self.timestamp,
            writer: self.writer,
        })
    }

    /// The one of two writes that wins.
    fn winner(alloc: Global, write: &Written, other: &Written) -> Result<Written, Memory>
        ensures { IfOk result (λ winner. winner ≡ winning write.now other.now) }
    {
        if other.wins(write) {
            other.copy_of(alloc)
        } else {
            write.copy_of(alloc)
        }
    }

    /// Becomes another write where that wins, which takes no memory.
    fn give_way(&mut self, other: &Written)
        ensures { self.new ≡ winning self.old other.now }
    {
        if other.wins(self) {
            self.text = other.text.copied();
            self.timestamp = other.timestamp;
            self.writer = other.writer;
        }
    }
}

/// A register that keeps the last write.
#[derive(Drop)]
pub struct LwwRegister {
    alloc: Global,
    written: Option<Written>,
}

impl Model for LwwRegister {
    ghost use Rattle.std.specs.Prelude.{Option};
    ghost use Rattle.data_growing.specs.declared.register.Written.{Written};

    ghost Value = { Option Written };

    ghost view = { λ register. register.written };
}

impl LwwRegister {
    /// The write that won, if there was one.
    pub fn written(&self) -> Option<&Written>
        ensures { option_copied result ≡ self.now }
    {
        self.written.as_ref()
    }

    /// The timestamp of the last write, 0 before the first one.
    fn timestamp(&self) -> u64
        ensures value { result ≡ stamp_of self.now }
        ensures range { result ≤ greatest_share }
    {
        match &self.written {
            None => 0,
            Some(written) => written.timestamp.number(),
        }
    }

    /// Takes a write, unless it loses to the own one.
    fn take(&mut self, write: &Written) -> Result<(), Memory>
        ensures ok { OnOk result (self.new ≡ Some (register_written self.old write.now)) }
        ensures err { OnErr result (self.new ≡ self.old) }
    {
        let won = match &self.written {
            None => write.copy_of(self.alloc)?,
            Some(own) => Written::winner(self.alloc, own, write)?,
        };
        self.written = Some(won);
        Ok(())
    }

    /// Writes a text by a clock that stands at `now`, and answers the write.
    fn write(
        &mut self,
        alloc: Global,
        text: &Text,
        now: Moment,
        dot: Dot,
    ) -> Result<Written, ApplyError>
        ensures unrefused { OnOk result (register_refusal self.old ≡ None) }
        ensures written { OnOk result (self.new ≡ Some (write_after self.old (record { text = text.now; now = now }) dot)) }
        ensures delta { IfOk result (λ delta. delta ≡ write_after self.old (record { text = text.now; now = now }) dot) }
        ensures refused { IfErr result (IsApplyRefusal (register_refusal self.old)) }
        ensures err { OnErr result (self.new ≡ self.old) }
    {
        let Some(timestamp) = Timestamp::new(now.number().max(self.timestamp() + 1)) else {
            return Err(ApplyError::ClockSpent);
        };
        let write = Written {
            text: text.copied(),
            timestamp,
            writer: dot.origin,
        };
        self.written = Some(write.copy_of(self.alloc)?);
        Ok(write)
    }
}

impl Replica for LwwRegister {
    type Kind = ();

    type Op = Op;

    type Delta = Written;

    ghost data_type = { of_kind kind.LwwRegister };

    ghost kind_of = { λ _. tt };

    ghost is_closed = { λ _. false };

    ghost delta_fits_kind = { λ _ _. true };

    ghost IsOfOrigin = { λ delta origin. delta.writer ≡ origin };

    ghost AreApart = { λ _ _. Unit {0} };

    ghost empty_of = { λ _. None };

    ghost applied = { λ state op dot. Some (write_after state (assignment_of (assigned op)) dot) };

    ghost delta_of = { λ state op dot. write_after state (assignment_of (assigned op)) dot };

    ghost apply_refusal = { λ state _ _. register_refusal state };

    ghost joined = { λ state _ other _. register_joined state other };

    ghost absorbed = { λ state _ delta. Some (register_written state delta) };

    ghost combined = { winning };

    ghost cleaned = { λ state _. state };

    ghost pruned = { λ state _ _. state };

    ghost prune_refusal = { λ _ _ _. None };

    ghost mentioned = { λ _ _. false };

    ghost shown = { λ state. shown_as.Written (text_of state) };

    ghost spelling = { λ state. (6, register_spelled state) };

    ghost IsDataOf = { λ state log held _. IsRegisterOf assigned state log held };

    ghost IsDeltaOf = { IsWrittenBetween assigned };

    ghost IsWithin = { λ _ _. Unit {0} };

    fn empty(alloc: Global, _kind: &()) -> Result<LwwRegister, Memory> {
        Ok(LwwRegister {
            alloc,
            written: None,
        })
    }

    fn copy(&self, alloc: Global) -> Result<LwwRegister, Memory> {
        let written = match &self.written {
            None => None,
            Some(written) => Some(written.copy_of(alloc)?),
        };
        Ok(LwwRegister { alloc, written })
    }

    fn same_kind(&self, _other: &LwwRegister) -> bool {
        true
    }

    fn closed(&self) -> bool {
        false
    }

    fn fits(&self, op: &Op) -> bool {
        match op {
            Op::Assign { .. } => true,
            _ => false,
        }
    }

    fn apply(&mut self, alloc: Global, op: &Op, dot: Dot) -> Result<Written, ApplyError> {
        match op {
            Op::Assign { text, now } => self.write(alloc, text, *now, dot),
            _ => unreachable!(),
        }
    }

    fn join(
        &mut self,
        _mine: &VersionVector,
        other: &LwwRegister,
        _theirs: &VersionVector,
    ) -> Result<(), Memory> {
        match &other.written {
            None => Ok(()),
            Some(write) => self.take(write),
        }
    }

    fn absorb(&mut self, _mine: &VersionVector, delta: &Written) -> Result<(), Memory> {
        self.take(delta)
    }

    fn extend_delta(delta: &mut Written, later: &Written) -> Result<(), Memory> {
        delta.give_way(later);
        Ok(())
    }

    fn copy_delta(alloc: Global, delta: &Written) -> Result<Written, Memory> {
        delta.copy_of(alloc)
    }

    fn delta_fits(&self, _delta: &Written) -> bool {
        true
    }

    fn clean(&mut self, _id: Id) {}

    fn prune(&mut self, _removed: Id, _dot: Dot) -> Result<(), PruneError> {
        Ok(())
    }

    fn mentions(&self, _id: Id) -> bool {
        false
    }

    fn show(&self, alloc: Global) -> Result<Shown, Memory> {
        match &self.written {
            None => Ok(Shown::Written(Text::empty())),
            Some(written) => Ok(Shown::Written(written.text.copied())),
        }
    }

    ghost kind_empty = { λ _. refl };

    ghost kind_applied = { λ _ _ _. refl };

    ghost kind_joined = { λ _ _ _ _. refl };

    ghost kind_absorbed = { λ _ _ _. refl };

    ghost kind_cleaned = { λ _ _. refl };

    ghost kind_pruned = { λ _ _ _. refl };

    ghost closed_joined = { λ _ _ _ _. refl };

    ghost closed_absorbed = { λ _ _ _ is. is };

    ghost closed_cleaned = { λ _ _. refl };

    ghost closed_pruned = { λ _ _ _. refl };

    ghost closed_mentions = { λ _ _ _. refl };

    ghost closed_shown = { λ _ is. absurd (false≢true is) };

    ghost closed_unblocked = { λ _ _ _ _. refl };

    ghost delta_kind = { λ _ _ _ _. refl };

    ghost delta_origin = { λ _ _ _. refl };

    ghost combined_kind = { λ _ _ _ _ _. refl };

    ghost combined_origin = { writes.combined_writer };

    ghost delta_made_by = { λ _ _ _ _ _ made. made.made_by };

    ghost join_comm = { λ a b _ _ _ _ _. writes.join_comm a b };

    ghost join_assoc = { λ a b c _ _ _ _ _ _ _ _. writes.join_assoc a b c };

    ghost join_same = { λ a _ _. writes.join_same a };

    ghost join_upper = { λ a b _ _ _ _ _. writes.join_upper a b };

    ghost join_within = { λ _ _ _ _ _ _ _. tt };

    ghost absorb_applied = { λ state _ op dot _ _. ap Some (writes.written_after state (assignment_of (assigned op)) dot) };

    ghost absorb_combined = { λ state _ first later _ _ _ _ _ _. writes.absorb_combined state first later };

    ghost data_empty = { λ _ log held _ none. laws.data_empty assigned log held none };

    ghost data_applied = { λ state log held _ op dot _ _ next _ is fits _. laws.data_applied state log held op dot next is fits };

    ghost data_joined = { λ state other log held also _ _ _ _ _ is other_is. laws.data_joined assigned log state other held also is other_is };

    ghost data_absorbed = { λ state delta log held _ origin after to _ _ cut _ is made _ low high. laws.data_absorbed assigned log state delta held origin after to cut is made low high };

    ghost data_cleaned = { λ _ _ _ _ _ is. is };

    ghost data_pruned = { λ state log held _ removed dot _ _ next _ is _ _ _. laws.data_pruned assigned log state held removed dot.origin next is };

    ghost delta_combined = { λ _ first later log origin after mid to _ _ made later_made. laws.delta_combined assigned log first later origin after mid to made later_made };

    ghost data_within = { λ _ _ _ _ _. tt };

    ghost data_unmentioned = { λ _ _ _ _ _ _ _. refl };

    ghost data_once = { λ state other log held _ _ is other_is. laws.data_once assigned log state other held is other_is };

    ghost empty_mentions = { λ _ _. refl };

    ghost applied_mentions = { λ _ _ _ _ _ _. refl };

    ghost joined_mentions = { λ _ _ _ _ _ _ _. refl };

    ghost absorbed_mentions = { λ _ _ _ _ _ _ _ _. refl };

    ghost cleaned_mentions = { λ _ _ _ _. refl };

    ghost cleaned_unmentioned = { λ _ _. refl };

    ghost pruned_mentions = { λ _ _ _ _ _ _. refl };

    ghost pruned_unmentioned = { λ _ _ _ _. refl };

    ghost closed_means = { λ _ _ _ _ _ _. refl };

    ghost refusal_means = { λ state log held _ op origin _ is _ fits. laws.refusal_means state log held op origin is fits };

    ghost blocked_means = { λ _ _ _ _ _ _ _ _ _ _. refl };

    ghost shown_means = { λ state log held _ _ is. ap shown_as.Written (laws.text_means assigned log state held is) };
}

/// A register, and the bytes after it.
#[tactic(auto, unfolding(crate::specs::Reading::register_in))]
fn read_register(alloc: Global, bytes: &[u8]) -> Result<(LwwRegister, &[u8]), FieldError>
    ensures { Gives (λ x. (x.0, x.1.now)) result (register_in bytes.now) }
{
    let (number, rest) = read_number(bytes)?;
    if number == 0 {
        let written = None;
        return Ok((LwwRegister { alloc, written }, rest));
    }
    let Some(timestamp) = Timestamp::new(number) else {
        return Err(FieldError::Fault(Fault::BadByte(bytes.len())));
    };
    let (write, rest) = read_written(alloc, timestamp, rest)?;
    let written = Some(write);
    Ok((LwwRegister { alloc, written }, rest))
}

impl SpelledData for LwwRegister {
    ghost byte_of = { λ _. 6 };

    ghost is_known = { λ byte. byte == 6 };

    ghost IsSound = { IsSoundRegister };

    ghost spelled = { register_spelled };

    ghost read_in = { λ _ _. register_in };

    ghost history_byte = { λ _ _. 6 };

    ghost history_spelled = { λ _ H. register_spelled (won_write assigned H) };

    fn is_kind(byte: u8) -> bool {
        byte == 6
    }

    fn kind_byte(&self) -> u8 {
        6
    }

    fn spell_data(&self, into: &mut Vec<u8>) -> Result<(), Memory> {
        match &self.written {
            None => 0u64.spell(into),
            Some(write) => {
                let spelled = spelled_write(self.alloc, write)?;
                Ok(into.extend_from_slice(&spelled)?)
            }
        }
    }

    fn read_data(
        alloc: Global,
        _kind: u8,
        _barred: IdSet,
        from: &[u8],
        place: usize,
    ) -> Result<(LwwRegister, usize), ReadError> {
        placed(from.len(), read_register(alloc, &from[place..]))
    }

    ghost spelling_is = { λ _. refl };

    ghost byte_is_known = { λ _. refl };

    ghost read_is_spelled = { λ kind barred bytes x rest known fits read. spellings.of_one_kind 6 kind barred known (spellings.register_takes bytes x rest fits read) };

    ghost spelled_is_read = { λ x _ rest sound _. spellings.register_again x rest sound };

    ghost mentioned_few = { λ _ _ _ _. refl };

    ghost byte_means = { λ _ _ _ _ _ _. refl };

    ghost spelling_means = { λ state log held _ _ is. ap register_spelled (laws.write_means assigned log state held is) };
}
