ghost use Rattle.std.specs.Prelude.{◌≡◌};

use crate::deleted::full;
use base_vectors::Id;
use data_codec::{Digested, Steps, digest};
use data_envelope::Envelope;
use data_lattice::SpelledData;
use data_value::Data;
use model_kinds::{Kind, Op};
use std::marker::Brand;
use std::rt::HostRuntime;
use std::sync::ledger::{Blank, Ledger};
use std::test::Fail;
use std::time::Instant;

/// Of so many measures the least counts, so that other work on the machine is no matter.
const MEASURES: u32 = 100;

/// Nanoseconds.
type Time = u64;

/// How long it is since a moment.
fn since(rt: &HostRuntime, start: Instant) -> Result<Time, Fail> {
    let elapsed = start.elapsed(rt)?;
    let whole = elapsed.as_secs().saturating_mul(1_000_000_000);
    Ok(whole.saturating_add(u64::from(elapsed.subsec_nanos())))
}

/// The time in which a digest of an entry is made.
fn time_of_made<T: SpelledData>(rt: &HostRuntime, entry: &Envelope<T>) -> Result<Time, Fail> {
    let start = Instant::now(rt)?;
    let _made = digest(rt.alloc(), entry)?;
    since(rt, start)
}

/// The time in which a question is answered after a change.
fn time_of_changed<T: SpelledData, L: Ledger>(
    rt: &HostRuntime,
    digested: &mut Digested<T>,
    steps: &mut Steps<L>,
) -> Result<Time, Fail> {
    let start = Instant::now(rt)?;
    let _entry = digested.change();
    let _made = digested.digest(steps)?;
    since(rt, start)
}

/// The time in which questions are answered in each way, where the digest is kept.
fn time_of_kept<T: SpelledData, L: Ledger>(
    rt: &HostRuntime,
    digested: &mut Digested<T>,
    steps: &mut Steps<L>,
) -> Result<Time, Fail> {
    digested.keep()?;
    let start = Instant::now(rt)?;
    digested.keep()?;
    let _kept = digested.digest(steps)?;
    let _told = digested.told()?;
    since(rt, start)
}

/// The least of each of the three times.
fn least_times<T: SpelledData, L: Ledger>(
    rt: &HostRuntime,
    digested: &mut Digested<T>,
    steps: &mut Steps<L>,
) -> Result<(Time, Time, Time), Fail> {
    let mut least = (u64::MAX, u64::MAX, u64::MAX);
    for _measure in 0..MEASURES {
        let made = time_of_made(rt, digested.envelope())?;
        let changed = time_of_changed(rt, digested, steps)?;
        let kept = time_of_kept(rt, digested, steps)?;
        let (least_made, least_changed, least_kept) = least;
        least = (
            least_made.min(made),
            least_changed.min(changed),
            least_kept.min(kept),
        );
    }
    Ok(least)
}

/// The same, with a ledger of its own.
fn times<T: SpelledData, L: Ledger>(
    rt: &HostRuntime,
    blank: Blank,
    entry: Envelope<T>,
) -> Result<(Time, Time, Time), Fail>
    requires name { blank.name ≡ L.name }
    requires parts { blank.parts ≡ L.parts }
    requires some { blank.parts ≡ 1 }
{
    let mut steps = Steps::<L>::new(blank);
    let mut digested = Digested::new(rt.alloc(), entry);
    least_times(rt, &mut digested, &mut steps)
}

/// The same for a set that is full.
fn times_of_full<T: SpelledData<Kind = Kind, Op = Op>>(
    rt: &HostRuntime,
    id: Id,
) -> Result<(Time, Time, Time), Fail> {
    let entry: Envelope<T> = full(rt.alloc(), Kind::OrSet, id)?;
    times::<T, Brand>(rt, Blank::new(1), entry)
}

/// A digest that is asked for after a change takes the time of one that is made, and not of two; one that is kept takes none.
#[test]
fn a_digest_is_made_once(rt: HostRuntime) -> Result<(), Fail> {
    let id = Id::new(0).ok_or("identity")?;
    let (made, changed, kept) = times_of_full::<Data>(&rt, id)?;
    if changed > made.saturating_add(made / 2) {
        return Err("made twice".into());
    }
    if kept > made / 4 {
        return Err("made again".into());
    }
    Ok(())
}
