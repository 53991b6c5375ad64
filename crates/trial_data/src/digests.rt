ghost use Rattle.std.specs.Prelude.{◌≡◌, ◌+◌, true, false, OnOk};

use base_bytes::Memory;
use data_codec::{Digested, Steps, digest};
use data_envelope::Envelope;
use data_lattice::{Replica, SpelledData};
use data_value::Data;
use model_kinds::Kind;
use std::alloc::Global;
use std::marker::Brand;
use std::rt::HostRuntime;
use std::sync::ledger::{Blank, Ledger};
use std::test::Fail;

/// Three questions, for which one digest is made.
fn three_questions<T: SpelledData, L: Ledger>(
    digested: &mut Digested<T>,
    steps: &mut Steps<L>,
) -> Result<[[u8; 20]; 3], Memory>
    requires { digested.old.is_kept ≡ false }
    ensures kept { OnOk result (digested.new.is_kept ≡ true) }
    ensures steps { OnOk result (steps.new ≡ steps.old + 1) }
{
    let first = digested.digest(steps)?;
    let second = digested.digest(steps)?;
    let third = digested.digest(steps)?;
    Ok([first, second, third])
}

/// The digests at three questions, and after a change the one at a fourth. Two are made.
fn four_questions<T: SpelledData, L: Ledger>(
    digested: &mut Digested<T>,
    other: Envelope<T>,
    steps: &mut Steps<L>,
) -> Result<([[u8; 20]; 3], [u8; 20]), Memory>
    requires { digested.old.is_kept ≡ false }
    ensures { OnOk result (steps.new ≡ steps.old + 2) }
{
    let three = three_questions(digested, steps)?;
    *digested.change() = other;
    let fourth = digested.digest(steps)?;
    Ok((three, fourth))
}

/// The same, with a ledger of its own.
fn asked<T: SpelledData, L: Ledger>(
    alloc: Global,
    blank: Blank,
    envelope: Envelope<T>,
    other: Envelope<T>,
) -> Result<([[u8; 20]; 3], [u8; 20]), Memory>
    requires name { blank.name ≡ L.name }
    requires parts { blank.parts ≡ L.parts }
    requires some { blank.parts ≡ 1 }
{
    let mut steps = Steps::<L>::new(blank);
    let mut digested = Digested::new(alloc, envelope);
    four_questions(&mut digested, other, &mut steps)
}

/// The digests of two entries.
fn digests<T: SpelledData>(
    alloc: Global,
    envelope: &Envelope<T>,
    other: &Envelope<T>,
) -> Result<([u8; 20], [u8; 20]), Memory> {
    let one = digest(alloc, envelope)?;
    Ok((one, digest(alloc, other)?))
}

/// Whether the answer to three questions was the first of two digests, and that to a fourth the second, which is another.
fn are_told(answers: ([[u8; 20]; 3], [u8; 20]), one: [u8; 20], two: [u8; 20]) -> bool {
    let ([first, second, third], fourth) = answers;
    first == one && second == one && third == one && fourth == two && one != two
}

/// Whether one kept digest answers three questions, and another entry's digest a fourth.
fn is_kept<T: SpelledData>(
    alloc: Global,
    envelope: Envelope<T>,
    other: Envelope<T>,
) -> Result<bool, Memory> {
    let (one, two) = digests(alloc, &envelope, &other)?;
    let answers = asked::<T, Brand>(alloc, Blank::new(1), envelope, other)?;
    Ok(are_told(answers, one, two))
}

/// An entry without a record.
fn entry(alloc: Global, kind: Kind) -> Result<Envelope<Data>, Fail> {
    Ok(Envelope::new(alloc, Data::empty(alloc, &kind)?))
}

/// One kept digest answers three questions, and another entry's digest a fourth.
#[test]
fn a_kept_digest_is_told(rt: HostRuntime) -> Result<(), Fail> {
    let alloc = rt.alloc();
    let set = entry(alloc, Kind::GSet)?;
    let or_set = entry(alloc, Kind::OrSet)?;
    if is_kept(alloc, set, or_set)? {
        return Ok(());
    }
    Err("another digest".into())
}
