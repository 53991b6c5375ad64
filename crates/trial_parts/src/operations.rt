ghost use Rattle.std.specs.Prelude.{◌≡◌, true, IfOk};
ghost use Rattle.model_kinds.specs.SixKinds.{six_kinds};

use crate::random::Random;
use base_bytes::Text;
use model_kinds::{Kind, Moment, Op};
use std::test::Fail;

/// One of a few texts, so that members write the same ones.
fn text(random: &mut Random) -> Result<Text, Fail> {
    let text = match random.below(3) {
        0 => "a",
        1 => "b",
        _ => "c",
    };
    Ok(Text::new(text)?)
}

/// A moment of a slow clock, so that writes have the same timestamp.
fn moment(random: &mut Random) -> Result<Moment, Fail> {
    Ok(Moment::new(random.below(4)).ok_or("moment")?)
}

/// An operation of a kind at random, which is a delete now and then.
///
/// # Errors
///
/// None in practice: no text was made of one letter, or no moment of a small number.
pub fn operation(kind: Kind, random: &mut Random) -> Result<Op, Fail>
    ensures { IfOk result (λ op. six_kinds.fits kind op ≡ true) }
{
    if random.below(24) == 0 {
        return Ok(Op::Delete);
    }
    let first = random.below(2) == 0;
    match kind {
        Kind::GCounter => Ok(Op::Increment(random.below(9))),
        Kind::PnCounter if first => Ok(Op::Increment(random.below(9))),
        Kind::PnCounter => Ok(Op::Decrement(random.below(9))),
        Kind::GSet => Ok(Op::Add(text(random)?)),
        Kind::OrSet if first => Ok(Op::Add(text(random)?)),
        Kind::OrSet => Ok(Op::Remove(text(random)?)),
        Kind::Flag => Ok(Op::Enable),
        Kind::LwwRegister => Ok(Op::Assign {
            text: text(random)?,
            now: moment(random)?,
        }),
    }
}
