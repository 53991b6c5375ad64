//! Levels and tallies.

ghost use Rattle.std.specs.Prelude.{◌≤◌};

use crate::same::same;
use base_vectors::Id;
use member_quorum::{Level, Progress, Tally, TooFew, needed};
use std::test::Fail;

fn id(number: u8) -> Result<Id, Fail> {
    Ok(Id::new(number).ok_or("no identity")?)
}

/// At a level so many are needed of the members, or there are too few.
fn check_needed(level: Level, members: usize, wanted: Result<usize, TooFew>) -> Result<(), Fail>
    requires { 1 ≤ members }
{
    same(&needed(level, members), &wanted, "how many are needed")
}

#[test]
fn levels_need_members() -> Result<(), Fail> {
    check_needed(Level::Local, 3, Ok(1))?;
    check_needed(Level::To(0), 3, Ok(1))?;
    check_needed(Level::To(3), 3, Ok(3))?;
    check_needed(Level::To(4), 3, Err(TooFew))?;
    check_needed(Level::Majority(0), 4, Ok(3))?;
    check_needed(Level::Majority(0), 5, Ok(3))?;
    check_needed(Level::Majority(4), 5, Ok(4))?;
    check_needed(Level::Majority(9), 5, Ok(5))?;
    check_needed(Level::All, 8, Ok(8))
}

/// After an answer from a member this is how far the tally is.
fn check_answer(tally: &mut Tally, from: u8, progress: Progress) -> Result<(), Fail> {
    same(&tally.answer(id(from)?), &progress, "how far a tally is")
}

#[test]
fn a_repeated_answer_counts_once() -> Result<(), Fail> {
    let mut tally = Tally::new(id(0)?, 3);
    for repeated in [1, 1, 0] {
        check_answer(&mut tally, repeated, Progress::Waiting)?;
    }
    check_answer(&mut tally, 2, Progress::Done)
}
