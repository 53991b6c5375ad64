ghost use Rattle.std.specs.Prelude.{◌≡◌, ◌<◌, ℕ, [], ◌∷◌, ◌++◌, length, true, OnOk};
ghost use Rattle.trace_values.specs.Rows.{row_of};
ghost use Rattle.trace_values.specs.Touches.{AreRising, last_counted, IsPushedIf};

use base_bytes::Memory;
use base_vectors::{Id, Seq};
use std::alloc::Global;
use std::marker::Model;

/// Rising numbers of records.
#[derive(Drop)]
pub(crate) struct Rising {
    numbers: Vec<Seq>,
}

impl Model for Rising {
    ghost use Rattle.std.specs.Prelude.{ℕ, List};
    ghost use Rattle.trace_values.specs.Touches.{AreRising};

    ghost Value = { List ℕ };

    ghost view = { λ rising. rising.numbers.items };

    ghost invariant = { λ rising. AreRising rising.numbers.items };
}

/// The last of rising numbers that is no greater than a number, and 0 where there is none. It is found by halves.
fn last_counted(numbers: &[Seq], count: Seq) -> Seq
    requires { AreRising numbers.now }
    ensures { result ≡ last_counted numbers.now count }
{
    let place = numbers.partition_point(|number| *number <= count);
    if place == 0 { 0 } else { numbers[place - 1] }
}

/// Adds a number that is no less than those before it.
fn push(numbers: &mut Vec<Seq>, number: Seq) -> Result<(), Memory>
    requires { AreRising numbers.old.items }
    ensures rising { AreRising numbers.new.items }
    ensures pushed { OnOk result (AreRising (numbers.old.items ++ number ∷ []) → numbers.new.items ≡ numbers.old.items ++ number ∷ []) }
{
    let count = numbers.len();
    if count > 0 && number < numbers[count - 1] {
        return Ok(());
    }
    match numbers.push(number) {
        Ok(()) => Ok(()),
        Err(_) => Err(Memory),
    }
}

impl Rising {
    /// No number.
    fn new(alloc: Global) -> Rising
        ensures { result ≡ [] }
    {
        Rising {
            numbers: Vec::new(alloc),
        }
    }

    /// Adds a number that is no less than those before it.
    fn push(&mut self, number: Seq) -> Result<(), Memory>
        ensures { OnOk result (AreRising (self.old ++ number ∷ []) → self.new ≡ self.old ++ number ∷ []) }
    {
        push(&mut self.numbers, number)
    }

    /// The last that is no greater than a number, and 0 where there is none.
    pub(crate) fn last_counted(&self, count: Seq) -> Seq
        ensures { result ≡ last_counted self.now count }
    {
        last_counted(self.numbers.as_slice(), count)
    }
}

/// Makes the list longer than an index, by rows without numbers.
fn lengthen(rows: &mut Vec<Rising>, alloc: Global, index: usize) -> Result<(), Memory>
    requires { index < 255 }
    ensures same { OnOk result ((i : ℕ) → row_of rows.new.items i ≡ row_of rows.old.items i) }
    ensures long { OnOk result (index < length rows.new.items) }
{
    while rows.len() <= index {
        rows.push(Rising::new(alloc))?;
    }
    Ok(())
}

/// Adds a number to those of an identity.
fn push_number(rows: &mut Vec<Rising>, alloc: Global, id: Id, number: Seq) -> Result<(), Memory>
    ensures { OnOk result (IsPushedIf true rows.old.items rows.new.items id number) }
{
    let index = usize::from(id.number());
    lengthen(rows, alloc, index)?;
    rows[index].push(number)
}

/// Adds a number to those of an identity, if so.
pub(crate) fn push_if(
    rows: &mut Vec<Rising>,
    alloc: Global,
    id: Id,
    number: Seq,
    counts: bool,
) -> Result<(), Memory>
    ensures { OnOk result (IsPushedIf counts rows.old.items rows.new.items id number) }
{
    if counts {
        push_number(rows, alloc, id, number)
    } else {
        Ok(())
    }
}
