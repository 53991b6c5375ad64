use crate::tally::{Overflow, Tally};
use thread_cell::cell::{Cell, CellError};
use thread_cell::name::Name;
use thread_cell::receipt::Receipt;
use thread_cell::session::Session;
use thread_cell::spot::Spot;
use thread_cell::table::CellTable;

/// What lies under the lock of a place.
#[derive(Drop)]
pub struct Locked<N: Name, P: Spot> {
    pub cell: Cell<Tally, N, P>,
}

impl<N: Name, P: Spot> Locked<N, P> {
    ghost use Rattle.std.specs.Prelude.{◌≡◌, IfOk, OnErr};
    ghost use Rattle.trial_cell.specs.Answers.{IsAnswered, IsShown};

    /// Adds an amount for the session's client, and answers the new total.
    ///
    /// # Errors
    ///
    /// Nothing was added: the total would be too great, the history is full, or there was no memory.
    pub fn add(
        &mut self,
        table: &CellTable<Tally, N>,
        session: &mut Session<Tally>,
        amount: u64,
    ) -> Result<Receipt<Tally>, CellError<Overflow>>
        requires { session.old.seen.table ≡ N.table }
        ensures table { session.new.seen.table ≡ N.table }
        ensures ok { IfOk result (IsAnswered P.PLACE amount session.old session.new) }
        ensures err { OnErr result (session.new ≡ session.old) }
    {
        self.cell.facts();
        self.cell.accept(table, session, amount)
    }

    /// The total. Cell and session have then seen the same.
    pub fn look(&mut self, table: &CellTable<Tally, N>, session: &mut Session<Tally>) -> u64
        requires { session.old.seen.table ≡ N.table }
        ensures table { session.new.seen.table ≡ N.table }
        ensures shown { IsShown P.PLACE session.old session.new result }
    {
        let note = session.note(table);
        self.cell.meet(table, note);
        let note = self.cell.note(table);
        session.meet(table, note);
        self.cell.facts();
        self.cell.machine().total
    }
}
