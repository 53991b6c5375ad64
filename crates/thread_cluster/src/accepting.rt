ghost use Rattle.std.specs.Prelude.{◌≡◌, ℕ, ◌<◌, ◌==◌, length, Err, IfOk, OnErr};
ghost use Rattle.thread_cell.specs.declared.cell.CellError.TheVariants as CellError;
ghost use Rattle.thread_cell.specs.Lists.{at};
ghost use Rattle.thread_cell.specs.Values.{Accepts};
ghost use Rattle.thread_cluster.specs.Passing.{at_one};
ghost use Rattle.thread_cluster.specs.Books.{one_if, IsBook};

use crate::book::Book;
use crate::member::Member;
use crate::section::Section;
use thread_cell::cell::{Cell, CellError};
use thread_cell::receipt::Receipt;
use thread_cell::session::Session;
use thread_cell::spot::Spot;
use thread_cell::table::CellTable;
use thread_machine::machine::Machine;

/// A cell makes a step, and its book is told of the entry: what it posted, and of the member at which place it took a
/// message, or 8 where of none.
///
/// # Errors
///
/// The history is full, the member made no step, or memory was refused. Then no entry was added.
pub(crate) fn accept<M: Member, N: Section, P: Spot>(
    cell: &mut Cell<M, N, P>,
    book: &mut Book,
    table: &CellTable<M, N>,
    session: &mut Session<M>,
    input: M::Input,
    from: usize,
) -> Result<Receipt<M>, CellError<M::Refusal>>
    requires table { session.old.seen.table ≡ N.table }
    requires book { IsBook M.posted M.taken N.ids (at cell.old.seen.known P.PLACE) book.old }
    requires takes { (p : ℕ) → p < 8 → length (at_one M.taken (N.ids p) input) ≡ one_if (from == p) }
    ensures table { session.new.seen.table ≡ N.table }
    ensures ok { IfOk result (Accepts M.Machine P.PLACE input cell.old session.old cell.new session.new) }
    ensures err { OnErr result ((cell.new.seen ≡ cell.old.seen) × (session.new ≡ session.old)) }
    ensures full { result ≡ Err CellError.CellFull → length (at cell.old.seen.known P.PLACE) ≡ 16384 }
    ensures refused { (refusal : M.Refusal) → result ≡ Err (CellError.Refused refusal) → M.MayRefuse cell.old.machine input refusal × M.IsUnchanged cell.old.machine cell.new.machine }
    ensures book { IsBook M.posted M.taken N.ids (at cell.new.seen.known P.PLACE) book.new }
{
    if !book.make_room() {
        return Err(CellError::Memory);
    }
    match cell.accept(table, session, input) {
        Ok(receipt) => {
            cell.facts();
            book.write::<M>(receipt.index, from, &receipt.output);
            Ok(receipt)
        }
        Err(error) => Err(error),
    }
}
