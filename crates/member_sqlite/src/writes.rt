ghost use Rattle.std.specs.Prelude.{◌≡◌};
ghost use Rattle.member_sqlite.specs.Statements.{change_text, add_text};

use sqlite::Statement;

/// The two statements that put an entry.
#[derive(Drop)]
pub(crate) struct Writes {
    /// Changes the row that the entry's key has.
    pub(crate) change: Statement,
    /// Adds a row.
    pub(crate) add: Statement,
    ghost changes: { change.text ≡ change_text },
    ghost adds: { add.text ≡ add_text },
}
