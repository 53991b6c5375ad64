use std::marker::Brand;

/// Names one table, for contracts alone. A caller of a function that is generic over a name passes `Brand`, and picks
/// the table for it.
pub trait Name {
    ghost use Rattle.atomic_table.specs.Seated.{TableId};

    // The table.
    ghost table: { TableId };
}

impl Name for Brand {
    ghost use Rattle.thread_cell.specs.Names.{no_table};

    ghost table = { no_table };
}
