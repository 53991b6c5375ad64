use std::marker::Brand;
use thread_cell::name::Name;

/// Names a table of members and says who they are, for contracts alone.
pub trait Section: Name {
    ghost use Rattle.std.specs.Prelude.{ℕ, Option};

    // The identity of the member at a place, if there is one.
    ghost ids: { ℕ → Option ℕ };
}

impl Section for Brand {
    ghost use Rattle.std.specs.Prelude.{None};

    ghost ids = { λ place. None };
}
