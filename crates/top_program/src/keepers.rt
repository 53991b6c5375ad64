ghost use Rattle.std.specs.Prelude.{◌≡◌, length, IfOk};

use member_sqlite::SqliteKeeper;
use std::alloc::{AllocError, Global};

/// A keeper for each place, over a database in memory.
pub(crate) fn keepers(alloc: Global) -> Result<Vec<SqliteKeeper>, AllocError>
    ensures { IfOk result (λ keepers. length keepers.items ≡ 8) }
{
    let mut keepers = Vec::new(alloc);
    for _place in 0_u8..8 {
        keepers.push(SqliteKeeper::in_memory(alloc))?;
    }
    Ok(keepers)
}
