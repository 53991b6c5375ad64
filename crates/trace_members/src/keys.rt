ghost use Rattle.std.specs.Prelude.{◌≡◌, map, IfOk};
ghost use Rattle.trace_lines.specs.Meant.{key_meant};
ghost use Rattle.member_node.specs.Members.{declared};

use base_bytes::{Items, Memory};
use data_lattice::Replica;
use member_node::KeyDecl;
use model_kinds::{Kind, Op};
use script_reading::ScriptKey;
use std::alloc::Global;
use trace_lines::Keys;

/// The declared keys of a world, as those of its trace.
pub(crate) fn keys_of<T: Replica<Kind = Kind, Op = Op>>(
    alloc: Global,
    decls: &[KeyDecl<T>],
) -> Result<Keys, Memory>
    ensures { IfOk result (λ keys. map key_meant keys ≡ map declared decls.now) }
{
    let mut keys = Items::new(alloc);
    for decl in decls {
        keys.push(ScriptKey {
            key: decl.key.copied(),
            kind: decl.kind,
            durable: decl.durable,
        })?;
    }
    Ok(keys)
}
