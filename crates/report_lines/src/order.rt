ghost use Rattle.std.specs.Prelude.{◌≡◌, ◌≤◌, map, length, IfOk};
ghost use Rattle.report_lines.specs.Run.{place_in, decl_of, in_order};
ghost use Rattle.member_node.specs.Members.{declared};

use base_bytes::Memory;
use data_lattice::Replica;
use member_node::KeyDecl;
use model_kinds::{Kind, Op};
use script_reading::ScriptKey;
use std::alloc::Global;

/// Where a key with this name is to be put: before the first with a greater name.
fn place_of<T: Replica<Kind = Kind, Op = Op>>(decls: &[KeyDecl<T>], name: &str) -> usize
    ensures within { result ≤ length decls.now }
    ensures place { result ≡ place_in (map (λ decl. decl.key) decls.now) name.now }
{
    for (i, decl) in decls.iter().enumerate() {
        if name < decl.key.as_str() {
            return i;
        }
    }
    decls.len()
}

/// The keys of a script in the byte order of their names.
pub(crate) fn in_order<T: Replica<Kind = Kind, Op = Op>>(
    alloc: Global,
    keys: &[ScriptKey],
) -> Result<Vec<KeyDecl<T>>, Memory>
    ensures { IfOk result (λ decls. map declared decls.items ≡ map decl_of (in_order keys.now)) }
{
    let mut decls: Vec<KeyDecl<T>> = Vec::new(alloc);
    for key in keys {
        let decl = KeyDecl {
            key: key.key.copied(),
            kind: key.kind,
            durable: key.durable,
        };
        let place = place_of(decls.as_slice(), key.key.as_str());
        if decls.insert(place, decl).is_err() {
            return Err(Memory);
        }
    }
    Ok(decls)
}
