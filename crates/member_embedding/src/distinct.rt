ghost use Rattle.std.specs.Prelude.{◌≡◌, ◌↔◌, map, true};
ghost use Rattle.std.specs.List.{list_any};
ghost use Rattle.std.specs.Str.{bytes_eq};
ghost use Rattle.member_node.specs.Members.{AreDistinct};

use data_lattice::Replica;
use member_node::KeyDecl;

/// Whether one of the keys has this one's name.
fn is_among<T: Replica>(key: &KeyDecl<T>, others: &[KeyDecl<T>]) -> bool
    ensures { result ≡ list_any (λ other. bytes_eq other.key key.now.key) others.now }
{
    others
        .iter()
        .any(|other| other.key.as_str() == key.key.as_str())
}

/// Whether no two of the keys have one name, as a new member needs it.
pub fn are_distinct<T: Replica>(keys: &[KeyDecl<T>]) -> bool
    ensures { result ≡ true ↔ AreDistinct (map (λ decl. decl.key) keys.now) }
{
    for (index, key) in keys.iter().enumerate() {
        if is_among(key, &keys[..index]) {
            return false;
        }
    }
    true
}
