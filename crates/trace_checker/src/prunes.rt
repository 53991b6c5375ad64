ghost use Rattle.std.specs.Prelude.{◌≡◌};
ghost use Rattle.std.specs.List.{list_all};
ghost use Rattle.base_vectors.specs.Vectors.{number_at};
ghost use Rattle.trace_checker.specs.Prunes.{is_counted, prunes_it, has_prune, leaves_alone, is_exact_prune, are_exact, counts_dot, has_delete};

use base_vectors::{Dot, Id, Seq, VersionVector};

/// A record that prunes an identity: whose it is, its number, and how many records of the identity stand in its past.
#[derive(Drop)]
pub(crate) struct PruneMade {
    pub(crate) origin: Id,
    pub(crate) number: Seq,
    pub(crate) removed: Id,
    pub(crate) seen: Seq,
}

fn is_counted(prune: &PruneMade, known: &VersionVector) -> bool
    ensures { result ≡ is_counted (number_at known.now) prune.now }
{
    prune.number <= known.at(prune.origin)
}

fn prunes_it(prune: &PruneMade, known: &VersionVector, id: Id) -> bool
    ensures { result ≡ prunes_it (number_at known.now) id prune.now }
{
    prune.removed.number() == id.number() && is_counted(prune, known)
}

/// Whether a counted record prunes the identity.
pub(crate) fn has_prune(prunes: &[PruneMade], known: &VersionVector, id: Id) -> bool
    ensures { result ≡ has_prune prunes.now (number_at known.now) id }
{
    prunes.iter().any(|prune| prunes_it(prune, known, id))
}

fn leaves_alone(prune: &PruneMade, other: &PruneMade, known: &VersionVector) -> bool
    ensures { result ≡ leaves_alone (number_at known.now) prune.now other.now }
{
    !prunes_it(other, known, prune.removed)
        || (prune.origin.number() == other.origin.number() && prune.number == other.number)
}

fn is_alone(prunes: &[PruneMade], prune: &PruneMade, known: &VersionVector) -> bool
    ensures { result ≡ list_all (leaves_alone (number_at known.now) prune.now) prunes.now }
{
    prunes.iter().all(|other| leaves_alone(prune, other, known))
}

fn is_exact_prune(prunes: &[PruneMade], prune: &PruneMade, known: &VersionVector) -> bool
    ensures { result ≡ is_exact_prune prunes.now (number_at known.now) prune.now }
{
    !is_counted(prune, known)
        || (known.at(prune.removed) == prune.seen && is_alone(prunes, prune, known))
}

/// Whether of each identity that a counted record prunes nothing more is counted than that record saw, and no other prune of it.
pub(crate) fn are_exact(prunes: &[PruneMade], known: &VersionVector) -> bool
    ensures { result ≡ are_exact prunes.now (number_at known.now) }
{
    prunes
        .iter()
        .all(|prune| is_exact_prune(prunes, prune, known))
}

fn counts_dot(dot: &Dot, known: &VersionVector) -> bool
    ensures { result ≡ counts_dot (number_at known.now) dot.now }
{
    dot.seq <= known.at(dot.origin)
}

/// Whether a counted record deletes the key.
pub(crate) fn has_delete(deletes: &[Dot], known: &VersionVector) -> bool
    ensures { result ≡ has_delete deletes.now (number_at known.now) }
{
    deletes.iter().any(|dot| counts_dot(dot, known))
}
