ghost use Rattle.std.specs.Prelude.{◌≡◌, ◌↔◌, ℕ, max};
ghost use Rattle.model_history.specs.Vector.{VersionVector, IdentitySet, Covers, join};
ghost use Rattle.model_history.specs.History.{History, at, versions, union, cut, Agree, IsPartOf, IsHistory, IsExactlyPruned, is_pruned};
ghost use Rattle.model_history.specs.Log.{IsTakenFrom};
ghost use Rattle.model_history.specs.Cuts.{IsConsistentCut, IsPrunedCut, HasPrunedHistory};

/// A union of histories of operations of any type.
pub fn union_laws<Operation>()
    ensures count { (H J : History Operation) (i : ℕ) → at (union H J) i ≡ max (at H i) (at J i) }
    ensures same { (H : History Operation) → union H H ≡ H }
    ensures assoc { (H J K : History Operation) → union (union H J) K ≡ union H (union J K) }
    ensures comm { (H J : History Operation) → Agree H J → union H J ≡ union J H }
{}

/// A history that is taken from a log is a consistent cut of it, and a consistent cut is such a history.
/// The cut is pruned where the history is exactly pruned, and the other way round.
pub fn histories_are_cuts<Operation>()
    ensures cut { (log H : History Operation) → IsHistory log → IsTakenFrom log H → IsConsistentCut log (versions H) × (cut log (versions H) ≡ H) }
    ensures history { (log : History Operation) (held : VersionVector) → IsConsistentCut log held → IsHistory (cut log held) × IsTakenFrom log (cut log held) × (versions (cut log held) ≡ held) }
    ensures joined { (H J : History Operation) → versions (union H J) ≡ join (versions H) (versions J) }
    ensures pruned { (log : History Operation) (held : VersionVector) (gone : IdentitySet) → IsPrunedCut log held gone → IsExactlyPruned (cut log held) × ((r : ℕ) → gone r ≡ is_pruned (cut log held) r) }
    ensures exact { (log H : History Operation) → IsHistory H → IsPartOf H log → IsExactlyPruned H → IsPrunedCut log (versions H) (is_pruned H) }
{}

/// Cuts said by histories. A vector names a consistent cut exactly where the log has so many records, and these are a history.
/// The cut is pruned exactly where that history is exactly pruned; its set is what the history is pruned of.
pub fn cuts_by_histories<Operation>()
    ensures consistent { (log : History Operation) (held : VersionVector) → IsConsistentCut log held ↔ (Covers (versions log) held × IsHistory (cut log held)) }
    ensures pruned { (log : History Operation) (held : VersionVector) (gone : IdentitySet) → IsPrunedCut log held gone ↔ HasPrunedHistory log held gone }
{}
