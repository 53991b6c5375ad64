ghost use Rattle.std.specs.Prelude.{◌≡◌, ℕ, ◌<◌, true, false, None};
ghost use Rattle.model_history.specs.Table.{identity_limit};
ghost use Rattle.model_history.specs.History.{History, IsPartOf, IsHistory};
ghost use Rattle.model_meanings.specs.Prunes.{after_prune};
ghost use Rattle.model_kinds.specs.declared.kind.Kind.{Kind};
ghost use Rattle.model_kinds.specs.declared.operation.Op.{Op};
ghost use Rattle.model_kinds.specs.declared.operation.Op.TheVariants.{Delete};
ghost use Rattle.model_kinds.specs.declared.shown.Shown.TheVariants.{Deleted};
ghost use Rattle.model_kinds.specs.SixKinds.{values, six_kinds};

/// A prune changes nothing that is shown at its moment, whatever the kind and whoever prunes whom. It deletes no key, and a deleted one stays so.
pub fn prunes_show_nothing_new()
    ensures shown { (kind : Kind) (H : History Op) (owner removed : ℕ) → IsHistory H → owner < identity_limit → six_kinds.shown kind (after_prune H owner removed) ≡ six_kinds.shown kind H }
    ensures deleted { (H : History Op) (owner removed : ℕ) → six_kinds.deleted (after_prune H owner removed) ≡ six_kinds.deleted H }
{}

/// A delete wins over every value, and for ever: a history with a delete, and each history that holds it, shows that its key is deleted, whatever its kind and whatever else it has, and blocks no prune.
/// A delete fits every kind, and is refused by none. Histories without a delete are those of the six kinds.
pub fn deletes_win()
    ensures stays { (H J : History Op) → IsPartOf H J → six_kinds.deleted H ≡ true → six_kinds.deleted J ≡ true }
    ensures shown { (kind : Kind) (H J : History Op) → IsPartOf H J → six_kinds.deleted H ≡ true → six_kinds.shown kind J ≡ Deleted }
    ensures unblocked { (kind : Kind) (owner removed : ℕ) (H J : History Op) → IsPartOf H J → six_kinds.deleted H ≡ true → six_kinds.blocked kind owner removed J ≡ None }
    ensures fits { (kind : Kind) → six_kinds.fits kind Delete ≡ true }
    ensures unrefused { (kind : Kind) (i : ℕ) (H : History Op) → six_kinds.refusal kind i Delete H ≡ None }
    ensures others { (kind : Kind) (H : History Op) → six_kinds.deleted H ≡ false → six_kinds.shown kind H ≡ values.shown kind H }
{}
