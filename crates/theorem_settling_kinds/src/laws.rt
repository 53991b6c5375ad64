ghost use Rattle.model_kinds.specs.SixKinds.{six_kinds};
ghost use Rattle.model_kinds.specs.declared.kind.Kind.{Kind};
ghost use Rattle.model_kinds.specs.declared.operation.Op.{Op};
ghost use Rattle.model_kinds.specs.declared.shown.Shown.{Shown};
ghost use Rattle.model_members.specs.DataType.{Replication};
ghost use Rattle.theorem_settling.specs.Settling.{BlockedStays};
ghost use Rattle.std.specs.Prelude.{◌≡◌};

/// What blocks an owner's prune of one of the six kinds goes on blocking it when the owner prunes another identity.
pub fn blocked_stays()
    ensures { (D : Replication Kind Op Shown) → D.data_type ≡ six_kinds → BlockedStays D }
{}
