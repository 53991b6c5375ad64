ghost use Rattle.std.specs.Prelude.{ℕ};
ghost use Rattle.data_envelope.specs.Images.{GroupParts};
ghost use Rattle.member_views.specs.Views.{View};
ghost use Rattle.member_acceptance.specs.Accepting.{PassesFromSender};

use data_lattice::Replica;

/// A group of a sender's records of a key's log passes the test of groups, once the view has given whom it needs. So no group
/// that an honest member sends under the receiver's view or an earlier one is refused.
pub fn honest_groups_pass<T: Replica>()
    ensures { (view : View) (from : ℕ) (parts : GroupParts T.Delta) → PassesFromSender T.IsDeltaOf view from parts }
{}
